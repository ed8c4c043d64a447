//! Names of places.
ghost use Rattle.std.specs.Prelude.{◌≡◌, ◌<◌, ◌↔◌, true, false, [], ◌∷◌, ◌++◌, length, slice_get, Some, IsNone, IfSome, IfOk, OnErr, Contains, IsTrue};
ghost use Rattle.std.specs.List.{IsDistinct};
ghost use Rattle.std.specs.Str.{bytes_eq};

use indexmap::IndexSet;
use monomial_order::Memory;
use std::alloc::Global;
use std::marker::Model;

/// Names, all different, in the order in which they came.
#[derive(Drop)]
pub struct NameTable {
    names: IndexSet<String>,
}

impl Model for NameTable {
    ghost use Rattle.std.specs.Prelude.{ℕ, List, map};
    ghost use Rattle.std.specs.List.{IsDistinct};
    ghost use Rattle.std.specs.Str.{bytes_eq};
    ghost use Rattle.std.specs.String.{string_bytes};

    ghost Value = { List (List ℕ) };

    ghost view = { λ t. map string_bytes t.names.keys };

    ghost invariant = { λ t. IsDistinct bytes_eq (map string_bytes t.names.keys) };
}

impl NameTable {
    /// No names. It takes no memory.
    pub fn new(alloc: Global) -> NameTable
        ensures { result ≡ [] }
    {
        NameTable {
            names: IndexSet::new(alloc),
        }
    }

    /// Puts a name at the end, and says whether it was new.
    pub fn push(&mut self, name: &str) -> Result<bool, Memory>
        ensures repeated { (result ≡ Ok false) ↔ Contains self.old name.now }
        ensures added { result ≡ Ok true → self.new ≡ self.old ++ (name.now ∷ []) }
        ensures unchanged { result ≡ Ok false → self.new ≡ self.old }
        ensures memory { OnErr result (self.new ≡ self.old) }
        ensures distinct { IsDistinct bytes_eq self.new }
    {
        if self.names.contains(name) {
            return Ok(false);
        }
        let name = String::from_str(*self.names.allocator(), name)?;
        self.names.insert(name)?;
        Ok(true)
    }

    /// The index of a name.
    pub fn place(&self, name: &str) -> Option<usize>
        ensures at { IfSome result (λ i. slice_get self.now i ≡ Some name.now) }
        ensures absent { IsNone result ↔ ¬ Contains self.now name.now }
    {
        self.names.get_index_of(name)
    }

    /// The number of names.
    pub fn len(&self) -> usize
        ensures length { result ≡ length self.now }
        ensures distinct { IsDistinct bytes_eq self.now }
    {
        self.names.len()
    }

    /// Whether there are no names.
    pub fn is_empty(&self) -> bool
        ensures { IsTrue result ↔ (self.now ≡ []) }
    {
        self.names.is_empty()
    }

    /// The name at an index.
    pub fn name(&self, i: usize) -> &str
        requires { i < length self.now }
        ensures { slice_get self.now i ≡ Some result.now }
    {
        let names = self.names.as_slice();
        names[i].as_str()
    }

    pub(crate) fn copy(&self) -> Result<NameTable, Memory>
        ensures { IfOk result (λ t. t ≡ self.now) }
    {
        Ok(NameTable {
            names: self.names.clone()?,
        })
    }
}
