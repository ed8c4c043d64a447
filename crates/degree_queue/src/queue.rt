//! A queue of items by degree.
ghost use Rattle.std.specs.Prelude.{◌≡◌, ◌<◌, ◌≤◌, ◌↔◌, ◌++◌, [], ◌∷◌, length, remove, slice_get, IsNone, IfSome, IfNone, IfErr, OnOk, OnErr};
ghost use Rattle.degree_queue.specs.DegreeQueue.{list_of, SameElsewhere};

use crate::lists::Lists;
use std::alloc::Global;
use std::marker::Model;

/// The greatest degree of an item.
pub const DEGREE_MAX: u32 = 30000;

/// A list of items for each degree. A degree that was never used has the empty list.
///
/// All items are in one block of memory. That of a popped item is used again.
#[derive(Drop)]
pub struct DegreeQueue<T> {
    lists: Lists<T>,
}

impl<T> Model for DegreeQueue<T> {
    ghost use Rattle.std.specs.Prelude.{List};

    ghost Value = { List (List T) };

    ghost use Rattle.degree_queue.specs.Lists.{lists_of, IsSound};

    ghost view = { λ q. lists_of q.lists };

    ghost invariant = { λ q. IsSound q.lists };
}

impl<T> DegreeQueue<T> {
    /// A queue without items. It takes no memory.
    pub fn new(alloc: Global) -> Self
        ensures { result ≡ [] }
    {
        DegreeQueue {
            lists: Lists::new(alloc),
        }
    }

    /// How many items have the degree.
    pub fn len(&self, degree: u32) -> usize
        ensures { result ≡ length (list_of self.now degree) }
    {
        self.lists.len(degree as usize)
    }

    /// The item at index k of the degree, found from the nearer end of its list.
    pub fn get(&self, degree: u32, k: usize) -> &T
        requires { k < length (list_of self.now degree) }
        ensures { slice_get (list_of self.now degree) k ≡ Some result.now }
    {
        self.lists.get(degree as usize, k)
    }

    /// Puts the item last in its degree, or hands it back if memory runs out.
    pub fn push(&mut self, degree: u32, item: T) -> Result<(), T>
        requires { degree ≤ DEGREE_MAX }
        ensures last { OnOk result (list_of self.new degree ≡ list_of self.old degree ++ item ∷ []) }
        ensures others { SameElsewhere degree self.old self.new }

        // If memory runs out, nothing changes.
        ensures handed_back { IfErr result (λ back. back ≡ item) }
        ensures unchanged { OnErr result (self.new ≡ self.old) }
    {
        if self.lists.reserve(degree as usize).is_err() {
            return Err(item);
        }
        self.lists.put(degree as usize, item);
        Ok(())
    }

    /// Takes out the item at index k of the degree, found from the nearer end of its list.
    pub fn pop_at(&mut self, degree: u32, k: usize) -> T
        requires { k < length (list_of self.old degree) }
        ensures item { slice_get (list_of self.old degree) k ≡ Some result }
        ensures rest { list_of self.new degree ≡ remove (list_of self.old degree) k }
        ensures others { SameElsewhere degree self.old self.new }
    {
        self.lists.take(degree as usize, k)
    }

    /// Takes out the first item of the degree.
    pub fn pop_front(&mut self, degree: u32) -> Option<T>
        ensures first { IfSome result (λ item. list_of self.old degree ≡ item ∷ list_of self.new degree) }
        ensures others { SameElsewhere degree self.old self.new }
        ensures none { IsNone result ↔ (list_of self.old degree ≡ []) }
        ensures unchanged { IfNone result (self.new ≡ self.old) }
    {
        if self.len(degree) == 0 {
            return None;
        }
        Some(self.pop_at(degree, 0))
    }

    /// Takes out the last item of the degree.
    pub fn pop_back(&mut self, degree: u32) -> Option<T>
        ensures last { IfSome result (λ item. list_of self.old degree ≡ list_of self.new degree ++ item ∷ []) }
        ensures others { SameElsewhere degree self.old self.new }
        ensures none { IsNone result ↔ (list_of self.old degree ≡ []) }
        ensures unchanged { IfNone result (self.new ≡ self.old) }
    {
        let count = self.len(degree);
        if count == 0 {
            return None;
        }
        Some(self.pop_at(degree, count - 1))
    }
}
