//! Lists of different indexes.
ghost use Rattle.std.specs.Prelude.{◌≡◌, ◌<◌, ℕ, [], false, length, slice_index_or, OnOk};
ghost use Rattle.word_rules.specs.Sharing.{IsMarked};

use monomial_order::Memory;
use std::alloc::Global;
use std::marker::Model;

/// Different indexes of rules, which one call after the other lists.
#[derive(Drop)]
pub struct Marks {
    seen: Vec<bool>,
    list: Vec<usize>,
}

impl Model for Marks {
    ghost use Rattle.std.specs.Prelude.{List, ℕ};
    ghost use Rattle.word_rules.specs.Sharing.{AreMarks};

    ghost Value = { List ℕ };

    ghost view = { λ m. m.list.items };

    ghost invariant = { λ m. AreMarks m.seen.items m.list.items };
}

/// Makes places up to the index, without marks.
fn reach(seen: &mut Vec<bool>, i: usize) -> Result<(), Memory>
    ensures same { (k : ℕ) → slice_index_or seen.new.items k false ≡ slice_index_or seen.old.items k false }
    ensures ok { OnOk result (i < length seen.new.items) }
{
    'reach: while seen.len() <= i {
        seen.push(false)?;
    }
    Ok(())
}

impl Marks {
    /// No index. It takes no memory.
    pub fn new(alloc: Global) -> Marks
        ensures { result ≡ [] }
    {
        Marks {
            seen: Vec::new(alloc),
            list: Vec::new(alloc),
        }
    }

    /// The indexes that are listed.
    pub fn indexes(&self) -> &[usize]
        ensures { result.now ≡ self.now }
    {
        self.list.as_slice()
    }

    /// Takes out the indexes that are listed, and passes over no other.
    pub(crate) fn clear(&mut self)
        ensures { self.new ≡ [] }
    {
        'listed: while let Some(i) = self.list.pop() {
            self.seen[i] = false;
        }
    }

    /// Puts the index at the end, unless it is listed.
    pub(crate) fn add(&mut self, i: usize) -> Result<(), Memory>
        ensures { OnOk result (IsMarked i self.old self.new) }
    {
        reach(&mut self.seen, i)?;
        if !self.seen[i] {
            self.list.push(i)?;
            self.seen[i] = true;
        }
        Ok(())
    }
}
