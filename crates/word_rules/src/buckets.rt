//! Lists of rule indexes, by key.
ghost use Rattle.std.specs.Prelude.{◌≡◌, ◌<◌, ℕ, [], length, Contains, OnOk};
ghost use Rattle.word_rules.specs.Index.{bucket, KeepsIndexes};

use crate::factor::Factor;
use monomial_order::Memory;
use std::alloc::Global;

/// A list of rule indexes for each key. A key that was never used has the empty list.
#[derive(Drop)]
pub(crate) struct Buckets {
    pub(crate) lists: Vec<Vec<usize>>,
}

impl Buckets {
    pub(crate) fn new(alloc: Global) -> Buckets
        ensures { result.lists.items ≡ [] }
    {
        Buckets {
            lists: Vec::new(alloc),
        }
    }

    pub(crate) fn get(&self, key: usize) -> &[usize]
        ensures { result.now ≡ bucket self.now key }
    {
        match self.lists.get(key) {
            Some(list) => list.as_slice(),
            None => &[],
        }
    }

    /// Makes lists to the key.
    fn reach(&mut self, alloc: Global, key: usize) -> Result<(), Memory>
        ensures same { (k : ℕ) → bucket self.new k ≡ bucket self.old k }
        ensures ok { OnOk result (key < length self.new.lists.items) }
    {
        'reach: while self.lists.len() <= key {
            self.lists.push(Vec::new(alloc))?;
        }
        Ok(())
    }

    /// Puts an index into the list of a key. No index is taken out, even if memory runs out.
    pub(crate) fn push(&mut self, alloc: Global, key: usize, index: usize) -> Result<(), Memory>
        ensures keeps { KeepsIndexes self.old self.new }
        ensures ok { OnOk result (Contains (bucket self.new key) index) }
    {
        self.reach(alloc, key)?;
        self.lists[key].push(index)?;
        Ok(())
    }

    /// Puts an index into the lists of some letters. No index is taken out, even if memory runs out.
    pub(crate) fn push_each(
        &mut self,
        alloc: Global,
        factors: &[Factor],
        index: usize,
    ) -> Result<(), Memory>
        ensures keeps { KeepsIndexes self.old self.new }
        ensures ok { OnOk result ((f : Factor) → Contains factors.now f → Contains (bucket self.new f.letter) index) }
    {
        'letters: for factor in factors {
            self.push(alloc, factor.letter, index)?;
        }
        Ok(())
    }
}
