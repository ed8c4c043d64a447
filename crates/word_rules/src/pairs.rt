//! Lists of rule indexes, by two letters.
ghost use Rattle.std.specs.Prelude.{◌≡◌, ◌<◌, ℕ, [], length, Contains, OnOk};
ghost use Rattle.word_rules.specs.Index.{pair_bucket, KeepsPairs};

use crate::buckets::Buckets;
use monomial_order::Memory;
use std::alloc::Global;

/// Buckets for each letter, by a second letter.
#[derive(Drop)]
pub(crate) struct PairIndex {
    pub(crate) rows: Vec<Buckets>,
}

impl PairIndex {
    pub(crate) fn new(alloc: Global) -> PairIndex
        ensures { result.rows.items ≡ [] }
    {
        PairIndex {
            rows: Vec::new(alloc),
        }
    }

    /// Makes rows to the letter.
    fn reach(&mut self, alloc: Global, a: usize) -> Result<(), Memory>
        ensures same { (k b : ℕ) → pair_bucket self.new k b ≡ pair_bucket self.old k b }
        ensures ok { OnOk result (a < length self.new.rows.items) }
    {
        'reach: while self.rows.len() <= a {
            self.rows.push(Buckets::new(alloc))?;
        }
        Ok(())
    }

    /// Puts an index into the list of two letters. No index is taken out, even if memory runs out.
    pub(crate) fn push(
        &mut self,
        alloc: Global,
        a: usize,
        b: usize,
        index: usize,
    ) -> Result<(), Memory>
        ensures keeps { KeepsPairs self.old self.new }
        ensures ok { OnOk result (Contains (pair_bucket self.new a b) index) }
    {
        self.reach(alloc, a)?;
        self.rows[a].push(alloc, b, index)?;
        Ok(())
    }
}
