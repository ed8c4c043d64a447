//! Rules with their index.
ghost use Rattle.std.specs.Prelude.{◌≡◌, ◌≢◌, ◌<◌, ◌++◌, ◌∷◌, ℕ, [], length, take, set, Contains, OnOk, OnErr};
ghost use Rattle.monomial_order.specs.Monomial.{exponent};
ghost use Rattle.word_rules.specs.Index.{bucket, rules_of, AreTwoLetters, IsIndexed, IsPaired, KeepsIndexes, KeepsPairs};
ghost use Rattle.word_rules.specs.Rules.{rule_at};

use crate::RuleSide;
use crate::buckets::Buckets;
use crate::pairs::PairIndex;
use crate::word_rule::WordRule;
use monomial_order::Memory;
use std::alloc::Global;

/// The rules, their indexes by each letter, and their indexes by two letters, the greater one first. Indexes of rules
/// that are gone may stay in the buckets.
#[derive(Drop)]
pub(crate) struct Table {
    pub(crate) rules: Vec<WordRule>,
    pub(crate) by_letter: Buckets,
    pub(crate) by_pair: PairIndex,
}

/// The two last letters of a word, the last one first, or the only one twice.
fn last_two(word: &RuleSide) -> (usize, usize)
    requires { word.now ≢ [] }
    ensures { AreTwoLetters word.now result.0 result.1 }
{
    let factors = word.factors();
    let last = factors[factors.len() - 1].letter;
    if factors.len() == 1 {
        (last, last)
    } else {
        (last, factors[factors.len() - 2].letter)
    }
}

impl Table {
    pub(crate) fn new(alloc: Global) -> Table
        ensures empty { result.rules.items ≡ [] }
        ensures indexed { IsIndexed result }
    {
        Table {
            rules: Vec::new(alloc),
            by_letter: Buckets::new(alloc),
            by_pair: PairIndex::new(alloc),
        }
    }

    /// Puts an index into the buckets of the letters of a left side. No index is taken out.
    fn push_index(&mut self, alloc: Global, left: &RuleSide, i: usize) -> Result<(), Memory>
        requires { left.now ≢ [] }
        ensures rules { self.new.rules ≡ self.old.rules }
        ensures keeps { KeepsIndexes self.old.by_letter self.new.by_letter }
        ensures keeps_pairs { KeepsPairs self.old.by_pair self.new.by_pair }
        ensures listed { OnOk result
            ((a : ℕ) → exponent left.now a ≢ 0 → Contains (bucket self.new.by_letter a) i) }
        ensures paired { OnOk result (IsPaired self.new.by_pair i left.now) }
    {
        self.by_letter.push_each(alloc, left.factors(), i)?;
        let (last, next) = last_two(left);
        self.by_pair.push(alloc, last, next, i)?;
        Ok(())
    }

    /// Puts a rule at the end.
    pub(crate) fn push(
        &mut self,
        alloc: Global,
        left: RuleSide,
        right: Option<RuleSide>,
    ) -> Result<(), Memory>
        requires indexed { IsIndexed self.old }
        requires left { left ≢ [] }
        ensures indexed { IsIndexed self.new }
        ensures last { OnOk result (rules_of self.new.rules.items
            ≡ rules_of self.old.rules.items ++ record { left = left; right = right } ∷ []) }
        ensures unchanged { OnErr result (self.new.rules.items ≡ self.old.rules.items) }
    {
        self.rules.reserve(1)?;
        let i = self.rules.len();
        self.push_index(alloc, &left, i)?;
        self.rules.push_reserved(WordRule { left, right });
        Ok(())
    }

    /// Takes out the rules from index n on.
    pub(crate) fn truncate(&mut self, n: usize)
        requires { IsIndexed self.old }
        ensures indexed { IsIndexed self.new }
        ensures rules { rules_of self.new.rules.items ≡ take n (rules_of self.old.rules.items) }
    {
        self.rules.truncate(n);
    }

    /// Replaces the right side of a rule.
    pub(crate) fn set_right(&mut self, i: usize, right: Option<RuleSide>)
        requires indexed { IsIndexed self.old }
        requires inside { i < length self.old.rules.items }
        ensures indexed { IsIndexed self.new }
        ensures rules { rules_of self.new.rules.items ≡ set (rules_of self.old.rules.items) i
            (record { left = (rule_at (rules_of self.old.rules.items) i).left; right = right }) }
    {
        self.rules[i].right = right;
    }
}
