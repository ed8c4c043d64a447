//! Left sides that divide a word.
ghost use Rattle.std.specs.Prelude.{◌↔◌, ◌≤◌, ◌<◌, ℕ, length, Contains, IsNone, IsTrue, IfSome};
ghost use Rattle.monomial_order.specs.Monomial.{Divides};
ghost use Rattle.word_rewriting.specs.Rewriting.{HasLeftDivisor};
ghost use Rattle.word_rules.specs.Index.{bucket, lefts_of, list_at, pair_bucket, rules_of, IsIndexed};
ghost use Rattle.word_rules.specs.Rules.{rule_at};

use crate::RuleTable;
use crate::buckets::Buckets;
use crate::scratch::ScratchWord;
use crate::table::Table;

impl Table {
    /// Whether the index is one of a rule, and its left side divides the word.
    fn rule_divides(&self, i: usize, word: &[u16]) -> bool
        requires { IsIndexed self.now }
        ensures { IsTrue result ↔ ((i < length self.now.rules.items)
            × Divides (list_at (lefts_of self.now.rules.items) i) word.now) }
    {
        i < self.rules.len() && self.rules[i].left.divides(word)
    }

    /// The first of these indexes that is one of a rule whose left side divides the word.
    fn find_among(&self, indexes: &[usize], word: &[u16]) -> Option<usize>
        requires { IsIndexed self.now }
        ensures inside { IfSome result (λ i. i < length self.now.rules.items) }
        ensures divides { IfSome result (λ i. Divides (list_at (lefts_of self.now.rules.items) i) word.now) }
        ensures none { IsNone result → (i : ℕ) → Contains indexes.now i → i < length self.now.rules.items
            → ¬ Divides (list_at (lefts_of self.now.rules.items) i) word.now }
    {
        'indexes: for i in indexes {
            if self.rule_divides(*i, word) {
                return Some(*i);
            }
        }
        None
    }

    /// The same with the indexes in the buckets of a row that have one of the letters up to a.
    fn find_in_row(&self, row: &Buckets, a: usize, letters: &[usize], word: &[u16]) -> Option<usize>
        requires { IsIndexed self.now }
        ensures inside { IfSome result (λ i. i < length self.now.rules.items) }
        ensures divides { IfSome result (λ i. Divides (list_at (lefts_of self.now.rules.items) i) word.now) }
        ensures none { IsNone result → (b i : ℕ) → Contains letters.now b → b ≤ a → Contains (bucket row.now b) i
            → i < length self.now.rules.items → ¬ Divides (list_at (lefts_of self.now.rules.items) i) word.now }
    {
        'letters: for b in letters {
            if *b > a {
                continue;
            }
            match self.find_among(row.get(*b), word) {
                Some(i) => return Some(i),
                None => {}
            }
        }
        None
    }

    /// The same with the indexes in the buckets of letter a and one of the letters up to it.
    fn find_by_letter(&self, a: usize, letters: &[usize], word: &[u16]) -> Option<usize>
        requires { IsIndexed self.now }
        ensures inside { IfSome result (λ i. i < length self.now.rules.items) }
        ensures divides { IfSome result (λ i. Divides (list_at (lefts_of self.now.rules.items) i) word.now) }
        ensures none { IsNone result → (b i : ℕ) → Contains letters.now b → b ≤ a
            → Contains (pair_bucket self.now.by_pair a b) i → i < length self.now.rules.items
            → ¬ Divides (list_at (lefts_of self.now.rules.items) i) word.now }
    {
        if a < self.by_pair.rows.len() {
            self.find_in_row(&self.by_pair.rows[a], a, letters, word)
        } else {
            None
        }
    }

    /// The index of a rule whose left side divides the word.
    fn find(&self, word: &ScratchWord) -> Option<usize>
        requires { IsIndexed self.now }
        ensures inside { IfSome result (λ i. i < length self.now.rules.items) }
        ensures divides { IfSome result (λ i. Divides (rule_at (rules_of self.now.rules.items) i).left word.now) }
        ensures none { IsNone result → (i : ℕ) → i < length self.now.rules.items
            → ¬ Divides (rule_at (rules_of self.now.rules.items) i).left word.now }
    {
        let letters = word.letters();
        'letters: for a in letters {
            match self.find_by_letter(*a, letters, word.exponents()) {
                Some(i) => return Some(i),
                None => {}
            }
        }
        None
    }
}

impl RuleTable {
    /// The index of a rule whose left side divides the word.
    pub(crate) fn find(&self, word: &ScratchWord) -> Option<usize>
        ensures inside { IfSome result (λ i. i < length self.now) }
        ensures divides { IfSome result (λ i. Divides (rule_at self.now i).left word.now) }
        ensures none { IsNone result → ¬ HasLeftDivisor self.now word.now }
    {
        self.table.find(word)
    }
}
