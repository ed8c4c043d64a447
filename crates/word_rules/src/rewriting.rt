//! Normal forms of words and of critical pairs.
ghost use Rattle.std.specs.Prelude.{◌≡◌, ◌≢◌, ◌≤◌, ◌<◌, ℕ, length, true, false, max, IfOk, OnOk, IfSome, IsNone, Some, None};
ghost use Rattle.monomial_order.specs.Monomial.{exponent, least_common_multiple, Divides};
ghost use Rattle.word_rewriting.specs.Rewriting.{IsNormalForm, RewritesBy};
ghost use Rattle.word_rules.specs.Trimmed.{trim, trimmed};
ghost use Rattle.word_rules.specs.Rules.{rule_at, AreDecreasing, ArePairForms, HasOneForm, IsFormAfter, IsSmallWord};

use crate::RuleTable;
use crate::scratch::ScratchWord;
use monomial_order::{Memory, Monomial, Order};
use std::alloc::Global;

/// The word without the zeros at its end, or zero.
fn to_word(alloc: Global, word: &Option<ScratchWord>) -> Result<Option<Monomial>, Memory>
    ensures { IfOk result (λ m. m ≡ trimmed word.now) }
{
    match word {
        Some(word) => Ok(Some(word.to_monomial(alloc)?)),
        None => Ok(None),
    }
}

/// Whether the words, or zeros, are the same.
fn are_same(u: &Option<ScratchWord>, v: &Option<ScratchWord>) -> bool
    ensures yes { result ≡ true → u.now ≡ v.now }
    ensures no { result ≡ false → u.now ≢ v.now }
{
    match (u, v) {
        (None, None) => true,
        (Some(u), Some(v)) => u.exponents() == v.exponents(),
        _ => false,
    }
}

impl RuleTable {
    /// Rewrites the word by a rule. False if that gives zero.
    fn step<O: Order>(&self, o: &O, i: usize, word: &mut ScratchWord) -> Result<bool, Memory>
        requires decreasing { AreDecreasing (O.order o.now) self.now }
        requires inside { i < length self.now }
        requires divides { Divides (rule_at self.now i).left word.old }
        requires long { length word.old ≡ (O.order o.now).places }
        requires word { IsSmallWord (O.order o.now) (trim word.old) }
        ensures long { length word.new ≡ length word.old }
        ensures zero { IfOk result (λ r. r ≡ false → RewritesBy (rule_at self.now i) (trim word.old) None) }
        ensures next { IfOk result (λ r. r ≡ true
            → RewritesBy (rule_at self.now i) (trim word.old) (Some (trim word.new))) }
    {
        let Some(right) = self.right_side(i) else {
            return Ok(false);
        };
        word.divide(self.left_side(i));
        word.multiply(right)?;
        Ok(true)
    }

    /// A normal form of a word, or None if it is zero.
    fn finish<O: Order>(&self, o: &O, mut word: ScratchWord) -> Result<Option<ScratchWord>, Memory>
        requires decreasing { AreDecreasing (O.order o.now) self.now }
        requires long { length word ≡ (O.order o.now).places }
        requires word { IsSmallWord (O.order o.now) (trim word) }
        ensures long { IfOk result (λ f. IfSome f (λ w. length w ≡ (O.order o.now).places)) }
        ensures form { IfOk result (λ f. IsNormalForm self.now (Some (trim word)) (trimmed f)) }
    {
        'rewrite: while let Some(i) = self.find(&word) {
            if !self.step(o, i, &mut word)? {
                return Ok(None);
            }
        }
        Ok(Some(word))
    }

    /// A normal form of a word; None is zero. In the order the rules rewrite to smaller words, so the steps end and
    /// every exponent fits.
    pub fn rewrite<O: Order>(
        &self,
        alloc: Global,
        o: &O,
        word: &Monomial,
    ) -> Result<Option<Monomial>, Memory>
        requires decreasing { AreDecreasing (O.order o.now) self.now }
        requires word { IsSmallWord (O.order o.now) word.now }
        ensures { IfOk result (IsNormalForm self.now (Some word.now)) }
    {
        let spread = ScratchWord::spread(alloc, word.as_slice(), o.places())?;
        let form = self.finish(o, spread)?;
        to_word(alloc, &form)
    }

    /// The least common multiple of two left sides.
    fn multiple(
        &self,
        alloc: Global,
        places: usize,
        i: usize,
        j: usize,
    ) -> Result<ScratchWord, Memory>
        requires first { i < length self.now }
        requires second { j < length self.now }
        requires short { length (rule_at self.now i).left ≤ places }
        requires also { length (rule_at self.now j).left ≤ places }
        ensures long { IfOk result (λ w. length w ≡ places) }
        ensures exponents { IfOk result (λ w. (p : ℕ) → exponent w p
            ≡ max (exponent (rule_at self.now i).left p) (exponent (rule_at self.now j).left p)) }
    {
        let mut word = ScratchWord::new(alloc, places)?;
        word.raise(self.left_side(i))?;
        word.raise(self.left_side(j))?;
        Ok(word)
    }

    /// A normal form of what rule i rewrites the least common multiple of its left side and that of rule j to.
    fn form_after<O: Order>(
        &self,
        alloc: Global,
        o: &O,
        i: usize,
        j: usize,
    ) -> Result<Option<ScratchWord>, Memory>
        requires decreasing { AreDecreasing (O.order o.now) self.now }
        requires first { i < length self.now }
        requires second { j < length self.now }
        requires small { IsSmallWord (O.order o.now)
            (least_common_multiple (rule_at self.now i).left (rule_at self.now j).left) }
        ensures long { IfOk result (λ f. IfSome f (λ w. length w ≡ (O.order o.now).places)) }
        ensures form { IfOk result (λ f. IsFormAfter self.now (rule_at self.now i)
            (least_common_multiple (rule_at self.now i).left (rule_at self.now j).left) (trimmed f)) }
    {
        let mut word = self.multiple(alloc, o.places(), i, j)?;
        if !self.step(o, i, &mut word)? {
            return Ok(None);
        }
        self.finish(o, word)
    }

    /// Different normal forms of the members of the critical pair of two rules, if those that it finds differ; None
    /// among them is zero. No word is made if both members have one normal form.
    pub fn different_forms<O: Order>(
        &self,
        alloc: Global,
        o: &O,
        i: usize,
        j: usize,
    ) -> Result<Option<(Option<Monomial>, Option<Monomial>)>, Memory>
        requires decreasing { AreDecreasing (O.order o.now) self.now }
        requires first { i < length self.now }
        requires second { j < length self.now }
        requires small { IsSmallWord (O.order o.now)
            (least_common_multiple (rule_at self.now i).left (rule_at self.now j).left) }
        ensures none { IfOk result (λ f. IsNone f → HasOneForm self.now (rule_at self.now i) (rule_at self.now j)) }
        ensures forms { IfOk result (λ f. IfSome f (λ (u, v). ArePairForms self.now (rule_at self.now i)
            (rule_at self.now j) u v)) }
        ensures different { IfOk result (λ f. IfSome f (λ (u, v). u ≢ v)) }
    {
        let first = self.form_after(alloc, o, i, j)?;
        let second = self.form_after(alloc, o, j, i)?;
        if are_same(&first, &second) {
            return Ok(None);
        }
        Ok(Some((to_word(alloc, &first)?, to_word(alloc, &second)?)))
    }
}
