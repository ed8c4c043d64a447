//! Sides of rules.
ghost use Rattle.std.specs.Prelude.{◌≡◌, ◌≢◌, ◌↔◌, [], IfOk, IsTrue};
ghost use Rattle.monomial_order.specs.Monomial.{exponent, Divides};
ghost use Rattle.word_rules.specs.Factors.{factors_of};

use crate::factor::Factor;
use monomial_order::{Memory, Monomial};
use std::alloc::Global;
use std::marker::Model;

/// A side of a rule: a word, with its letters, rising.
#[derive(Drop)]
pub struct RuleSide {
    word: Monomial,
    factors: Vec<Factor>,
}

impl Model for RuleSide {
    ghost use Rattle.std.specs.Prelude.{List, ℕ};
    ghost use Rattle.word_rules.specs.Factors.{IsSide};

    ghost Value = { List ℕ };

    ghost view = { λ s. s.word };

    ghost invariant = { λ s. IsSide s.word s.factors.items };
}

/// The exponent of a letter in the word with these exponents.
pub(crate) fn exponent_in(word: &[u16], letter: usize) -> u16
    ensures { result ≡ exponent word.now letter }
{
    if letter < word.len() { word[letter] } else { 0 }
}

/// The letters of the word with these exponents, rising.
fn list_factors(alloc: Global, word: &[u16]) -> Result<Vec<Factor>, Memory>
    ensures { IfOk result (λ v. v.items ≡ factors_of word.now) }
{
    let mut factors = Vec::new(alloc);
    'places: for letter in 0..word.len() {
        let exponent = word[letter];
        if exponent > 0 {
            factors.push(Factor { letter, exponent })?;
        }
    }
    Ok(factors)
}

impl RuleSide {
    /// The side with this word; its letters are listed once.
    pub fn new(alloc: Global, word: Monomial) -> Result<RuleSide, Memory>
        ensures { IfOk result (λ s. s ≡ word) }
    {
        let factors = list_factors(alloc, word.as_slice())?;
        Ok(RuleSide { word, factors })
    }

    /// Its word.
    pub fn word(&self) -> &Monomial
        ensures { result.now ≡ self.now }
    {
        &self.word
    }

    /// Its word, moved out.
    pub fn into_word(self) -> Monomial
        ensures { result ≡ self }
    {
        self.word
    }

    /// Its letters, rising, each with its exponent.
    pub(crate) fn factors(&self) -> &[Factor]
        ensures same { result.now ≡ factors_of self.now }
        ensures some { self.now ≢ [] → result.now ≢ [] }
    {
        self.factors.as_slice()
    }

    /// Whether it divides the word with these exponents.
    pub(crate) fn divides(&self, word: &[u16]) -> bool
        ensures { IsTrue result ↔ Divides self.now word.now }
    {
        'letters: for factor in self.factors.as_slice() {
            if exponent_in(word, factor.letter) < factor.exponent {
                return false;
            }
        }
        true
    }
}
