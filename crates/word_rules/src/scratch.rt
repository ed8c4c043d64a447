//! Words that change in place.
ghost use Rattle.std.specs.Prelude.{◌≡◌, ◌≢◌, ◌+◌, ◌-◌, ◌≤◌, ◌<◌, ℕ, length, replicate, max, Contains, IfOk, OnOk};
ghost use Rattle.monomial_order.specs.Limits.{exponent_max};
ghost use Rattle.monomial_order.specs.Monomial.{exponent, Divides};
ghost use Rattle.word_rules.specs.Trimmed.{trim};

use crate::RuleSide;
use monomial_order::{Memory, Monomial};
use std::alloc::Global;
use std::marker::Model;

/// For how many letters a new word has room.
const ROOM: usize = 16;

/// A word with an exponent for each place, and a list of its letters in any order.
#[derive(Drop)]
pub(crate) struct ScratchWord {
    exponents: Vec<u16>,
    letters: Vec<usize>,
}

impl Model for ScratchWord {
    ghost use Rattle.std.specs.Prelude.{List, ℕ};
    ghost use Rattle.word_rules.specs.Scratch.{IsListed};

    ghost Value = { List ℕ };

    ghost view = { λ w. w.exponents.items };

    ghost invariant = { λ w. IsListed w.exponents.items w.letters.items };
}

impl ScratchWord {
    /// The word 1, with so many places.
    pub(crate) fn new(alloc: Global, places: usize) -> Result<ScratchWord, Memory>
        ensures { IfOk result (λ w. w ≡ replicate places 0) }
    {
        Ok(ScratchWord {
            exponents: vec![in alloc; 0u16; places]?,
            letters: Vec::with_capacity(alloc, ROOM)?,
        })
    }

    pub(crate) fn exponents(&self) -> &[u16]
        ensures { result.now ≡ self.now }
    {
        self.exponents.as_slice()
    }

    /// Its letters.
    pub(crate) fn letters(&self) -> &[usize]
        ensures { (a : ℕ) → exponent self.now a ≢ 0 → Contains result.now a }
    {
        self.letters.as_slice()
    }

    fn exponent(&self, letter: usize) -> u16
        requires { letter < length self.now }
        ensures { result ≡ exponent self.now letter }
    {
        self.exponents[letter]
    }

    /// Replaces the exponent of a letter.
    fn set_exponent(&mut self, letter: usize, e: u16) -> Result<(), Memory>
        requires inside { letter < length self.old }
        ensures long { length self.new ≡ length self.old }
        ensures here { OnOk result (exponent self.new letter ≡ e) }
        ensures others { OnOk result ((p : ℕ) → p ≢ letter → exponent self.new p ≡ exponent self.old p) }
    {
        if self.exponents[letter] == 0 {
            self.letters.push(letter)?;
        }
        self.exponents[letter] = e;
        Ok(())
    }

    /// The word with so many places.
    pub(crate) fn spread(alloc: Global, word: &[u16], places: usize) -> Result<ScratchWord, Memory>
        requires short { length word.now ≤ places }
        ensures long { IfOk result (λ w. length w ≡ places) }
        ensures same { IfOk result (λ w. (p : ℕ) → exponent w p ≡ exponent word.now p) }
    {
        let mut spread = ScratchWord::new(alloc, places)?;
        'places: for place in 0..word.len() {
            if word[place] > 0 {
                spread.set_exponent(place, word[place])?;
            }
        }
        Ok(spread)
    }

    /// Multiplies it by a word.
    pub(crate) fn multiply(&mut self, by: &RuleSide) -> Result<(), Memory>
        requires short { length by.now ≤ length self.old }
        requires fits { (p : ℕ) → exponent self.old p + exponent by.now p ≤ exponent_max }
        ensures long { length self.new ≡ length self.old }
        ensures exponents { OnOk result
            ((p : ℕ) → exponent self.new p ≡ exponent self.old p + exponent by.now p) }
    {
        'letters: for factor in by.factors() {
            let exponent = self.exponent(factor.letter) + factor.exponent;
            self.set_exponent(factor.letter, exponent)?;
        }
        Ok(())
    }

    /// Replaces it by its least common multiple with a word.
    pub(crate) fn raise(&mut self, by: &RuleSide) -> Result<(), Memory>
        requires short { length by.now ≤ length self.old }
        ensures long { length self.new ≡ length self.old }
        ensures exponents { OnOk result
            ((p : ℕ) → exponent self.new p ≡ max (exponent self.old p) (exponent by.now p)) }
    {
        'letters: for factor in by.factors() {
            let exponent = self.exponent(factor.letter).max(factor.exponent);
            self.set_exponent(factor.letter, exponent)?;
        }
        Ok(())
    }

    /// Takes the letters with the exponent 0 out of the list.
    fn drop_letters(&mut self)
        ensures { self.new ≡ self.old }
    {
        let mut k = 0;
        'letters: while k < self.letters.len() {
            if self.exponents[self.letters[k]] == 0 {
                self.letters.swap_remove(k);
            } else {
                k += 1;
            }
        }
    }

    /// Lowers the exponents by those of a word.
    fn lower(&mut self, by: &RuleSide)
        requires short { length by.now ≤ length self.old }
        requires divides { Divides by.now self.old }
        ensures long { length self.new ≡ length self.old }
        ensures exponents { (p : ℕ) → exponent self.new p ≡ exponent self.old p - exponent by.now p }
    {
        'letters: for factor in by.factors() {
            self.exponents[factor.letter] -= factor.exponent;
        }
    }

    /// Divides it by a word.
    pub(crate) fn divide(&mut self, by: &RuleSide)
        requires short { length by.now ≤ length self.old }
        requires divides { Divides by.now self.old }
        ensures long { length self.new ≡ length self.old }
        ensures exponents { (p : ℕ) → exponent self.new p ≡ exponent self.old p - exponent by.now p }
    {
        self.lower(by);
        self.drop_letters();
    }

    /// The word, without the zeros at its end.
    pub(crate) fn to_monomial(&self, alloc: Global) -> Result<Monomial, Memory>
        ensures { IfOk result (λ m. m ≡ trim self.now) }
    {
        let word = Monomial::from_places(alloc, self.exponents.as_slice())?;
        Ok(word)
    }
}
