//! Finite fields: the trait that all crates above compute with, and the fields of a prime number of elements.
#![tactic(auto)]

ghost use Rattle.std.specs.Prelude.{◌≡◌, ◌↔◌, true, IsTrue, IsSome, IsNone, IfSome};
ghost use Rattle.word_field.specs.Field.{FieldOps, IsField, IsValue};
ghost use Rattle.word_field.specs.Residues.{residues, is_listed};
ghost use Rattle.word_field.specs.laws.Residues.{residues_field, residues_eq};

pub mod laws;

/// A finite field. Its elements are those values of `Elem` that `IsValue` picks, and each call
/// is given such values and answers with one.
///
/// A text shows an element as its number, which `to_word` gives and `from_word` reads.
pub trait Field: Copy {
    type Elem: Copy + Eq;

    /// What the calls compute.
    ghost ops: { Self → FieldOps Self.Elem };

    fn zero(&self) -> Self::Elem
        ensures { result ≡ (ops self.now).zero };

    fn one(&self) -> Self::Elem
        ensures { result ≡ (ops self.now).one };

    fn add(&self, a: Self::Elem, b: Self::Elem) -> Self::Elem
        requires left { IsValue (ops self.now) a }
        requires right { IsValue (ops self.now) b }
        ensures { result ≡ (ops self.now).plus a b };

    fn sub(&self, a: Self::Elem, b: Self::Elem) -> Self::Elem
        requires left { IsValue (ops self.now) a }
        requires right { IsValue (ops self.now) b }
        ensures { result ≡ (ops self.now).plus a ((ops self.now).negate b) };

    fn neg(&self, a: Self::Elem) -> Self::Elem
        requires { IsValue (ops self.now) a }
        ensures { result ≡ (ops self.now).negate a };

    fn mul(&self, a: Self::Elem, b: Self::Elem) -> Self::Elem
        requires left { IsValue (ops self.now) a }
        requires right { IsValue (ops self.now) b }
        ensures { result ≡ (ops self.now).times a b };

    /// The element whose product with `a` is one. Only zero has none.
    fn inv(&self, a: Self::Elem) -> Option<Self::Elem>
        requires { IsValue (ops self.now) a }
        ensures none { IsNone result ↔ (a ≡ (ops self.now).zero) }
        ensures value { IfSome result (IsValue (ops self.now)) }
        ensures some { IfSome result (λ b. (ops self.now).times a b ≡ (ops self.now).one) };

    /// The element of a number. Each number has one, also those from `size` on.
    fn from_word(&self, w: u64) -> Self::Elem
        ensures { result ≡ (ops self.now).of_word w };

    /// The number of an element, below `size`.
    fn to_word(&self, a: Self::Elem) -> u32
        requires { IsValue (ops self.now) a }
        ensures { result ≡ (ops self.now).word a };

    /// How many elements there are.
    fn size(&self) -> u32
        ensures { result ≡ (ops self.now).size };

    /// The operations obey the laws of a field.
    ghost laws: { (f : Self) → IsField (ops f) };

    /// Elements compare equal exactly if they are the same.
    ghost eq_is: { (a b : Self.Elem) → (Self.Elem.eq a b ≡ true) ↔ (a ≡ b) };
}

/// The field of the numbers below a listed prime, with sums and products taken modulo it.
#[derive(Clone, Copy)]
pub struct WordField {
    pub modulus: u32,
    pub ghost listed: { is_listed modulus ≡ true },
}

impl WordField {
    /// The field of size `p`, if there is one.
    pub fn new(p: u32) -> Option<WordField>
        ensures listed { IsSome result ↔ (is_listed p ≡ true) }
        ensures size { IfSome result (λ f. f.modulus ≡ p) }
    {
        match p {
            2 | 3 | 5 | 7 | 101 | 32003 | 65521 => Some(WordField { modulus: p }),
            _ => None,
        }
    }
}

impl Field for WordField {
    type Elem = u32;

    ghost ops = { λ f. residues f.modulus };

    fn zero(&self) -> u32 {
        0
    }

    fn one(&self) -> u32 {
        1
    }

    fn add(&self, a: u32, b: u32) -> u32 {
        let room = self.modulus - b;
        if a < room { a + b } else { a - room }
    }

    fn sub(&self, a: u32, b: u32) -> u32 {
        if a < b { a + (self.modulus - b) } else { a - b }
    }

    fn neg(&self, a: u32) -> u32 {
        if a == 0 { 0 } else { self.modulus - a }
    }

    fn mul(&self, a: u32, b: u32) -> u32 {
        (a as u64 * b as u64 % self.modulus as u64) as u32
    }

    // The product of `a` and `inverse` stays `rest` modulo p, while `rest` decreases to 1. At these
    // sizes it takes at most 21 steps.
    fn inv(&self, a: u32) -> Option<u32> {
        let p = self.modulus as u64;
        let mut rest = a as u64;
        if rest == 0 {
            return None;
        }
        let mut inverse = 1;
        while rest != 1 {
            inverse = inverse * (p - p / rest) % p;
            rest = p % rest;
        }
        Some(inverse as u32)
    }

    fn from_word(&self, w: u64) -> u32 {
        (w % self.modulus as u64) as u32
    }

    fn to_word(&self, a: u32) -> u32 {
        a
    }

    fn size(&self) -> u32 {
        self.modulus
    }

    ghost laws = { λ f. residues_field f.modulus f.listed };

    ghost eq_is = { residues_eq };
}
