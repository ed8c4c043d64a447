//! Monomials.
ghost use Rattle.std.specs.Prelude.{◌≡◌, ℕ, ◌+◌, ◌^◌, ◌<◌, ◌≤◌, ◌↔◌, length, [], IsTrue, IsOk, IfOk, IfSome, IsSome, IsNone};
ghost use Rattle.monomial_order.specs.Limits.{exponent_max};
ghost use Rattle.monomial_order.specs.Monomial.{IsTrimmed, product, exponent, least_common_multiple, variable, Divides};

use crate::Memory;
use crate::places::{add_places, divides_places, raise_places, subtract_places, used_places};
use smallvec::SmallVec;
use std::alloc::Global;
use std::marker::Model;

/// A monomial: the exponents of its places, with no zero at the end.
#[derive(Drop)]
pub struct Monomial {
    exponents: SmallVec<u16, 32>,
}

impl Model for Monomial {
    ghost use Rattle.std.specs.Prelude.{List, ℕ};
    ghost use Rattle.monomial_order.specs.Monomial.{IsTrimmed};

    ghost Value = { List ℕ };

    ghost view = { λ m. m.exponents.items };

    ghost invariant = { λ m. IsTrimmed m.exponents.items };
}

impl Monomial {
    /// The monomial 1.
    pub fn one(alloc: Global) -> Monomial
        ensures { result ≡ [] }
    {
        Monomial {
            exponents: SmallVec::new(alloc),
        }
    }

    /// The monomial with these exponents.
    pub fn from_places(alloc: Global, e: &[u16]) -> Result<Monomial, Memory>
        ensures trimmed { IfOk result IsTrimmed }
        ensures exponents { IfOk result (λ m. (i : ℕ) → exponent m i ≡ exponent e.now i) }
        ensures short { ((i : ℕ) → 32 ≤ i → exponent e.now i ≡ 0) → IsOk result }
    {
        let exponents = SmallVec::from_slice(alloc, &e[..used_places(e)])?;
        Ok(Monomial { exponents })
    }

    /// The variable at a place.
    pub fn variable(alloc: Global, place: usize) -> Result<Monomial, Memory>
        requires { place + 1 < 2 ^ 64 }
        ensures { IfOk result (λ m. m ≡ variable place) }
    {
        let mut exponents = vec![in alloc; 0u16; place + 1]?;
        exponents[place] = 1;
        Monomial::from_places(alloc, exponents.as_slice())
    }

    pub fn copy(&self, alloc: Global) -> Result<Monomial, Memory>
        ensures same { IfOk result (λ m. m ≡ self.now) }
        ensures short { length self.now ≤ 32 → IsOk result }
    {
        let exponents = SmallVec::from_slice(alloc, self.as_slice())?;
        Ok(Monomial { exponents })
    }

    /// The product.
    pub fn times(&self, alloc: Global, b: &Monomial) -> Result<Monomial, Memory>
        requires fits { (i : ℕ) → exponent self.now i + exponent b.now i ≤ exponent_max }
        ensures product { IfOk result (λ m. m ≡ product self.now b.now) }
        ensures short { length self.now ≤ 32 → length b.now ≤ 32 → IsOk result }
    {
        if self.places() < b.places() {
            b.times_shorter(alloc, self)
        } else {
            self.times_shorter(alloc, b)
        }
    }

    fn times_shorter(&self, alloc: Global, b: &Monomial) -> Result<Monomial, Memory>
        requires shorter { length b.now ≤ length self.now }
        requires fits { (i : ℕ) → exponent self.now i + exponent b.now i ≤ exponent_max }
        ensures product { IfOk result (λ m. m ≡ product self.now b.now) }
        ensures short { length self.now ≤ 32 → IsOk result }
    {
        let mut exponents = SmallVec::from_slice(alloc, self.as_slice())?;
        add_places(exponents.as_mut_slice(), b.as_slice());
        Ok(Monomial { exponents })
    }

    /// The cofactor of b, if b divides this monomial.
    pub fn quotient(&self, alloc: Global, b: &Monomial) -> Result<Option<Monomial>, Memory>
        ensures some { IfOk result (λ q. IfSome q (λ k. product b.now k ≡ self.now)) }
        ensures trimmed { IfOk result (λ q. IfSome q IsTrimmed) }
        ensures divides { IfOk result (λ q. IsSome q → Divides b.now self.now) }
        ensures none { IfOk result (λ q. IsNone q → Divides b.now self.now → ⊥) }
        ensures short { length self.now ≤ 32 → IsOk result }
    {
        if !b.divides(self) {
            return Ok(None);
        }
        let mut exponents = SmallVec::from_slice(alloc, self.as_slice())?;
        subtract_places(exponents.as_mut_slice(), b.as_slice());
        let used = used_places(exponents.as_slice());
        exponents.truncate(used);
        Ok(Some(Monomial { exponents }))
    }

    /// The least common multiple.
    pub fn lcm(&self, alloc: Global, b: &Monomial) -> Result<Monomial, Memory>
        ensures multiple { IfOk result (λ m. m ≡ least_common_multiple self.now b.now) }
        ensures short { length self.now ≤ 32 → length b.now ≤ 32 → IsOk result }
    {
        if self.places() < b.places() {
            b.lcm_shorter(alloc, self)
        } else {
            self.lcm_shorter(alloc, b)
        }
    }

    fn lcm_shorter(&self, alloc: Global, b: &Monomial) -> Result<Monomial, Memory>
        requires { length b.now ≤ length self.now }
        ensures multiple { IfOk result (λ m. m ≡ least_common_multiple self.now b.now) }
        ensures short { length self.now ≤ 32 → IsOk result }
    {
        let mut exponents = SmallVec::from_slice(alloc, self.as_slice())?;
        raise_places(exponents.as_mut_slice(), b.as_slice());
        Ok(Monomial { exponents })
    }

    pub fn divides(&self, b: &Monomial) -> bool
        ensures { IsTrue result ↔ Divides self.now b.now }
    {
        divides_places(self.as_slice(), b.as_slice())
    }

    pub fn exponent(&self, place: usize) -> u16
        ensures { result ≡ exponent self.now place }
    {
        if place < self.exponents.len() {
            self.exponents[place]
        } else {
            0
        }
    }

    /// How many places it takes: the exponents from there on are 0.
    pub fn places(&self) -> usize
        ensures length { result ≡ length self.now }
        ensures trimmed { IsTrimmed self.now }
    {
        self.exponents.len()
    }

    /// The exponents.
    pub fn as_slice(&self) -> &[u16]
        ensures same { result.now ≡ self.now }
        ensures trimmed { IsTrimmed self.now }
    {
        self.exponents.as_slice()
    }
}

impl PartialEq for Monomial {
    ghost use Rattle.std.specs.Prelude.{nat_eq};
    ghost use lib.Pointwise.{pointwise};
    ghost use Rattle.std.specs.Cmp.{partial_equiv_from_equiv};
    ghost use Rattle.std.specs.Cmp.Lexicographic.{nat_list_eq_equiv};

    ghost eq = { pointwise nat_eq };

    ghost laws = { partial_equiv_from_equiv nat_list_eq_equiv };

    fn eq(&self, other: &Monomial) -> bool {
        self.as_slice() == other.as_slice()
    }
}

impl Eq for Monomial {
    ghost use Rattle.std.specs.Cmp.Lexicographic.{nat_list_eq_equiv};

    ghost laws = { nat_list_eq_equiv };
}
