//! Orders of monomials.
ghost use Rattle.std.specs.Prelude.{◌≡◌, ◌≤◌};
ghost use Rattle.monomial_order.specs.Limits.{exponent_max};
ghost use Rattle.monomial_order.specs.Monomial.{IsMonomial};
ghost use Rattle.monomial_order.specs.MonomialOrder.{MonomialOrder, IsMonomialOrder, HasSmallDegrees};

use crate::Monomial;
use std::cmp::Ordering;

/// An order of monomials.
pub trait Order: Drop {
    /// The order, its degrees and its number of places.
    ghost order: { Self → MonomialOrder };

    fn compare(&self, a: &Monomial, b: &Monomial) -> Ordering
        requires left { IsMonomial (order self.now).places a.now }
        requires right { IsMonomial (order self.now).places b.now }
        requires left_degree { (order self.now).degree a.now ≤ exponent_max }
        requires right_degree { (order self.now).degree b.now ≤ exponent_max }
        ensures { result ≡ (order self.now).compare a.now b.now };

    fn degree(&self, m: &Monomial) -> u32
        requires monomial { IsMonomial (order self.now).places m.now }
        requires small { (order self.now).degree m.now ≤ exponent_max }
        ensures { result ≡ (order self.now).degree m.now };

    fn places(&self) -> usize
        ensures { result ≡ (order self.now).places };

    /// The laws of an order of monomials.
    ghost laws: { (o : Self) → IsMonomialOrder (order o) };

    /// Each place by itself has a degree of at most 30000.
    ghost small: { (o : Self) → HasSmallDegrees (order o) };
}
