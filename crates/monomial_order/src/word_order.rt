//! The order of words.
ghost use Rattle.std.specs.Prelude.{◌≡◌, ◌≤◌, ◌<◌, ◌^◌, ℕ, true, [], ◌∷◌, ◌++◌, IfOk, OnOk, OnErr, length, sum, take, drop};
ghost use Rattle.std.specs.Ordering.{nat_cmp, on, then_cmp};
ghost use Rattle.monomial_order.specs.Limits.{degree_max};
ghost use Rattle.monomial_order.specs.Monomial.{IsMonomial, weighted_degree};
ghost use Rattle.monomial_order.specs.Orders.{word_order, lex};
ghost use Rattle.monomial_order.specs.Ranges.{all_between};
ghost use Rattle.monomial_order.specs.laws.Orders.{word_laws, word_small};

use crate::sums::{exponent_sum, split_places, weighted_sum};
use crate::{Memory, Monomial, Order};
use std::alloc::Global;
use std::cmp::Ordering;

/// The order of words in x_1, .., x_n and s_1, .., s_r: places 0 to n - 1 are x_1 to x_n, and the
/// places from n on are s_1 to s_r. Each letter has a degree from 1 to 30000.
///
/// It compares the degree, then the sum of the exponents of x, then lex over s_1, .., s_r, and
/// then lex over x_1, .., x_n.
#[derive(Drop)]
pub struct WordOrder {
    pub x_degrees: Vec<u32>,
    pub s_degrees: Vec<u32>,
    ghost x_in_range: { all_between 1 degree_max x_degrees.items ≡ true },
    ghost s_in_range: { all_between 1 degree_max s_degrees.items ≡ true },
}

impl WordOrder {
    /// The order of words in x_1, .., x_n alone, with these degrees.
    pub fn new(alloc: Global, x_degrees: &[u32]) -> Result<WordOrder, Memory>
        requires { all_between 1 degree_max x_degrees.now ≡ true }
        ensures x { IfOk result (λ o. o.x_degrees.items ≡ x_degrees.now) }
        ensures s { IfOk result (λ o. o.s_degrees.items ≡ []) }
    {
        Ok(WordOrder {
            x_degrees: x_degrees.to_vec(alloc)?,
            s_degrees: Vec::new(alloc),
        })
    }

    /// Adds the next s, at the next place.
    pub fn push_place(&mut self, degree: u32) -> Result<(), Memory>
        requires positive { 1 ≤ degree }
        requires small { degree ≤ degree_max }
        ensures s { OnOk result (self.new.s_degrees.items ≡ self.old.s_degrees.items ++ degree ∷ []) }
        ensures x { self.new.x_degrees.items ≡ self.old.x_degrees.items }
        ensures err { OnErr result (self.new.s_degrees.items ≡ self.old.s_degrees.items) }
    {
        self.s_degrees.push(degree)?;
        Ok(())
    }

    pub fn copy(&self, alloc: Global) -> Result<WordOrder, Memory>
        ensures x { IfOk result (λ o. o.x_degrees.items ≡ self.now.x_degrees.items) }
        ensures s { IfOk result (λ o. o.s_degrees.items ≡ self.now.s_degrees.items) }
    {
        Ok(WordOrder {
            x_degrees: self.x_degrees.to_vec(alloc)?,
            s_degrees: self.s_degrees.to_vec(alloc)?,
        })
    }

    /// The order of two words of the same degree.
    fn compare_within_degree(&self, a: &[u16], b: &[u16]) -> Ordering
        requires left { weighted_degree self.now.x_degrees.items a.now < 2 ^ 32 }
        requires right { weighted_degree self.now.x_degrees.items b.now < 2 ^ 32 }
        ensures { let n = length self.now.x_degrees.items in
            result ≡ then_cmp (on (λ w. sum (take n w)) nat_cmp) (then_cmp (on (drop n) lex) lex) a.now b.now }
    {
        let x_count = self.x_degrees.as_slice().len();
        let (a_x, a_s) = split_places(a, x_count);
        let (b_x, b_s) = split_places(b, x_count);
        let by_x = exponent_sum(a_x).cmp(&exponent_sum(b_x));
        if by_x != Ordering::Equal {
            return by_x;
        }
        let by_s = a_s.cmp(b_s);
        if by_s != Ordering::Equal {
            return by_s;
        }
        a.cmp(b)
    }
}

impl Order for WordOrder {
    ghost order = { λ o. word_order o.x_degrees.items o.s_degrees.items };

    fn compare(&self, a: &Monomial, b: &Monomial) -> Ordering {
        let by_degree = self.degree(a).cmp(&self.degree(b));
        if by_degree != Ordering::Equal {
            return by_degree;
        }
        self.compare_within_degree(a.as_slice(), b.as_slice())
    }

    fn degree(&self, m: &Monomial) -> u32 {
        let exponents = m.as_slice();
        let x_degrees = self.x_degrees.as_slice();
        let (_, s) = split_places(exponents, x_degrees.len());
        weighted_sum(x_degrees, exponents) + weighted_sum(self.s_degrees.as_slice(), s)
    }

    fn places(&self) -> usize {
        self.x_degrees.len() + self.s_degrees.len()
    }

    ghost laws = { λ o. word_laws o.x_degrees.items o.s_degrees.items o.x_in_range o.s_in_range };

    ghost small = { λ o. word_small o.x_degrees.items o.s_degrees.items o.x_in_range o.s_in_range };
}
