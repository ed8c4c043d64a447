//! Sums of weight times exponent, and comparisons of exponents.
ghost use Rattle.std.specs.Prelude.{◌≡◌, ◌<◌, ◌^◌, length, sum, take, drop};
ghost use Rattle.monomial_order.specs.Monomial.{weighted_degree};
ghost use Rattle.monomial_order.specs.Orders.{reverse_lex};

use std::cmp::Ordering;

pub(crate) fn weighted_sum(weights: &[u32], exponents: &[u16]) -> u32
    requires { weighted_degree weights.now exponents.now < 2 ^ 32 }
    ensures { result ≡ weighted_degree weights.now exponents.now }
{
    let places = weights.len().min(exponents.len());
    let mut sum = 0;
    for i in 0..places {
        sum += weights[i] * exponents[i] as u32;
    }
    sum
}

pub(crate) fn exponent_sum(exponents: &[u16]) -> u32
    requires { sum exponents.now < 2 ^ 32 }
    ensures { result ≡ sum exponents.now }
{
    let mut sum = 0;
    for exponent in exponents {
        sum += *exponent as u32;
    }
    sum
}

/// The exponents of the first places, and those of the places after them.
pub(crate) fn split_places(exponents: &[u16], first: usize) -> (&[u16], &[u16])
    ensures first { result.0.now ≡ take first exponents.now }
    ensures rest { result.1.now ≡ drop first exponents.now }
{
    exponents.split_at(first.min(exponents.len()))
}

pub(crate) fn compare_reverse_lex(a: &[u16], b: &[u16]) -> Ordering
    ensures { result ≡ reverse_lex a.now b.now }
{
    if a.len() != b.len() {
        return b.len().cmp(&a.len());
    }
    for i in (0..a.len()).rev() {
        if a[i] != b[i] {
            return b[i].cmp(&a[i]);
        }
    }
    Ordering::Equal
}
