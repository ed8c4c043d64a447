//! Critical pairs: two leads of a basis, at the degree of their least common multiple.
ghost use Rattle.std.specs.Prelude.{◌≡◌, ℕ, ◌+◌, ◌≤◌, ◌<◌, [], true, length, filter, nat_lt, IfOk, OnOk, IfSome, IsNone, Contains, slice_index_or};
ghost use Rattle.monomial_order.specs.Limits.{degree_max};
ghost use Rattle.monomial_order.specs.Monomial.{IsMonomial, AreCoprime, Exponents};
ghost use Rattle.quotient_gb.specs.CriticalPairs.{HasPairs, pair_at};

use monomial_order::{Memory, Monomial, Order};
use std::alloc::Global;

/// The indices of two members of a basis, and the degree of the least common multiple of their leads.
#[derive(Clone, Copy)]
pub(crate) struct CriticalPair {
    pub(crate) first: usize,
    pub(crate) second: usize,
    pub(crate) degree: u32,
}

/// Whether no place has a nonzero exponent in both.
fn are_coprime(m: &Monomial, n: &Monomial) -> bool
    ensures { result ≡ true → AreCoprime m.now n.now }
{
    'places: for i in 0..m.places() {
        if m.exponent(i) > 0 && n.exponent(i) > 0 {
            return false;
        }
    }
    true
}

/// The critical pair of two leads that are not coprime.
fn critical_pair<O: Order>(
    alloc: Global,
    o: &O,
    leads: &[Monomial],
    first: usize,
    second: usize,
) -> Result<Option<CriticalPair>, Memory>
    requires first { first < length leads.now }
    requires second { second < length leads.now }
    requires leads { (n : Exponents) → Contains leads.now n → IsMonomial (O.order o.now).places n }
    requires small { (n : Exponents) → Contains leads.now n → (O.order o.now).degree n ≤ degree_max }
    ensures coprime { IfOk result (λ r. IsNone r →
        AreCoprime (slice_index_or leads.now first []) (slice_index_or leads.now second [])) }
    ensures pair { IfOk result (λ r. IfSome r (λ w. w ≡ pair_at (O.order o.now) leads.now first second)) }
{
    let m = &leads[first];
    let n = &leads[second];
    if are_coprime(m, n) {
        return Ok(None);
    }
    let degree = o.degree(&m.lcm(alloc, n)?);
    Ok(Some(CriticalPair {
        first,
        second,
        degree,
    }))
}

/// Lists the critical pairs of the lead at an index with those before it.
fn push_pairs<O: Order>(
    alloc: Global,
    o: &O,
    leads: &[Monomial],
    second: usize,
    pairs: &mut Vec<CriticalPair>,
) -> Result<(), Memory>
    requires second { second < length leads.now }
    requires leads { (n : Exponents) → Contains leads.now n → IsMonomial (O.order o.now).places n }
    requires small { (n : Exponents) → Contains leads.now n → (O.order o.now).degree n ≤ degree_max }
    ensures { OnOk result ((start : ℕ) → HasPairs (O.order o.now) leads.now start second pairs.old.items →
        HasPairs (O.order o.now) leads.now start (second + 1) pairs.new.items) }
{
    'firsts: for first in 0..second {
        if let Some(w) = critical_pair(alloc, o, leads, first, second)? {
            pairs.push(w)?;
        }
    }
    Ok(())
}

/// The critical pairs of the leads from `start` on with those before them.
pub(crate) fn critical_pairs<O: Order>(
    alloc: Global,
    o: &O,
    leads: &[Monomial],
    start: usize,
) -> Result<Vec<CriticalPair>, Memory>
    requires leads { (n : Exponents) → Contains leads.now n → IsMonomial (O.order o.now).places n }
    requires small { (n : Exponents) → Contains leads.now n → (O.order o.now).degree n ≤ degree_max }
    ensures { IfOk result (λ v. HasPairs (O.order o.now) leads.now start (length leads.now) v.items) }
{
    let mut pairs = Vec::new(alloc);
    'seconds: for second in start..leads.len() {
        push_pairs(alloc, o, leads, second, &mut pairs)?;
    }
    Ok(pairs)
}

/// Retains the critical pairs above a degree.
pub(crate) fn retain_above(pairs: &mut Vec<CriticalPair>, degree: u32)
    ensures { pairs.new.items ≡ filter (λ w. nat_lt degree w.degree) pairs.old.items }
{
    pairs.retain(|w| w.degree > degree);
}
