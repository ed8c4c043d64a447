//! Power sums, and the order of the words in them.
ghost use Rattle.std.specs.Prelude.{◌≡◌, ◌≤◌, ◌<◌, [], IfOk};
ghost use Rattle.std.specs.List.{range_with_len};
ghost use Rattle.power_sums.specs.PowerSums.{power, power_sum, sums_to};

use monomial_order::{Memory, Monomial, Term, WordOrder};
use poly_core::Poly;
use std::alloc::Global;
use word_field::Field;

/// The variable at a place to an exponent.
fn power(alloc: Global, place: usize, exponent: u16) -> Result<Monomial, Memory>
    requires within { place < 32 }
    requires positive { 1 ≤ exponent }
    ensures { IfOk result (λ m. m ≡ power place exponent) }
{
    let mut exponents = vec![in alloc; 0u16; place + 1]?;
    exponents[place] = exponent;
    Monomial::from_places(alloc, exponents.as_slice())
}

/// The sum of the variables, each to this exponent.
fn power_sum<F: Field>(
    alloc: Global,
    field: &F,
    count: usize,
    exponent: u16,
) -> Result<Poly<F>, Memory>
    requires few { count ≤ 32 }
    requires positive { 1 ≤ exponent }
    ensures { IfOk result (λ p. p ≡ power_sum (F.ops field.now) count exponent) }
{
    let mut terms = Vec::new(alloc);
    for place in 0..count {
        terms.push(Term {
            at: power(alloc, place, exponent)?,
            by: field.one(),
        })?;
    }
    Ok(Poly::from_falling(terms))
}

/// The power sums with the exponents from 1 to the number of variables.
pub(crate) fn generators<F: Field>(
    alloc: Global,
    field: &F,
    count: usize,
) -> Result<Vec<Poly<F>>, Memory>
    requires { count ≤ 32 }
    ensures { IfOk result (λ v. v.items ≡ sums_to (F.ops field.now) count) }
{
    let mut generators = Vec::new(alloc);
    for exponent in 1..count + 1 {
        generators.push(power_sum(alloc, field, count, exponent as u16)?)?;
    }
    Ok(generators)
}

/// The order of the words in the generators, which have the degrees 1, 2, ..
pub(crate) fn gen_order(alloc: Global, count: usize) -> Result<WordOrder, Memory>
    requires { count ≤ 32 }
    ensures x { IfOk result (λ o. o.x_degrees.items ≡ []) }
    ensures s { IfOk result (λ o. o.s_degrees.items ≡ range_with_len 1 count) }
{
    let mut order = WordOrder::new(alloc, &[])?;
    for degree in 1..count + 1 {
        order.push_place(degree as u32)?;
    }
    Ok(order)
}
