//! The leads of the ideal to a degree, and the degrees of the variables.
ghost use Rattle.std.specs.Prelude.{◌≡◌, ◌≤◌, map, filter, nat_le, IfOk, Contains};
ghost use Rattle.monomial_order.specs.Limits.{degree_max, exponent_max};
ghost use Rattle.monomial_order.specs.Monomial.{Exponents, IsMonomial};
ghost use Rattle.monomial_order.specs.Ranges.{all_between};
ghost use Rattle.word_laws.specs.Words.{variables};

use monomial_order::{Memory, Monomial, Order};
use std::alloc::Global;

/// Copies of the monomials of degree at most c.
pub(crate) fn monomials_to<O: Order>(
    alloc: Global,
    o: &O,
    list: &[Monomial],
    c: u32,
) -> Result<Vec<Monomial>, Memory>
    requires monomials { (m : Exponents) → Contains list.now m → IsMonomial (O.order o.now).places m }
    requires small { (m : Exponents) → Contains list.now m → (O.order o.now).degree m ≤ exponent_max }
    ensures { let o = O.order o.now in IfOk result (λ v. v.items ≡ filter (λ m. nat_le (o.degree m) c) list.now) }
{
    let mut copies = Vec::new(alloc);
    'list: for m in list {
        if o.degree(m) <= c {
            copies.push(m.copy(alloc)?)?;
        }
    }
    Ok(copies)
}

/// The degrees of the variables.
pub(crate) fn variable_degrees<O: Order>(alloc: Global, o: &O) -> Result<Vec<u32>, Memory>
    ensures { let o = O.order o.now in IfOk result (λ v. v.items ≡ map o.degree (variables 0 o.places)) }
{
    let mut degrees = Vec::new(alloc);
    'variables: for i in 0..o.places() {
        let variable = Monomial::variable(alloc, i)?;
        degrees.push(o.degree(&variable))?;
    }
    Ok(degrees)
}
