//! Products, quotients and common multiples of monomials.
ghost use Rattle.std.specs.Prelude.{ℕ, ◌≤◌, IfOk};
ghost use Rattle.monomial_order.specs.Monomial.{exponent};

use monomial_order::Monomial;
use std::alloc::Global;
use std::test::Fail;
use worked_rows::monomials::{is_word, monomial};
use worked_rows::rows::{ensure, part};

/// A monomial whose exponents are at most 7.
pub(crate) fn small(alloc: Global, text: &str) -> Result<Monomial, Fail>
    ensures { IfOk result (λ m. (i : ℕ) → exponent m i ≤ 7) }
{
    let m = monomial(alloc, text)?;
    ensure(m.as_slice().iter().all(|e| *e <= 7), "a great exponent")?;
    Ok(m)
}

/// What the operation makes of two monomials, and None if the second does not divide the first.
fn made(
    alloc: Global,
    a: &Monomial,
    b: &Monomial,
    operation: &str,
) -> Result<Option<Monomial>, Fail>
    requires first { (i : ℕ) → exponent a.now i ≤ 7 }
    requires second { (i : ℕ) → exponent b.now i ≤ 7 }
{
    match operation {
        "times" => Ok(Some(a.times(alloc, b)?)),
        "by" => Ok(a.quotient(alloc, b)?),
        "lcm" => Ok(Some(a.lcm(alloc, b)?.copy(alloc)?)),
        _ => Err(Fail::new("no operation")),
    }
}

/// The same for the monomials and the operation of a row.
fn answer(alloc: Global, row: &str) -> Result<Option<Monomial>, Fail> {
    let a = small(alloc, part(row, 0))?;
    let b = small(alloc, part(row, 2))?;
    made(alloc, &a, &b, part(row, 1))
}

#[test]
fn products_and_quotients(rt: HostRuntime) -> Result<(), Fail> {
    let alloc = rt.alloc();
    for row in [
        "x^2*y | times | x*y^3 | x^3*y^4",
        "x^2*y*z^0 | times | 1 | x^2*y",
        "x33^0 | times | x | x",
        "x^2*y | by | x | x*y",
        "x*y | by | x^2 | -",
        "x^2*y | by | x^2*y | 1",
        "x^2*y | lcm | x*y^3 | x^2*y^3",
        "1 | lcm | y | y",
        "x33^3 | times | x33^3 | x33^6",
        "x33^6 | by | x33^3 | x33^3",
        "x33^3 | lcm | x | x*x33^3",
    ] {
        let found = answer(alloc, row)?;
        ensure(is_word(alloc, 0, found.as_ref(), part(row, 3))?, row)?;
    }
    Ok(())
}
