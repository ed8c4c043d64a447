//! Operations of polynomials in x and y over the field of 101 elements.
ghost use Rattle.std.specs.Prelude.{◌≡◌, ◌≤◌, ◌<◌, length, All, IfOk, IfSome, IsTrue, OnOk};
ghost use Rattle.monomial_order.specs.Limits.{exponent_max};
ghost use Rattle.poly_core.specs.Presentation.{weight_order_of};
ghost use Rattle.polynomials.specs.Value.{value_degree, HasSmallValue};
ghost use Rattle.worked_rows.specs.Rings.{IsIn, IsLowIn, IsRing};

use monomial_order::{Order, Term};
use poly_core::{NameTable, Poly};
use std::alloc::Global;
use std::test::Fail;
use word_field::{Field, WordField};
use worked_rows::monomials::monomial;
use worked_rows::rings::{Ring, X_AND_Y, degree, polynomial, polynomials, ring, text_of};
use worked_rows::rows::{ensure, judge, number, part};

/// The greatest degree that is computed with.
const EXPONENT_MAX: u32 = 65_535;

/// The product of two polynomials.
fn product(
    alloc: Global,
    p: &Ring,
    a: &Poly<WordField>,
    b: &Poly<WordField>,
) -> Result<Poly<WordField>, Fail>
    requires a { IsIn p.now a.now }
    requires b { IsIn p.now b.now }
    requires low { IsLowIn p.now a.now }
    requires low_b { IsLowIn p.now b.now }
    ensures { IfOk result (IsIn p.now) }
{
    Ok(Poly::mul(alloc, &p.field, &p.order, a, b)?)
}

/// The product with the first term of another polynomial.
fn multiple(
    alloc: Global,
    p: &Ring,
    a: &Poly<WordField>,
    b: &Poly<WordField>,
) -> Result<Poly<WordField>, Fail>
    requires a { IsIn p.now a.now }
    requires b { IsIn p.now b.now }
    requires low { IsLowIn p.now a.now }
    requires low_b { IsLowIn p.now b.now }
    ensures { IfOk result (IsIn p.now) }
{
    let Some(t) = b.lead() else {
        return Err(Fail::new("no term"));
    };
    Ok(Poly::times_term(alloc, &p.field, &p.order, a, t.by, &t.at)?)
}

/// What the operation makes of two polynomials.
fn of_two(
    alloc: Global,
    p: &Ring,
    a: Poly<WordField>,
    operation: &str,
    b: Poly<WordField>,
) -> Result<Poly<WordField>, Fail>
    requires a { IsIn p.now a }
    requires b { IsIn p.now b }
    requires low { IsLowIn p.now a }
    requires low_b { IsLowIn p.now b }
    ensures { IfOk result (IsIn p.now) }
{
    match operation {
        "plus" => Ok(Poly::add(alloc, &p.field, &p.order, &a, &b)?),
        "plus, taking" => Ok(Poly::add_taking(alloc, &p.field, &p.order, a, b)?),
        "minus" => Ok(Poly::sub(alloc, &p.field, &p.order, &a, &b)?),
        "times" => product(alloc, p, &a, &b),
        "times the term" => multiple(alloc, p, &a, &b),
        _ => Err(Fail::new("no operation")),
    }
}

/// What the operation makes of a polynomial and a number.
fn of_one(
    alloc: Global,
    p: &Ring,
    a: &Poly<WordField>,
    operation: &str,
    n: u32,
) -> Result<Poly<WordField>, Fail>
    requires a { IsIn p.now a.now }
    ensures { IfOk result (IsIn p.now) }
{
    match operation {
        "scaled by" => Ok(Poly::scale(alloc, &p.field, a, p.field.from_word(n as u64))?),
        "component" => Ok(Poly::component(alloc, &p.order, a, n)?),
        "monic" => Ok(Poly::monic(alloc, &p.field, a)?),
        "copied" => Ok(a.copy(alloc)?),
        _ => Err(Fail::new("no operation")),
    }
}

/// The degree of the product of powers of polynomials, if it can be counted.
fn value_degree(p: &Ring, at: &[Poly<WordField>], exponents: &[u16]) -> Option<u32>
    requires { All (IsIn p.now) at.now }
    ensures { IfSome result (λ d. d ≡ value_degree (weight_order_of p.now.order) at.now exponents.now) }
{
    let (first, at) = match at.split_first() {
        Some(parts) => parts,
        None => return Some(0),
    };
    let (exponent, exponents) = match exponents.split_first() {
        Some(parts) => parts,
        None => return Some(0),
    };
    let rest = value_degree(p, at, exponents)?;
    degree(p, first)
        .checked_mul(*exponent as u32)?
        .checked_add(rest)
}

/// Whether the values of the terms have degrees of at most `EXPONENT_MAX`.
fn have_small_values(p: &Ring, terms: &[Term<u32>], at: &[Poly<WordField>]) -> bool
    requires { All (IsIn p.now) at.now }
    ensures { IsTrue result → HasSmallValue (weight_order_of p.now.order) at.now terms.now }
{
    match terms.split_first() {
        Some((t, rest)) => has_small_value(p, t, at) && have_small_values(p, rest, at),
        None => true,
    }
}

/// Whether the value of the term has a degree of at most `EXPONENT_MAX`.
fn has_small_value(p: &Ring, t: &Term<u32>, at: &[Poly<WordField>]) -> bool
    requires { All (IsIn p.now) at.now }
    ensures { IsTrue result → value_degree (weight_order_of p.now.order) at.now t.now.at ≤ exponent_max }
{
    match value_degree(p, at, t.at.as_slice()) {
        Some(d) => d <= EXPONENT_MAX,
        None => false,
    }
}

/// The value of a polynomial at a list with a polynomial for each place.
fn value(
    alloc: Global,
    p: &Ring,
    h: &Poly<WordField>,
    at: &[Poly<WordField>],
) -> Result<Poly<WordField>, Fail>
    requires h { IsIn p.now h.now }
    requires at { All (IsIn p.now) at.now }
    ensures { IfOk result (IsIn p.now) }
{
    ensure(at.len() == p.order.places(), "another number of lines")?;
    ensure(have_small_values(p, h.terms(), at), "a great degree")?;
    Ok(Poly::evaluate(alloc, &p.field, &p.order, h, at)?)
}

/// The first coefficient of a polynomial, its degree, and whether it is homogeneous.
fn lead_and_degree(alloc: Global, p: &Ring, a: &Poly<WordField>) -> Result<String, Fail>
    requires { IsIn p.now a.now }
{
    let by = a.lead().map_or(0, |t| t.by);
    let degree = Poly::degree(&p.order, a);
    let is_homogeneous = Poly::is_homogeneous(&p.order, a);
    Ok(format!(in alloc; "{by}, {degree:?}, {is_homogeneous}")?)
}

/// What the operation of a row makes of its polynomial and of what the third part has.
fn made_of(
    alloc: Global,
    p: &Ring,
    a: Poly<WordField>,
    operation: &str,
    other: &str,
) -> Result<Poly<WordField>, Fail>
    requires valid { IsRing p.now }
    requires a { IsIn p.now a }
    requires low { IsLowIn p.now a }
    ensures { IfOk result (IsIn p.now) }
{
    match operation {
        "scaled by" | "component" | "monic" | "copied" => of_one(
            alloc,
            p,
            &a,
            operation,
            number(other)?,
        ),
        "at" => value(alloc, p, &a, polynomials(alloc, p, other)?.as_slice()),
        _ => of_two(alloc, p, a, operation, polynomial(alloc, p, other)?),
    }
}

/// The canonical text of what a row asks for, or what it asks of the polynomial.
fn answer(alloc: Global, p: &Ring, row: &str) -> Result<String, Fail>
    requires { IsRing p.now }
{
    let a = polynomial(alloc, p, part(row, 0))?;
    if part(row, 1) == "has" {
        return lead_and_degree(alloc, p, &a);
    }
    let found = made_of(alloc, p, a, part(row, 1), part(row, 2))?;
    text_of(alloc, p, &found)
}

/// Compares the answer to a row.
fn see_row(alloc: Global, p: &Ring, row: &str) -> Result<(), Fail>
    requires { IsRing p.now }
{
    judge(row, answer(alloc, p, row)?.as_str())
}

/// Compares the answers to all rows.
fn see_operations(alloc: Global, p: &Ring) -> Result<(), Fail>
    requires { IsRing p.now }
{
    for row in [
        "y | plus | x | x + y",
        "x + y | plus | 100*x | y",
        "x + y | plus, taking | 100*x | y",
        "x + y | minus | x + y | 0",
        "x + y | times the term | 3*x | 3*x^2 + 3*x*y",
        "x + y | times | x + y | x^2 + 2*x*y + y^2",
        "x + y | times | 0 | 0",
        "x + y | scaled by | 2 | 2*x + 2*y",
        "x + y | scaled by | 101 | 0",
        "2*x + 4*y | monic | 1 | x + 2*y",
        "0 | monic | 1 | 0",
        "2*x*y + 1 | copied | 1 | 2*x*y + 1",
        "2*x*y + 1 | component | 1 | 0",
        "x^2 + y | component | 1 | y",
        "x^2 - 2*y | at | x + y\nx*y | x^2 + y^2",
        "3 | at | x\ny | 3",
        "0 | at | x\ny | 0",
        // the first coefficient, the degree, and whether it is homogeneous
        "2*x*y + 1 | has | 2, Some(2), false",
        "x^2 + y | has | 1, Some(2), false",
        "y | has | 1, Some(1), true",
        "0 | has | 0, None, true",
    ] {
        see_row(alloc, p, row)?;
    }
    Ok(())
}

#[test]
fn operations_of_polynomials(rt: HostRuntime) -> Result<(), Fail> {
    let p = ring(rt.alloc(), X_AND_Y)?;
    see_operations(rt.alloc(), &p)
}

/// How many terms there are, and the coefficient of the first, of polynomials that are made without a reader.
fn made(alloc: Global, row: &str) -> Result<String, Fail> {
    let f = WordField::new(101).ok_or("a listed size")?;
    let at = monomial(alloc, part(row, 1))?;
    let by = f.from_word(part(row, 2).parse::<u64>()?);
    let a: Poly<WordField> = match part(row, 0) {
        "zero" => Poly::zero(alloc),
        "term" => Poly::term(alloc, &f, at, by)?,
        _ => Poly::from_falling(vec![in alloc; Term { at, by }]?),
    };
    let count = a.terms().len();
    let first = a.lead().map_or(0, |t| t.by);
    Ok(format!(in alloc; "{count} {first}")?)
}

#[test]
fn terms_of_no_reader(rt: HostRuntime) -> Result<(), Fail> {
    for row in [
        "term | x | 0 | 0 0",
        "term | y | 103 | 1 2",
        "zero | y | 1 | 0 0",
        "list of a term | y | 1 | 1 1",
    ] {
        judge(row, made(rt.alloc(), row)?.as_str())?;
    }
    Ok(())
}

/// The indices of x and w, and the number of names.
fn places_text(alloc: Global, table: &NameTable) -> Result<String, Fail> {
    let (x, w, count) = (table.place("x"), table.place("w"), table.len());
    Ok(format!(in alloc; "{x:?} {w:?} {count}")?)
}

/// Whether there are no names, what two calls with the name x say, and what the table has then.
fn names_text(alloc: Global, table: &mut NameTable) -> Result<String, Fail>
    ensures { OnOk result (0 < length table.new) }
{
    let is_empty = table.is_empty();
    let first = table.push("x")?;
    let again = table.push("x")?;
    let places = places_text(alloc, table)?;
    Ok(format!(in alloc; "{is_empty} {first} {again} {places}")?)
}

/// Compares what a table says of the name x.
fn see_names(alloc: Global, table: &mut NameTable) -> Result<(), Fail> {
    let found = names_text(alloc, table)?;
    judge("x, x | true true false Some(0) None 1", found.as_str())?;
    ensure(table.name(0) == "x", "the name of index 0")
}

#[test]
fn each_name_has_one_index(rt: HostRuntime) -> Result<(), Fail> {
    let mut table = NameTable::new(rt.alloc());
    see_names(rt.alloc(), &mut table)
}
