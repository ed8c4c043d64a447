//! Rings modulo ideals, with their quotients.
ghost use Rattle.std.specs.Prelude.{◌≡◌, ◌≤◌, ◌⊎◌, true, IfOk, OnOk};
ghost use Rattle.monomial_order.specs.Limits.{degree_max};
ghost use Rattle.poly_core.specs.Presentation.{weight_order_of};
ghost use Rattle.polynomials.specs.Polynomial.{degree_of};
ghost use Rattle.worked_rows.specs.Rings.{IsIn, IsRing};
ghost use Rattle.worked_ideals.specs.Cases.{IsCase};

use monomial_order::WeightOrder;
use poly_core::Poly;
use quotient_gb::Quotient;
use std::alloc::Global;
use std::test::Fail;
use word_field::WordField;
use worked_rows::monomials::monomial;
use worked_rows::rings::{Ring, degree, polynomial, ring, text_of};
use worked_rows::rows::{ensure, number, part};
use worked_words::zeros::{CLOSING_MAX, DEGREE_MAX};

/// A ring modulo an ideal, and its quotient to a degree.
#[derive(Drop)]
pub(crate) struct Case {
    pub(crate) ring: Ring,
    pub(crate) degree: u32,
    pub(crate) quotient: Quotient<WordField, WeightOrder>,
}

/// The lines of the ideal with these generators.
fn ideal(alloc: Global, generators: &str) -> Result<String, Fail> {
    let mut count: u32 = 0;
    let mut lines = String::new(alloc);
    for generator in generators.split(", ") {
        count = count.saturating_add(1);
        lines.push_str("\n")?;
        lines.push_str(generator)?;
    }
    Ok(format!(in alloc; "ideal {count}{lines}\n")?)
}

/// The ring modulo the ideal of a row: its size, names, weights, order, and the generators of the ideal.
fn ring_of(alloc: Global, row: &str) -> Result<Ring, Fail>
    ensures { IfOk result IsRing }
{
    let size = part(row, 0);
    let names = part(row, 1);
    let weights = part(row, 2);
    let order = part(row, 3);
    let ideal = ideal(alloc, part(row, 4))?;
    let text = format!(in alloc;
        "subalgebra 1\nfield {size}\nvars {names}\nweights {weights}\norder {order}\n{ideal}generators 0\nend\n"
    )?;
    ring(alloc, text.as_str())
}

/// The ring of a row, with its quotient to the degree 0.
fn begin(alloc: Global, row: &str) -> Result<Case, Fail>
    ensures { IfOk result (λ c. IsCase c.ring c.degree c.quotient) }
{
    let ring = ring_of(alloc, row)?;
    let quotient = Quotient::new(alloc, &ring)?;
    Ok(Case {
        ring,
        degree: 0,
        quotient,
    })
}

/// Goes on to a degree.
pub(crate) fn extend(alloc: Global, case: &mut Case, degree: u32) -> Result<(), Fail>
    requires case { IsCase case.old.ring case.old.degree case.old.quotient }
    requires small { degree ≤ degree_max }
    ensures { OnOk result (IsCase case.new.ring case.new.degree case.new.quotient) }
{
    case.quotient.extend_to(alloc, &case.ring, degree)?;
    case.degree = case.degree.max(degree);
    Ok(())
}

/// The case of a row, to half of its degree and then to the degree.
pub(crate) fn case_of(alloc: Global, row: &str) -> Result<Case, Fail>
    ensures { IfOk result (λ c. IsCase c.ring c.degree c.quotient) }
{
    let degree = number(part(row, 5))?;
    ensure(degree <= DEGREE_MAX, row)?;
    let mut case = begin(alloc, row)?;
    extend(alloc, &mut case, degree / 2)?;
    extend(alloc, &mut case, degree)?;
    Ok(case)
}

/// Whether the quotient is closed.
pub(crate) fn close(alloc: Global, case: &mut Case) -> Result<bool, Fail>
    requires { IsCase case.old.ring case.old.degree case.old.quotient }
    ensures case { OnOk result (IsCase case.new.ring case.new.degree case.new.quotient) }
    ensures ring { case.new.ring ≡ case.old.ring }
    ensures closed { IfOk result (λ r. case.new.quotient.closed ≡ r) }
{
    ensure(case.degree <= CLOSING_MAX, "a great degree")?;
    Ok(case.quotient.closed(alloc, &case.ring)?)
}

/// Finds the quotient closed if the degree is above its own.
fn reach(alloc: Global, case: &mut Case, degree: u32) -> Result<(), Fail>
    requires { IsCase case.old.ring case.old.degree case.old.quotient }
    ensures case { OnOk result (IsCase case.new.ring case.new.degree case.new.quotient) }
    ensures ring { case.new.ring ≡ case.old.ring }
    ensures reached { OnOk result ((degree ≤ case.new.quotient.degree) ⊎ (case.new.quotient.closed ≡ true)) }
{
    if degree <= case.degree {
        return Ok(());
    }
    let closed = close(alloc, case)?;
    ensure(closed, "not closed")
}

/// A polynomial that is not zero.
fn nonzero(alloc: Global, case: &Case, text: &str) -> Result<Poly<WordField>, Fail>
    requires { IsRing case.now.ring }
    ensures { IfOk result (IsIn case.now.ring) }
{
    let a = polynomial(alloc, &case.ring, text)?;
    ensure(a.lead().is_some(), "zero")?;
    Ok(a)
}

/// The degree of a polynomial.
fn degree_in(case: &Case, a: &Poly<WordField>) -> u32
    requires { IsIn case.now.ring a.now }
    ensures { result ≡ degree_of (weight_order_of case.now.ring.order) a.now }
{
    degree(&case.ring, a)
}

/// The text of the normal form of a polynomial whose degree is reached.
fn reached_text(alloc: Global, case: &Case, a: &Poly<WordField>) -> Result<String, Fail>
    requires case { IsCase case.now.ring case.now.degree case.now.quotient }
    requires canonical { IsIn case.now.ring a.now }
    requires reached { (degree_of (weight_order_of case.now.ring.order) a.now ≤ case.now.quotient.degree)
        ⊎ (case.now.quotient.closed ≡ true) }
{
    let found = case.quotient.normal_form(alloc, &case.ring, a)?;
    text_of(alloc, &case.ring, &found)
}

/// The text of the normal form of a polynomial that is not zero.
pub(crate) fn normal_text(alloc: Global, case: &mut Case, text: &str) -> Result<String, Fail>
    requires { IsCase case.old.ring case.old.degree case.old.quotient }
{
    let a = nonzero(alloc, case, text)?;
    let degree = degree_in(case, &a);
    reach(alloc, case, degree)?;
    reached_text(alloc, case, &a)
}

/// Whether a monomial is standard.
pub(crate) fn is_standard(alloc: Global, case: &Case, text: &str) -> Result<bool, Fail> {
    Ok(case.quotient.is_standard(&monomial(alloc, text)?))
}
