//! The calls that look at a completion. Each answers with a text.
ghost use Rattle.std.specs.Prelude.{◌≤◌, IfOk};
ghost use Rattle.monomial_order.specs.Limits.{degree_max};
ghost use Rattle.poly_core.specs.Presentation.{weight_order_of};
ghost use Rattle.polynomials.specs.Polynomial.{degree_of};
ghost use Rattle.worked_rows.specs.Rings.{IsIn, IsRing};
ghost use Rattle.worked_completions.specs.Completions.{IsAtRest};

use crate::completions::RingCompletion;
use crate::texts::{elements_text, joined, on_one_line, relations_text, reply_text, subduced_text};
use membership::answer;
use poly_core::Poly;
use state_file::write_state;
use std::alloc::Global;
use std::test::Fail;
use witness::Tracked;
use word_field::WordField;
use worked_rows::rings::{Ring, degree, polynomial};
use worked_rows::rows::ensure;

/// The greatest degree of a query.
const DEGREE_MAX: u32 = 30_000;

/// The closed degree and the elements.
pub(crate) fn basis(alloc: Global, c: &RingCompletion) -> Result<String, Fail>
    requires { IsAtRest c.now }
{
    let elements = elements_text(alloc, c.presentation(), c.basis())?;
    Ok(format!(in alloc; "{}{elements}", c.closed_degree())?)
}

/// The number of relations, and each of them.
pub(crate) fn relations(alloc: Global, c: &RingCompletion) -> Result<String, Fail>
    requires { IsAtRest c.now }
{
    let relations = relations_text(alloc, c.presentation(), c.relations())?;
    Ok(format!(in alloc; "{}{relations}", c.relations().len())?)
}

/// Fails at the degree 0.
fn has_degree(c: &RingCompletion) -> Result<(), Fail>
    ensures { IfOk result (λ _. 1 ≤ c.now.degree) }
{
    ensure(c.closed_degree() >= 1, "no degree is closed")?;
    Ok(())
}

/// The lines of the report.
pub(crate) fn report(alloc: Global, c: &mut RingCompletion) -> Result<String, Fail>
    requires { IsAtRest c.old }
    ensures { IfOk result (λ _. IsAtRest c.new) }
{
    has_degree(c)?;
    let text = c.report(alloc)?;
    let line = on_one_line(alloc, text)?;
    Ok(line)
}

/// The lines of the state.
pub(crate) fn state(alloc: Global, c: &RingCompletion) -> Result<String, Fail>
    requires { IsAtRest c.now }
{
    has_degree(c)?;
    let text = write_state(alloc, c)?;
    let line = joined(alloc, text)?;
    Ok(line)
}

/// Whether nothing new comes later.
pub(crate) fn is_complete(alloc: Global, c: &mut RingCompletion) -> Result<String, Fail>
    requires { IsAtRest c.old }
    ensures { IfOk result (λ _. IsAtRest c.new) }
{
    has_degree(c)?;
    let complete = c.is_complete(alloc)?;
    Ok(format!(in alloc; "{complete}")?)
}

/// The polynomial of a text, if its degree is at most the bound.
fn query(alloc: Global, p: &Ring, text: &str, bound: u32) -> Result<Poly<WordField>, Fail>
    requires { IsRing p.now }
    ensures canonical { IfOk result (IsIn p.now) }
    ensures within { IfOk result (λ a. degree_of (weight_order_of p.now.order) a ≤ bound) }
    ensures small { IfOk result (λ a. degree_of (weight_order_of p.now.order) a ≤ degree_max) }
{
    let a = polynomial(alloc, p, text)?;
    let d = degree(p, &a);
    ensure(d <= bound && d <= DEGREE_MAX, "a great degree")?;
    Ok(a)
}

/// The answer to a query.
pub(crate) fn answered(alloc: Global, c: &mut RingCompletion, text: &str) -> Result<String, Fail>
    requires { IsAtRest c.old }
    ensures { IfOk result (λ _. IsAtRest c.new) }
{
    has_degree(c)?;
    let a = query(alloc, c.presentation(), text, DEGREE_MAX)?;
    let reply = answer(alloc, c, &a)?;
    let line = reply_text(alloc, c.presentation(), &reply)?;
    Ok(line)
}

/// The sum of words and the rest.
pub(crate) fn subduced(alloc: Global, c: &mut RingCompletion, text: &str) -> Result<String, Fail>
    requires { IsAtRest c.old }
    ensures { IfOk result (λ _. IsAtRest c.new) }
{
    let value = query(alloc, c.presentation(), text, c.closed_degree())?;
    let by = Poly::zero(alloc);
    let s = c.subduce(alloc, &Tracked { value, by })?;
    let line = subduced_text(alloc, c.presentation(), &s)?;
    Ok(line)
}
