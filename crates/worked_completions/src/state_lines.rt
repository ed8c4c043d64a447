//! Lines of states, read with the letters of a completion.
ghost use Rattle.std.specs.Prelude.{◌≤◌, IfOk};
ghost use Rattle.state_text.specs.Limits.{bound_max};
ghost use Rattle.worked_completions.specs.Completions.{IsAtRest};

use crate::completions::RingCompletion;
use completion::BOUND_MAX;
use state_text::{Version, read_element, read_relation};
use std::alloc::Global;
use std::test::Fail;
use worked_rows::rows::ensure;

/// The closed degree, which is in the range of states.
fn degree(c: &RingCompletion) -> Result<u32, Fail>
    ensures { IfOk result (λ d. d ≤ bound_max) }
{
    let d = c.closed_degree();
    ensure(d <= BOUND_MAX, "a great degree")?;
    Ok(d)
}

/// How many terms the polynomial and the witness of the line of an element have.
pub(crate) fn element_line(alloc: Global, c: &RingCompletion, line: &str) -> Result<String, Fail>
    requires { IsAtRest c.now }
{
    let d = degree(c)?;
    let letters = c.lower().by_order();
    match read_element(
        alloc,
        c.presentation(),
        Version::Two,
        d,
        letters,
        line.as_bytes(),
    )? {
        Some(t) => Ok(format!(in alloc; "{} by {}", t.value.terms().len(), t.by.terms().len())?),
        None => Ok(format!(in alloc; "none")?),
    }
}

/// How many places the word of the line of a relation has, and how many terms the right side.
pub(crate) fn relation_line(alloc: Global, c: &RingCompletion, line: &str) -> Result<String, Fail>
    requires { IsAtRest c.now }
{
    let d = degree(c)?;
    let order = c.lower().words().order();
    match read_relation(alloc, c.presentation(), order, d, line.as_bytes())? {
        Some(r) => Ok(format!(in alloc;
            "{} to {}",
            r.word.as_slice().len(),
            r.right.terms().len()
        )?),
        None => Ok(format!(in alloc; "none")?),
    }
}
