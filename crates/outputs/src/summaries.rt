//! The summary of a completion.
ghost use Rattle.std.specs.Prelude.{◌≡◌, ◌≤◌, ◌++◌, codes, false, string_bytes, IfOk};
ghost use Rattle.std.specs.Fmt.{decimal};
ghost use Rattle.poly_core.specs.Presentation.{presented, IsValid};
ghost use Rattle.completion.specs.Completion.{IsCompletion};
ghost use Rattle.completion.specs.Report.{mark_text};
ghost use Rattle.outputs.specs.Completing.{IsNew};
ghost use Rattle.outputs.specs.Summary.{trial_text, IsSummary};

use crate::completing::complete;
use completion::{BOUND_MAX, Completion, Pick};
use monomial_order::{Memory, Order};
use poly_core::Presentation;
use std::alloc::{AllocError, Global};
use word_field::Field;

fn mark_of(complete: bool) -> &'static str
    ensures { result.now ≡ mark_text complete }
{
    if complete { "complete" } else { "open" }
}

fn summary_text(
    alloc: Global,
    number: u32,
    bound: u32,
    count: usize,
    mark: &str,
) -> Result<String, AllocError>
    ensures { IfOk result (λ s. string_bytes s ≡ trial_text number bound count mark.now) }
{
    format!(in alloc; "trial {number}\nbound {bound}\nbasis {count}\nmark {mark}\nend\n")
}

/// The summary of a completion at a bound.
fn summary_of<F: Field, O: Order>(
    alloc: Global,
    c: &mut Completion<F, O>,
    number: u32,
    bound: u32,
) -> Result<String, Memory>
    requires completion { IsCompletion F.ops O.order c.old }
    requires not_begun { c.old.begun ≡ false }
    requires degree { c.old.degree ≡ bound }
    requires some { 1 ≤ bound }
    ensures { let P = presented F.ops O.order c.old.presentation in
        IfOk result (λ s. IsSummary P number bound (string_bytes s)) }
{
    completion::laws::later_is_open::<F>();
    let mark = mark_of(c.is_complete(alloc)?);
    Ok(summary_text(alloc, number, bound, c.basis().len(), mark)?)
}

/// Runs a new completion to a bound, and sums up.
fn run_summary<F: Field, O: Order>(
    alloc: Global,
    c: &mut Completion<F, O>,
    number: u32,
    bound: u32,
) -> Result<String, Memory>
    requires new { IsNew F.ops O.order c.old }
    requires some { 1 ≤ bound }
    requires small { bound ≤ BOUND_MAX }
    ensures { let P = presented F.ops O.order c.old.presentation in
        IfOk result (λ s. IsSummary P number bound (string_bytes s)) }
{
    complete(alloc, c, bound, Pick::First)?;
    summary_of(alloc, c, number, bound)
}

/// The summary of a completion to a bound, with the number of a trial.
pub fn summary<F: Field, O: Order>(
    alloc: Global,
    p: Presentation<F, O>,
    number: u32,
    bound: u32,
) -> Result<String, Memory>
    requires valid { IsValid F.ops O.order p }
    requires some { 1 ≤ bound }
    requires small { bound ≤ BOUND_MAX }
    ensures { IfOk result (λ s. IsSummary (presented F.ops O.order p) number bound (string_bytes s)) }
{
    let mut c = Completion::new(alloc, p)?;
    let text = run_summary(alloc, &mut c, number, bound);
    drop(c);
    text
}
