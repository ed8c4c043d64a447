//! The report.
ghost use Rattle.std.specs.Prelude.{◌≤◌, IfOk};
ghost use Rattle.poly_core.specs.Presentation.{presented, IsValid};
ghost use Rattle.completion.specs.Report.{IsReport};
ghost use Rattle.outputs.specs.Completing.{IsNew};

use crate::completing::complete;
use completion::{BOUND_MAX, Completion, Pick};
use monomial_order::{Memory, Order};
use poly_core::Presentation;
use std::alloc::Global;
use word_field::Field;

/// Runs a new completion to a bound, and reports.
fn run_report<F: Field, O: Order>(
    alloc: Global,
    c: &mut Completion<F, O>,
    bound: u32,
    pick: Pick,
) -> Result<Vec<u8>, Memory>
    requires new { IsNew F.ops O.order c.old }
    requires some { 1 ≤ bound }
    requires small { bound ≤ BOUND_MAX }
    ensures { let P = presented F.ops O.order c.old.presentation in
        IfOk result (λ text. IsReport P c.old.presentation.names bound text.items) }
{
    complete(alloc, c, bound, pick)?;
    c.report(alloc)
}

/// The report on a presentation to a bound.
pub fn report<F: Field, O: Order>(
    alloc: Global,
    p: Presentation<F, O>,
    bound: u32,
    pick: Pick,
) -> Result<Vec<u8>, Memory>
    requires valid { IsValid F.ops O.order p }
    requires some { 1 ≤ bound }
    requires small { bound ≤ BOUND_MAX }
    ensures { IfOk result (λ text. IsReport (presented F.ops O.order p) p.names bound text.items) }
{
    let mut c = Completion::new(alloc, p)?;
    let text = run_report(alloc, &mut c, bound, pick);
    drop(c);
    text
}
