//! Completes to a bound.
ghost use Rattle.std.specs.Prelude.{◌≤◌, OnOk};
ghost use Rattle.outputs.specs.Completing.{IsCompletedTo, IsNew};

use completion::{BOUND_MAX, Completion, Pick};
use monomial_order::{Memory, Order};
use std::alloc::Global;
use word_field::Field;

/// Runs a new completion to a bound.
pub(crate) fn complete<F: Field, O: Order>(
    alloc: Global,
    c: &mut Completion<F, O>,
    bound: u32,
    pick: Pick,
) -> Result<(), Memory>
    requires new { IsNew F.ops O.order c.old }
    requires small { bound ≤ BOUND_MAX }
    ensures { OnOk result (IsCompletedTo F.ops O.order c.old.presentation bound c.new) }
{
    c.run_to(alloc, bound, pick)?;
    Ok(())
}
