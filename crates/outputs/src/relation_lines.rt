//! The text of the relations.
ghost use Rattle.std.specs.Prelude.{◌≡◌, ◌≤◌, IfOk};
ghost use Rattle.poly_core.specs.Presentation.{presented, IsValid};
ghost use Rattle.outputs.specs.Completing.{IsNew};
ghost use Rattle.outputs.specs.RelationsText.{IsRelationsText};

use crate::completing::complete;
use completion::{BOUND_MAX, Completion, Pick, push_relations};
use monomial_order::{Memory, Order};
use poly_core::Presentation;
use std::alloc::Global;
use word_field::Field;

/// Runs a new completion to a bound, and lists its relations.
fn run_relations<F: Field, O: Order>(
    alloc: Global,
    c: &mut Completion<F, O>,
    bound: u32,
) -> Result<Vec<u8>, Memory>
    requires new { IsNew F.ops O.order c.old }
    requires small { bound ≤ BOUND_MAX }
    ensures { let P = presented F.ops O.order c.old.presentation in
        IfOk result (λ text. IsRelationsText F P bound text.items) }
{
    complete(alloc, c, bound, Pick::First)?;
    let p = c.presentation();
    let mut text = Vec::new(alloc);
    push_relations(alloc, &mut text, &p.field, p.order.places(), c.relations())?;
    Ok(text)
}

/// The relations of the reduced basis to a bound, one on each line behind their number.
pub fn relations<F: Field, O: Order>(
    alloc: Global,
    p: Presentation<F, O>,
    bound: u32,
) -> Result<Vec<u8>, Memory>
    requires valid { IsValid F.ops O.order p }
    requires some { 1 ≤ bound }
    requires small { bound ≤ BOUND_MAX }
    ensures { IfOk result (λ text. IsRelationsText F (presented F.ops O.order p) bound text.items) }
{
    let mut c = Completion::new(alloc, p)?;
    let text = run_relations(alloc, &mut c, bound);
    drop(c);
    text
}
