//! The lines of a presentation up to its order.
ghost use Rattle.std.specs.Prelude.{◌≡◌, true, [], length, IfOk};
ghost use Rattle.monomial_order.specs.Faults.{IsWeighing};
ghost use Rattle.poly_core.specs.Names.{AreNames};
ghost use Rattle.presentation_text.specs.Giving.{Gives, head_of};
ghost use Rattle.presentation_text.specs.Heading.{header_line, field_line, vars_line, weights_line, order_line};
ghost use Rattle.presentation_text.specs.Reading.{next, head};
ghost use Rattle.presentation_text.specs.Sizes.{is_known};

use crate::fixed_lines::{field_line, header_line, order_line, vars_line, weights_line};
use crate::lines::{Lines, located};
use crate::sizes::Sizes;
use crate::text_fault::TextFault;
use monomial_order::{Memory, OrderFault, Row, Tie, WeightOrder};
use poly_core::{NameTable, Names};
use std::alloc::Global;

/// What the first lines say: the size of the field, the names and the order.
#[derive(Drop)]
pub(crate) struct Head {
    pub size: u32,
    pub names: Names,
    pub order: WeightOrder,
}

#[tactic(auto, unfolding(crate::specs::Reading::next, crate::specs::Reading::at_line))]
fn header(lines: &mut Lines) -> Result<(), TextFault>
    ensures missing { lines.new.missing ≡ lines.old.missing }
    ensures read { Gives (λ _. ([], lines.new.left)) result (next lines.old.missing header_line lines.old.left) }
{
    let line = lines.needed_line()?;
    located(line.number, header_line(line.bytes))
}

#[tactic(auto, unfolding(crate::specs::Reading::next, crate::specs::Reading::at_line))]
fn field(known: Sizes, lines: &mut Lines) -> Result<u32, TextFault>
    ensures missing { lines.new.missing ≡ lines.old.missing }
    ensures read { Gives (λ q. (q, lines.new.left)) result
        (next lines.old.missing (field_line (is_known known)) lines.old.left) }
{
    let line = lines.needed_line()?;
    located(line.number, field_line(known, line.bytes))
}

#[tactic(auto, unfolding(crate::specs::Reading::next, crate::specs::Reading::at_line))]
fn vars(alloc: Global, lines: &mut Lines) -> Result<NameTable, TextFault>
    ensures missing { lines.new.missing ≡ lines.old.missing }
    ensures read { Gives (λ t. (t, lines.new.left)) result (next lines.old.missing vars_line lines.old.left) }
{
    let line = lines.needed_line()?;
    located(line.number, vars_line(alloc, line.bytes))
}

#[tactic(auto, unfolding(crate::specs::Reading::next, crate::specs::Reading::at_line))]
fn weights(alloc: Global, count: usize, lines: &mut Lines) -> Result<Vec<u32>, TextFault>
    ensures missing { lines.new.missing ≡ lines.old.missing }
    ensures read { Gives (λ v. (v.items, lines.new.left)) result
        (next lines.old.missing (weights_line count) lines.old.left) }
{
    let line = lines.needed_line()?;
    located(line.number, weights_line(alloc, count, line.bytes))
}

#[tactic(auto, unfolding(crate::specs::Reading::next, crate::specs::Reading::at_line))]
fn rows(alloc: Global, count: usize, lines: &mut Lines) -> Result<(Vec<Row>, Tie), TextFault>
    ensures missing { lines.new.missing ≡ lines.old.missing }
    ensures read { Gives (λ x. ((x.0.items, x.1), lines.new.left)) result
        (next lines.old.missing (order_line count) lines.old.left) }
{
    let line = lines.needed_line()?;
    located(line.number, order_line(alloc, count, line.bytes))
}

/// The order with these weights and rows.
fn weight_order(
    alloc: Global,
    weights: &[u32],
    rows: &[Row],
    tie: Tie,
) -> Result<WeightOrder, Memory>
    requires { IsWeighing weights.now rows.now }
    ensures weights { IfOk result (λ o. o.weights.items ≡ weights.now) }
    ensures rows { IfOk result (λ o. o.rows.items ≡ rows.now) }
    ensures tie { IfOk result (λ o. o.tie ≡ tie) }
{
    match WeightOrder::new(alloc, weights, rows, tie) {
        Ok(order) => Ok(order),
        Err(fault) => match fault {
            OrderFault::Memory => Err(Memory),
            _ => unreachable!(),
        },
    }
}

/// The lines up to the order.
#[tactic(auto, unfolding(crate::specs::Reading::head))]
pub(crate) fn read_head(alloc: Global, known: Sizes, lines: &mut Lines) -> Result<Head, TextFault>
    ensures missing { lines.new.missing ≡ lines.old.missing }
    ensures read { Gives (λ h. (head_of h, lines.new.left)) result
        (head (is_known known) lines.old.missing lines.old.left) }
    ensures known { IfOk result (λ h. is_known known h.size ≡ true) }
    ensures named { IfOk result (λ h. AreNames (length h.order.weights.items) h.names) }
{
    header(lines)?;
    let size = field(known, lines)?;
    let names = vars(alloc, lines)?;
    let count = names.len();
    let weights = weights(alloc, count, lines)?;
    let (rows, tie) = rows(alloc, count, lines)?;
    let order = weight_order(alloc, &weights, &rows, tie)?;
    Ok(Head {
        size,
        names: Names::Listed(names),
        order,
    })
}
