//! Reading query files.
ghost use Rattle.std.specs.Prelude.{◌≤◌, All, IfOk, IfErr, length};
ghost use Rattle.poly_core.specs.Presentation.{IsValid, weight_order_of};
ghost use Rattle.polynomial_text.specs.Degrees.{IsLow};
ghost use Rattle.presentation_text.specs.Meaning.{text_max, AreQueries, IsFaultOf};
ghost use Rattle.presentation_text.specs.Reading.{queries};

use crate::lines::{Lines, located};
use crate::poly_line::poly_of_line;
use crate::text_fault::TextFault;
use monomial_order::WeightOrder;
use poly_core::{Poly, Presentation};
use std::alloc::Global;
use word_field::Field;

/// The polynomials of a text, one on each line that is not skipped, or the first fault of the text.
pub fn read_polys<F: Field>(
    alloc: Global,
    p: &Presentation<F, WeightOrder>,
    bytes: &[u8],
) -> Result<Vec<Poly<F>>, TextFault>
    requires valid { IsValid F.ops weight_order_of p.now }
    requires short { length bytes.now ≤ text_max }
    ensures accepted { IfOk result (λ polys.
        AreQueries (F.ops p.now.field) (weight_order_of p.now.order) p.now.names bytes.now polys.items) }
    ensures low { IfOk result (λ polys. All (IsLow (weight_order_of p.now.order)) polys.items) }
    ensures refused { IfErr result
        (IsFaultOf (queries (F.ops p.now.field) (weight_order_of p.now.order) p.now.names bytes.now)) }
{
    let mut lines = Lines::new(bytes);
    let mut polys = Vec::new(alloc);
    while let Ok(line) = lines.next_line() {
        let read = poly_of_line(alloc, &p.field, &p.order, &p.names, line.bytes);
        let poly = located(line.number, read)?;
        polys.push(poly)?;
    }
    Ok(polys)
}
