//! Polynomials in lines.
ghost use Rattle.std.specs.Prelude.{IfOk, IfErr};
ghost use Rattle.polynomial_text.specs.Canonical.{AreDifferent, IsLineFaultOf};
ghost use Rattle.polynomial_text.specs.Degrees.{IsLow};
ghost use Rattle.polynomial_text.specs.PolyLine.{IsPolyOf, terms_of};

use crate::line_fault::{LineFault, LineKind};
use crate::line_parts::{first_text, signed_part};
use crate::line_reader::LineReader;
use crate::term_line::term_at;
use crate::term_sum::{push_term, total};
use monomial_order::Order;
use poly_core::{Names, Poly};
use std::alloc::Global;
use word_field::Field;

/// The polynomial of a line, or the first fault of the line.
pub fn read_poly<F: Field, O: Order>(
    alloc: Global,
    f: &F,
    o: &O,
    names: &Names,
    line: &[u8],
) -> Result<Poly<F>, LineFault<LineKind>>
    requires { AreDifferent (O.order o.now).places names.now }
    ensures read { IfOk result (IsPolyOf (F.ops f.now) (O.order o.now) names.now line.now) }
    ensures low { IfOk result (IsLow (O.order o.now)) }
    ensures fault { IfErr result (IsLineFaultOf (terms_of (F.ops f.now) (O.order o.now) names.now line.now)) }
{
    let reader = LineReader {
        alloc,
        field: f,
        order: o,
        names,
    };
    let mut stack = Vec::new(alloc);
    let mut rest = Some(first_text(line));
    while let Some(part) = rest {
        let (text, behind) = signed_part(part.text);
        let t = term_at(&reader, part.minus, text)?;
        push_term(alloc, f, o, &mut stack, t)?;
        rest = behind;
    }
    Ok(total(alloc, f, o, stack)?)
}
