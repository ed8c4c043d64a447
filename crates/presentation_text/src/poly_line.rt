//! Polynomials in lines, with faults as in texts.
ghost use Rattle.std.specs.Prelude.{IfOk, IfErr};
ghost use Rattle.polynomial_text.specs.Canonical.{AreDifferent, IsLineFaultOf};
ghost use Rattle.polynomial_text.specs.Degrees.{IsLow};
ghost use Rattle.polynomial_text.specs.PolyLine.{IsPolyOf, terms_of};
ghost use Rattle.presentation_text.specs.Kinds.{in_text};

use crate::text_kind::{TextKind, fault_of};
use monomial_order::Order;
use poly_core::{Names, Poly};
use polynomial_text::{LineFault, read_poly};
use std::alloc::Global;
use word_field::Field;

/// The polynomial of a line, or the first fault of the line.
pub(crate) fn poly_of_line<F: Field, O: Order>(
    alloc: Global,
    f: &F,
    o: &O,
    names: &Names,
    line: &[u8],
) -> Result<Poly<F>, LineFault<TextKind>>
    requires { AreDifferent (O.order o.now).places names.now }
    ensures read { IfOk result (IsPolyOf (F.ops f.now) (O.order o.now) names.now line.now) }
    ensures low { IfOk result (IsLow (O.order o.now)) }
    ensures fault { IfErr result
        (IsLineFaultOf (in_text (terms_of (F.ops f.now) (O.order o.now) names.now line.now))) }
{
    match read_poly(alloc, f, o, names, line) {
        Ok(p) => Ok(p),
        Err(fault) => Err(fault_of(fault)),
    }
}
