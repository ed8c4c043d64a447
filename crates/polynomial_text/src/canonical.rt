//! Reading canonical lines.
ghost use Rattle.std.specs.Prelude.{IfOk};
ghost use Rattle.polynomial_text.specs.Canonical.{AreDifferent, IsCanonicalReading};

use crate::laws::has_short_words;
use crate::line_fault::LineFault;
use crate::poly_line::read_poly;
use monomial_order::{Memory, Order};
use poly_core::{Names, Poly};
use std::alloc::Global;
use word_field::Field;

/// The polynomial whose canonical text the line is, if it is one. The line comes without its line feed.
pub fn read_canonical<F: Field, O: Order>(
    alloc: Global,
    f: &F,
    o: &O,
    names: &Names,
    line: &[u8],
) -> Result<Option<Poly<F>>, Memory>
    requires { AreDifferent (O.order o.now).places names.now }
    ensures { IfOk result (IsCanonicalReading (F.ops f.now) (O.order o.now) names.now line.now) }
{
    has_short_words(f);
    let found = match read_poly(alloc, f, o, names, line) {
        Ok(found) => found,
        Err(LineFault::Memory) => return Err(Memory),
        Err(LineFault::Kind(_)) => return Ok(None),
    };
    let text = Poly::write(alloc, f, &found, names)?;
    if text.as_slice() == line {
        Ok(Some(found))
    } else {
        Ok(None)
    }
}
