//! Polynomials of a presentation as texts.
ghost use Rattle.std.specs.Prelude.{◌≡◌, All, IfOk};
ghost use Rattle.polynomials.specs.Polynomial.{degree_of};
ghost use Rattle.poly_core.specs.Presentation.{weight_order_of};
ghost use Rattle.worked_rows.specs.Rings.{IsIn, IsLowIn, IsRing};

use crate::rows::ensure;
use monomial_order::{Order, WeightOrder};
use poly_core::{Poly, Presentation};
use presentation_text::{TEXT_MAX, read, read_polys};
use std::alloc::Global;
use std::test::Fail;
use word_field::WordField;

/// The field of 101 elements, and x and y of weight 1 in lex.
pub const X_AND_Y: &str =
    "subalgebra 1\nfield 101\nvars x y\nweights 1 1\norder lex\nideal 0\ngenerators 0\nend\n";

/// What a text presents.
pub type Ring = Presentation<WordField, WeightOrder>;

/// The presentation of a text.
pub fn ring(alloc: Global, text: &str) -> Result<Ring, Fail>
    ensures { IfOk result IsRing }
{
    ensure(text.len() as u64 <= TEXT_MAX, "a long text")?;
    Ok(read(alloc, text.as_bytes())?)
}

/// The polynomials of a text, each in a line.
pub fn polynomials(alloc: Global, p: &Ring, text: &str) -> Result<Vec<Poly<WordField>>, Fail>
    requires { IsRing p.now }
    ensures canonical { IfOk result (λ list. All (IsIn p.now) list.items) }
    ensures low { IfOk result (λ list. All (IsLowIn p.now) list.items) }
{
    ensure(text.len() as u64 <= TEXT_MAX, "a long text")?;
    let list = read_polys(alloc, p, text.as_bytes())?;
    Ok(list)
}

/// The polynomial of a text.
pub fn polynomial(alloc: Global, p: &Ring, text: &str) -> Result<Poly<WordField>, Fail>
    requires { IsRing p.now }
    ensures canonical { IfOk result (IsIn p.now) }
    ensures low { IfOk result (IsLowIn p.now) }
{
    let mut list = polynomials(alloc, p, text)?;
    match list.pop() {
        Some(a) => Ok(a),
        None => Err(Fail::new("no polynomial")),
    }
}

/// The degree of a polynomial, and 0 for zero.
pub fn degree(p: &Ring, a: &Poly<WordField>) -> u32
    requires { IsIn p.now a.now }
    ensures { result ≡ degree_of (weight_order_of p.now.order) a.now }
{
    match a.lead() {
        Some(t) => p.order.degree(&t.at),
        None => 0,
    }
}

/// The canonical text of a polynomial.
pub fn text_of(alloc: Global, p: &Ring, a: &Poly<WordField>) -> Result<String, Fail>
    requires valid { IsRing p.now }
    requires canonical { IsIn p.now a.now }
{
    Ok(String::from_utf8(Poly::write(alloc, &p.field, a, &p.names)?)?)
}
