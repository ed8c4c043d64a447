//! Lines with polynomials in x and y over the field of 101 elements.
ghost use Rattle.std.specs.Prelude.{IfOk, IfSome};
ghost use Rattle.worked_rows.specs.Rings.{IsIn, IsRing};

use poly_core::{Poly, write_monomial};
use polynomial_text::{LineFault, read_canonical, read_poly};
use std::alloc::Global;
use std::test::Fail;
use word_field::WordField;
use worked_rows::rings::{Ring, X_AND_Y, polynomial, ring, text_of};
use worked_rows::rows::{judge, part};

/// The canonical text of the polynomial of a line, or the kind of the line's fault.
fn outcome(alloc: Global, p: &Ring, line: &str) -> Result<String, Fail>
    requires { IsRing p.now }
{
    match read_poly(alloc, &p.field, &p.order, &p.names, line.as_bytes()) {
        Ok(a) => text_of(alloc, p, &a),
        Err(LineFault::Kind(kind)) => Ok(format!(in alloc; "{kind:?}")?),
        Err(LineFault::Memory) => Err(Fail::new("out of memory")),
    }
}

#[test]
fn lines_and_their_faults(rt: HostRuntime) -> Result<(), Fail> {
    let alloc = rt.alloc();
    let p = ring(alloc, X_AND_Y)?;
    for row in [
        "x*y | x*y",
        " + x^2*y - 0  | x^2*y",
        "-x | 100*x",
        "2*x - x + y - 0 | x + y",
        "y + x + y + x\t | 2*x + 2*y",
        "x - x | 0",
        "x^0 | 1",
        "5 | 5",
        "2*x*y + 1 | 2*x*y + 1",
        "x*x | x^2",
        "3 * x ^ 2 * 2 | 6*x^2",
        "000000000000000102 | 1",
        "x^29999*y | x^29999*y",
        "x y | PolySyntax",
        "x + | PolySyntax",
        "x * | PolySyntax",
        "x ^ | PolySyntax",
        "+ - x | PolySyntax",
        "x 1234567890123456789 | PolySyntax",
        "x^30000*y^$ | PolySyntax",
        "x + w | UnknownName",
        "w ^ | UnknownName",
        "w*x^30001 | UnknownName",
        "1234567890123456789*x | NumberTooLong",
        "x^1234567890123456789 | NumberTooLong",
        "x^30000*y^1234567890123456789 | NumberTooLong",
        "x^30000*y | DegreeTooLarge",
        "x^30000*y $ | DegreeTooLarge",
        "0*x^30001 | DegreeTooLarge",
        "x^30001*w | DegreeTooLarge",
        "x^20000*x^20000 x | DegreeTooLarge",
    ] {
        judge(row, outcome(alloc, &p, part(row, 0))?.as_str())?;
    }
    Ok(())
}

/// The canonical text of the first monomial of a polynomial.
fn lead_text(alloc: Global, p: &Ring, a: &Poly<WordField>) -> Result<Vec<u8>, Fail>
    requires valid { IsRing p.now }
    requires canonical { IsIn p.now a.now }
{
    let Some(t) = a.lead() else {
        return Err(Fail::new("no monomial"));
    };
    Ok(write_monomial(alloc, &t.at, &p.names)?)
}

#[test]
fn texts_of_monomials(rt: HostRuntime) -> Result<(), Fail> {
    let alloc = rt.alloc();
    let p = ring(alloc, X_AND_Y)?;
    for row in ["5 | 1", "3*x^2*y + y | x^2*y"] {
        let a = polynomial(alloc, &p, part(row, 0))?;
        judge(row, String::from_utf8(lead_text(alloc, &p, &a)?)?.as_str())?;
    }
    Ok(())
}

/// What is read of a line as canonical text.
fn canonical(alloc: Global, p: &Ring, line: &str) -> Result<Option<Poly<WordField>>, Fail>
    requires { IsRing p.now }
    ensures { IfOk result (λ read. IfSome read (IsIn p.now)) }
{
    Ok(read_canonical(alloc, &p.field, &p.order, &p.names, line.as_bytes())?)
}

/// The canonical text of what is read of a line as canonical text, and `-` if nothing is.
fn again(alloc: Global, p: &Ring, line: &str) -> Result<String, Fail>
    requires { IsRing p.now }
{
    match canonical(alloc, p, line)? {
        Some(a) => text_of(alloc, p, &a),
        None => Ok(format!(in alloc; "-")?),
    }
}

#[test]
fn canonical_lines_alone(rt: HostRuntime) -> Result<(), Fail> {
    let alloc = rt.alloc();
    let p = ring(alloc, X_AND_Y)?;
    for row in [
        "x*y + 100 | x*y + 100",
        "100 + x*y | -",
        "0 | 0",
        "1 | 1",
        "2*x^2*y + y^3 + 3 | 2*x^2*y + y^3 + 3",
        "x^30000 | x^30000",
        "x^30001 | -",
        " | -",
        " x | -",
        "x  | -",
        "x+y | -",
        "x  + y | -",
        "+ x | -",
        "x - y | -",
        "x + 0 | -",
        "x + x | -",
        "00 | -",
        "01*x | -",
        "102*x | -",
        "1*x | -",
        "0*x | -",
        "x^1 | -",
        "x*x | -",
        "y*x | -",
        "x + w | -",
        "x + | -",
    ] {
        judge(row, again(alloc, &p, part(row, 0))?.as_str())?;
    }
    Ok(())
}
