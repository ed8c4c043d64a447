//! The polynomials of a presentation.
ghost use Rattle.std.specs.Prelude.{◌≡◌, ◌≤◌, length, Ok, IfOk, IfErr};
ghost use Rattle.polynomials.specs.Polynomial.{Polynomial, IsCanonical, Same};
ghost use Rattle.poly_core.specs.Names.{AreNames};
ghost use Rattle.poly_core.specs.Presentation.{IsCanonicalGenerator};
ghost use Rattle.polynomial_text.specs.Canonical.{IsLineFaultOf};
ghost use Rattle.polynomial_text.specs.Degrees.{IsLow};
ghost use Rattle.presentation_text.specs.Giving.{Gives, order_in, head_of};
ghost use Rattle.presentation_text.specs.Heading.{count_line, count_max};
ghost use Rattle.presentation_text.specs.Judging.{judged};
ghost use Rattle.presentation_text.specs.Meaning.{IsFaultOf};
ghost use Rattle.presentation_text.specs.PolySums.{IsSumIn, AreSumsIn};
ghost use Rattle.presentation_text.specs.Reading.{next, several, poly_line, counted};

use crate::fixed_lines::count_line;
use crate::head::Head;
use crate::lines::{Lines, located};
use crate::poly_line::poly_of_line;
use crate::text_fault::TextFault;
use crate::text_kind::TextKind;
use poly_core::Poly;
use polynomial_text::LineFault;
use std::alloc::Global;
use word_field::Field;

/// Whether a polynomial is zero or homogeneous of a positive degree. `constant` is the fault of another constant.
fn judge<F: Field>(
    f: &F,
    h: &Head,
    constant: TextKind,
    p: &Poly<F>,
) -> Result<(), LineFault<TextKind>>
    requires canonical { IsCanonical (F.ops f.now) (order_in h.now) p.now }
    requires low { IsLow (order_in h.now) p.now }
    ensures accepted { IfOk result (λ _. (sum : Polynomial F.Elem) → Same (F.ops f.now) p.now sum →
        judged (F.ops f.now) (order_in h.now) constant sum ≡ Ok sum) }
    ensures generator { IfOk result (λ _. IsCanonicalGenerator (F.ops f.now) (order_in h.now) p.now) }
    ensures fault { IfErr result (λ e. (sum : Polynomial F.Elem) → Same (F.ops f.now) p.now sum →
        IsLineFaultOf (judged (F.ops f.now) (order_in h.now) constant sum) e) }
{
    if !Poly::is_homogeneous(&h.order, p) {
        return Err(LineFault::Kind(TextKind::NotHomogeneous));
    }
    let Some(degree) = Poly::degree(&h.order, p) else {
        return Ok(());
    };
    if degree == 0 {
        return Err(LineFault::Kind(constant));
    }
    Ok(())
}

/// The polynomial of a line.
fn poly_line<F: Field>(
    alloc: Global,
    f: &F,
    h: &Head,
    constant: TextKind,
    line: &[u8],
) -> Result<Poly<F>, LineFault<TextKind>>
    requires { AreNames (length h.now.order.weights.items) h.now.names }
    ensures read { IfOk result (IsSumIn (F.ops f.now) (order_in h.now)
        (λ sum. poly_line (F.ops f.now) (head_of h.now) constant line.now ≡ Ok sum)) }
    ensures fault { IfErr result (IsLineFaultOf (poly_line (F.ops f.now) (head_of h.now) constant line.now)) }
{
    let p = poly_of_line(alloc, f, &h.order, &h.names, line)?;
    judge(f, h, constant, &p)?;
    Ok(p)
}

/// The polynomial of the next line.
fn next_poly<F: Field>(
    alloc: Global,
    f: &F,
    h: &Head,
    constant: TextKind,
    lines: &mut Lines,
) -> Result<Poly<F>, TextFault>
    requires { AreNames (length h.now.order.weights.items) h.now.names }
    ensures missing { lines.new.missing ≡ lines.old.missing }
    ensures read { IfOk result (IsSumIn (F.ops f.now) (order_in h.now)
        (λ sum. next lines.old.missing (poly_line (F.ops f.now) (head_of h.now) constant) lines.old.left
        ≡ Ok (sum, lines.new.left))) }
    ensures fault { IfErr result
        (IsFaultOf (next lines.old.missing (poly_line (F.ops f.now) (head_of h.now) constant) lines.old.left)) }
{
    let line = lines.needed_line()?;
    located(line.number, poly_line(alloc, f, h, constant, line.bytes))
}

/// So many polynomials.
fn several<F: Field>(
    alloc: Global,
    f: &F,
    h: &Head,
    constant: TextKind,
    count: u32,
    lines: &mut Lines,
) -> Result<Vec<Poly<F>>, TextFault>
    requires named { AreNames (length h.now.order.weights.items) h.now.names }
    requires few { count ≤ count_max }
    ensures missing { lines.new.missing ≡ lines.old.missing }
    ensures read { IfOk result (λ v. AreSumsIn (F.ops f.now) (order_in h.now)
        (λ sums. several lines.old.missing (poly_line (F.ops f.now) (head_of h.now) constant) count lines.old.left
        ≡ Ok (sums, lines.new.left)) v.items) }
    ensures fault { IfErr result
        (IsFaultOf (several lines.old.missing
        (poly_line (F.ops f.now) (head_of h.now) constant) count lines.old.left)) }
{
    let mut polys = Vec::new(alloc);
    for _ in 0..count {
        let p = next_poly(alloc, f, h, constant, lines)?;
        polys.push(p)?;
    }
    Ok(polys)
}

#[tactic(auto, unfolding(crate::specs::Reading::next, crate::specs::Reading::at_line))]
fn count(key: &[u8], lines: &mut Lines) -> Result<u32, TextFault>
    ensures missing { lines.new.missing ≡ lines.old.missing }
    ensures read { Gives (λ n. (n, lines.new.left)) result
        (next lines.old.missing (count_line key.now) lines.old.left) }
{
    let line = lines.needed_line()?;
    located(line.number, count_line(key, line.bytes))
}

/// As many polynomials as the number behind the key says.
pub(crate) fn counted<F: Field>(
    alloc: Global,
    f: &F,
    h: &Head,
    key: &[u8],
    constant: TextKind,
    lines: &mut Lines,
) -> Result<Vec<Poly<F>>, TextFault>
    requires { AreNames (length h.now.order.weights.items) h.now.names }
    ensures missing { lines.new.missing ≡ lines.old.missing }
    ensures read { IfOk result (λ v. AreSumsIn (F.ops f.now) (order_in h.now)
        (λ sums. counted (F.ops f.now) lines.old.missing (head_of h.now) key.now constant lines.old.left
        ≡ Ok (sums, lines.new.left)) v.items) }
    ensures fault { IfErr result
        (IsFaultOf (counted (F.ops f.now) lines.old.missing (head_of h.now) key.now constant lines.old.left)) }
{
    let n = count(key, lines)?;
    several(alloc, f, h, constant, n, lines)
}
