//! Sums of many terms.
ghost use Rattle.std.specs.Prelude.{◌≡◌, ◌++◌, ◌∷◌, ◌≤◌, [], length, IfOk, OnOk, IsNone, IfSome};
ghost use Rattle.polynomials.specs.Polynomial.{IsCanonical, Same};
ghost use Rattle.polynomial_text.specs.LineReading.{AreCanonical, IsSmallTerm, terms_together};

use monomial_order::{Memory, Order, Term};
use poly_core::Poly;
use std::alloc::Global;
use word_field::Field;

/// The last polynomial of a list, if it has at most so many terms.
fn take_short<F: Field>(stack: &mut Vec<Poly<F>>, most: usize) -> Option<Poly<F>>
    ensures none { IsNone result → stack.new.items ≡ stack.old.items }
    ensures some { IfSome result (λ p. stack.old.items ≡ stack.new.items ++ (p ∷ [])) }
{
    match stack.last() {
        Some(p) if p.terms().len() <= most => stack.pop(),
        _ => None,
    }
}

/// Puts a polynomial at the end, summed up with the last ones while these are at most twice as long as the sum. So each
/// is more than twice as long as the next, and each term takes part in few sums.
fn push_poly<F: Field, O: Order>(
    alloc: Global,
    f: &F,
    o: &O,
    stack: &mut Vec<Poly<F>>,
    p: Poly<F>,
) -> Result<(), Memory>
    requires stack { AreCanonical (F.ops f.now) (O.order o.now) stack.old.items }
    requires p { IsCanonical (F.ops f.now) (O.order o.now) p }
    ensures canonical { OnOk result (AreCanonical (F.ops f.now) (O.order o.now) stack.new.items) }
    ensures sum { OnOk result
        (Same (F.ops f.now) (terms_together stack.new.items) (terms_together stack.old.items ++ p)) }
{
    let mut sum = p;
    while let Some(below) = take_short(stack, sum.terms().len().saturating_mul(2)) {
        sum = Poly::add_taking(alloc, f, o, below, sum)?;
    }
    stack.push(sum)?;
    Ok(())
}

/// Puts a term at the end.
pub(crate) fn push_term<F: Field, O: Order>(
    alloc: Global,
    f: &F,
    o: &O,
    stack: &mut Vec<Poly<F>>,
    t: Term<F::Elem>,
) -> Result<(), Memory>
    requires stack { AreCanonical (F.ops f.now) (O.order o.now) stack.old.items }
    requires term { IsSmallTerm (F.ops f.now) (O.order o.now) t }
    ensures canonical { OnOk result (AreCanonical (F.ops f.now) (O.order o.now) stack.new.items) }
    ensures sum { OnOk result
        (Same (F.ops f.now) (terms_together stack.new.items) (terms_together stack.old.items ++ (t ∷ []))) }
{
    let p = Poly::term(alloc, f, t.at, t.by)?;
    push_poly(alloc, f, o, stack, p)
}

/// The sum of polynomials, the last ones first.
pub(crate) fn total<F: Field, O: Order>(
    alloc: Global,
    f: &F,
    o: &O,
    mut stack: Vec<Poly<F>>,
) -> Result<Poly<F>, Memory>
    requires { AreCanonical (F.ops f.now) (O.order o.now) stack.items }
    ensures canonical { IfOk result (IsCanonical (F.ops f.now) (O.order o.now)) }
    ensures sum { IfOk result (λ p. Same (F.ops f.now) p (terms_together stack.items)) }
{
    let mut sum = Poly::zero(alloc);
    while let Some(p) = stack.pop() {
        sum = Poly::add_taking(alloc, f, o, p, sum)?;
    }
    Ok(sum)
}
