//! Sums of terms in any order.
ghost use Rattle.std.specs.Prelude.{◌≡◌, ◌≤◌, ◌<◌, ◌++◌, ◌∷◌, [], length, IfOk};
ghost use Rattle.polynomials.specs.Polynomial.{IsCanonical, IsPoly, IsSmall, IsTerm, Same};
ghost use Rattle.monomial_order.specs.Limits.{exponent_max};

use monomial_order::{Memory, Order, Term};
use poly_core::Poly;
use std::alloc::Global;
use word_field::Field;

/// A term alone.
pub(crate) fn single_term<F: Field, O: Order>(
    alloc: Global,
    f: &F,
    _o: &O,
    t: &Term<F::Elem>,
) -> Result<Poly<F>, Memory>
    requires term { IsTerm (F.ops f.now) (O.order _o.now).places t.now }
    requires small { (O.order _o.now).degree t.now.at ≤ exponent_max }
    ensures canonical { IfOk result (IsCanonical (F.ops f.now) (O.order _o.now)) }
    ensures same { IfOk result (λ r. Same (F.ops f.now) r (t.now ∷ [])) }
{
    let term = Poly::term(alloc, f, t.at.copy(alloc)?, t.by)?;
    Ok(term)
}

/// The two halves of a list of terms.
pub(crate) fn halves<'a, F: Field, O: Order>(
    _f: &F,
    _o: &O,
    terms: &'a [Term<F::Elem>],
) -> (&'a [Term<F::Elem>], &'a [Term<F::Elem>])
    requires some { 2 ≤ length terms.now }
    requires terms { IsPoly (F.ops _f.now) (O.order _o.now).places terms.now }
    requires small { IsSmall (O.order _o.now) terms.now }
    ensures whole { terms.now ≡ result.0.now ++ result.1.now }
    ensures front_shorter { length result.0.now < length terms.now }
    ensures back_shorter { length result.1.now < length terms.now }
    ensures front { IsPoly (F.ops _f.now) (O.order _o.now).places result.0.now }
    ensures back { IsPoly (F.ops _f.now) (O.order _o.now).places result.1.now }
    ensures front_small { IsSmall (O.order _o.now) result.0.now }
    ensures back_small { IsSmall (O.order _o.now) result.1.now }
{
    terms.split_at(terms.len() / 2)
}

/// The sum of terms, by halves.
pub(crate) fn sum_of_terms<F: Field, O: Order>(
    alloc: Global,
    f: &F,
    o: &O,
    terms: &[Term<F::Elem>],
) -> Result<Poly<F>, Memory>
    requires terms { IsPoly (F.ops f.now) (O.order o.now).places terms.now }
    requires small { IsSmall (O.order o.now) terms.now }
    ensures canonical { IfOk result (IsCanonical (F.ops f.now) (O.order o.now)) }
    ensures sum { IfOk result (λ r. Same (F.ops f.now) r terms.now) }
{
    match terms {
        [] => Ok(Poly::zero(alloc)),
        [t] => single_term(alloc, f, o, t),
        _ => {
            let (front, back) = halves(f, o, terms);
            let left = sum_of_terms(alloc, f, o, front)?;
            let right = sum_of_terms(alloc, f, o, back)?;
            let sum = Poly::add_taking(alloc, f, o, left, right)?;
            Ok(sum)
        }
    }
}
