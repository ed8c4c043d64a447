//! Coefficients.
ghost use Rattle.std.specs.Prelude.{◌≡◌, ◌↔◌, ◌+◌, ◌^◌, ◌<◌, IfOk, IsTrue};
ghost use Rattle.monomial_order.specs.Monomial.{variable};
ghost use Rattle.monomial_order.specs.MonomialOrder.{IsMonomialOrder, MonomialOrder};
ghost use Rattle.polynomials.specs.Polynomial.{coefficient, lead_monomial, IsCanonical};

use monomial_order::{Memory, Monomial};
use poly_core::Poly;
use std::alloc::Global;
use word_field::Field;

/// The coefficient of a at m.
pub(crate) fn coefficient_at<F: Field>(f: &F, a: &Poly<F>, m: &Monomial) -> F::Elem
    requires { (o : MonomialOrder) × IsMonomialOrder o × IsCanonical (F.ops f.now) o a.now }
    ensures { result ≡ coefficient (F.ops f.now) a.now m.now }
{
    'terms: for t in a.terms() {
        if t.at == *m {
            return t.by;
        }
    }
    f.zero()
}

/// The coefficient of a at the lead of b.
pub(crate) fn coefficient_at_lead<F: Field>(
    alloc: Global,
    f: &F,
    a: &Poly<F>,
    b: &Poly<F>,
) -> F::Elem
    requires { (o : MonomialOrder) × IsMonomialOrder o × IsCanonical (F.ops f.now) o a.now }
    ensures { result ≡ coefficient (F.ops f.now) a.now (lead_monomial b.now) }
{
    match b.lead() {
        Some(first) => coefficient_at(f, a, &first.at),
        None => {
            let one = Monomial::one(alloc);
            coefficient_at(f, a, &one)
        }
    }
}

/// Whether a has no term at the variable of the place.
pub(crate) fn lacks_variable<F: Field>(
    alloc: Global,
    f: &F,
    a: &Poly<F>,
    place: usize,
) -> Result<bool, Memory>
    requires canonical { (o : MonomialOrder) × IsMonomialOrder o × IsCanonical (F.ops f.now) o a.now }
    requires small { place + 1 < 2 ^ 64 }
    ensures { IfOk result (λ r. IsTrue r ↔ (coefficient (F.ops f.now) a.now (variable place) ≡ (F.ops f.now).zero)) }
{
    let variable = Monomial::variable(alloc, place)?;
    Ok(coefficient_at(f, a, &variable) == f.zero())
}
