//! Products of values and elements.
ghost use Rattle.std.specs.Prelude.{◌≡◌, ◌≤◌, ◌<◌, ◌+◌, ◌⊎◌, ℕ, ◌≢◌, [], true, length, get_or, IfOk, IfSome, IsNone};
ghost use Rattle.monomial_order.specs.Monomial.{exponent};
ghost use Rattle.word_laws.specs.Words.{IsSWord};
ghost use Rattle.poly_core.specs.Presentation.{presented, IsValid};
ghost use Rattle.polynomials.specs.Polynomial.{IsCanonical};
ghost use Rattle.polynomials.specs.Subalgebra.{HasDegreesTo, IsNormalForm};
ghost use Rattle.quotient_gb.specs.Quotient.{IsQuotientOf};
ghost use Rattle.subalgebra_laws.specs.Words.{letters};
ghost use Rattle.witness.specs.Tracking.{values_of};
ghost use Rattle.word_values.specs.Values.{CanMake, IsWordValue, whole, IsSplit};

use crate::words::without;
use monomial_order::{Memory, Monomial, Order};
use poly_core::{Poly, Presentation};
use quotient_gb::Quotient;
use std::alloc::Global;
use witness::Tracked;
use word_field::Field;

/// A letter, by its place, and a word.
#[derive(Drop)]
pub(crate) struct Split {
    pub letter: usize,
    pub rest: Monomial,
}

/// A word without a letter.
pub(crate) fn take_off<F: Field, O: Order>(
    alloc: Global,
    _p: &Presentation<F, O>,
    _elements: &[Tracked<F>],
    w: &Monomial,
    letter: usize,
) -> Result<Split, Memory>
    requires word { IsSWord (letters (presented F.ops O.order _p.now) (values_of _elements.now)) w.now }
    requires letter { exponent w.now letter ≢ 0 }
    ensures { IfOk result (IsSplit (presented F.ops O.order _p.now) (values_of _elements.now) w.now) }
{
    let rest = without(alloc, w, letter)?;
    Ok(Split { letter, rest })
}

/// The element of a letter.
pub(crate) fn element<'a, F: Field, O: Order>(
    p: &Presentation<F, O>,
    elements: &'a [Tracked<F>],
    letter: usize,
) -> &'a Poly<F>
    requires first { (O.order p.now.order).places ≤ letter }
    requires last { letter < (O.order p.now.order).places + length elements.now }
    ensures { (i : ℕ) → letter ≡ (O.order p.now.order).places + i →
        result.now ≡ get_or (values_of elements.now) i [] }
{
    &elements[letter - p.order.places()].value
}

/// The value of the word 1.
pub(crate) fn value_of_one<F: Field, O: Order>(
    alloc: Global,
    p: &Presentation<F, O>,
    q: &Quotient<F, O>,
    _elements: &[Tracked<F>],
) -> Result<Poly<F>, Memory>
    requires presentation { IsValid F.ops O.order p.now }
    requires quotient { IsQuotientOf (presented F.ops O.order p.now) q.now }
    ensures { IfOk result (IsWordValue (presented F.ops O.order p.now) (values_of _elements.now) []) }
{
    let one = Poly::term(alloc, &p.field, Monomial::one(alloc), p.field.one())?;
    let value = q.normal_form(alloc, p, &one)?;
    Ok(value)
}

/// The value of the word 1, and nothing for another word.
pub(crate) fn value_of_start<F: Field, O: Order>(
    alloc: Global,
    p: &Presentation<F, O>,
    q: &Quotient<F, O>,
    elements: &[Tracked<F>],
    start: &Monomial,
) -> Result<Option<Poly<F>>, Memory>
    requires presentation { IsValid F.ops O.order p.now }
    requires quotient { IsQuotientOf (presented F.ops O.order p.now) q.now }
    ensures made { let P = presented F.ops O.order p.now in
        IfOk result (λ r. IfSome r (IsWordValue P (values_of elements.now) start.now)) }
    ensures none { IfOk result (λ r. IsNone r → start.now ≢ []) }
{
    if start.places() > 0 {
        return Ok(None);
    }
    let one = value_of_one(alloc, p, q, elements)?;
    Ok(Some(one))
}

/// Whether all monomials are standard: then the polynomial is its own normal form.
fn is_normal<F: Field, O: Order>(_p: &Presentation<F, O>, q: &Quotient<F, O>, a: &Poly<F>) -> bool
    requires presentation { IsValid F.ops O.order _p.now }
    requires quotient { IsQuotientOf (presented F.ops O.order _p.now) q.now }
    requires canonical { IsCanonical (F.ops _p.now.field) (O.order _p.now.order) a.now }
    requires degree { HasDegreesTo (presented F.ops O.order _p.now) q.now.degree a.now ⊎ (q.now.closed ≡ true) }
    ensures { result ≡ true → IsNormalForm (presented F.ops O.order _p.now) a.now a.now }
{
    'terms: for t in a.terms() {
        if !q.is_standard(&t.at) {
            return false;
        }
    }
    true
}

/// The value of a word, from that of the word without a letter.
pub(crate) fn times_letter<F: Field, O: Order>(
    alloc: Global,
    p: &Presentation<F, O>,
    q: &Quotient<F, O>,
    elements: &[Tracked<F>],
    split: &Split,
    value: &Poly<F>,
) -> Result<Poly<F>, Memory>
    requires presentation { IsValid F.ops O.order p.now }
    requires making { CanMake (presented F.ops O.order p.now) (values_of elements.now) q.now (whole split.now) }
    requires split { IsSplit (presented F.ops O.order p.now) (values_of elements.now) (whole split.now) split.now }
    requires value { IsWordValue (presented F.ops O.order p.now) (values_of elements.now) split.now.rest value.now }
    ensures { let P = presented F.ops O.order p.now in
        IfOk result (IsWordValue P (values_of elements.now) (whole split.now)) }
{
    let factor = element(p, elements, split.letter);
    let product = Poly::mul(alloc, &p.field, &p.order, factor, value)?;
    if is_normal(p, q, &product) {
        return Ok(product);
    }
    let next = q.normal_form(alloc, p, &product)?;
    Ok(next)
}
