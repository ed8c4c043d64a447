//! Subduction by a basis.
ghost use Rattle.std.specs.Prelude.{◌≡◌, ℕ, ◌≤◌, IfOk};
ghost use Rattle.poly_core.specs.Presentation.{presented, IsValid};
ghost use Rattle.polynomials.specs.Polynomial.{degree_of, minus, IsCanonical, IsPoly, IsSmall, Same};
ghost use Rattle.witness.specs.Tracking.{by_order, values_of};
ghost use Rattle.word_values.specs.Values.{AreValues, AreWordsTo};
ghost use Rattle.subduction.specs.Basis.{IsBasisOf};
ghost use Rattle.subduction.specs.Subduced.{CanSubduce, IsSubduced, witness_sum};

use crate::Basis;
use crate::term_sum::sum_of_terms;
use crate::witness_words::moved_terms;
use crate::word_step::take_words;
use monomial_order::{Memory, Order, WordOrder};
use poly_core::{Poly, Presentation};
use std::alloc::Global;
use witness::Tracked;
use word_field::Field;
use word_values::Values;

/// The sum of words whose value was taken away, and what is left.
#[derive(Drop)]
pub struct Subduced<F: Field> {
    pub rest: Tracked<F>,
    pub word_sum: Poly<F>,
}

/// Takes the value of a sum of irreducible s-words away, so that no monomial that is left leads a member of the ideal
/// or is a product of leads.
pub fn subduce<F: Field, O: Order>(
    alloc: Global,
    p: &Presentation<F, O>,
    b: &Basis<F, O>,
    t: &Tracked<F>,
) -> Result<Subduced<F>, Memory>
    requires presentation { IsValid F.ops O.order p.now }
    requires basis { IsBasisOf (presented F.ops O.order p.now) b.now }
    requires can { CanSubduce (presented F.ops O.order p.now) b.now t.now }
    ensures { IfOk result (IsSubduced (presented F.ops O.order p.now) b.now t.now) }
{
    let mut values = Values::new(alloc, 0);
    subduce_with(alloc, p, b, &mut values, t)
}

/// `subduce` with values of words that are kept from use to use.
pub fn subduce_with<F: Field, O: Order>(
    alloc: Global,
    p: &Presentation<F, O>,
    b: &Basis<F, O>,
    values: &mut Values<F>,
    t: &Tracked<F>,
) -> Result<Subduced<F>, Memory>
    requires presentation { IsValid F.ops O.order p.now }
    requires basis { IsBasisOf (presented F.ops O.order p.now) b.now }
    requires values { AreValues (presented F.ops O.order p.now) (values_of b.now.elements) values.old }
    requires can { CanSubduce (presented F.ops O.order p.now) b.now t.now }
    ensures values { AreValues (presented F.ops O.order p.now) (values_of b.now.elements) values.new }
    ensures words { let P = presented F.ops O.order p.now in let S = values_of b.now.elements in (d : ℕ) →
        degree_of P.order t.now.value ≤ d → AreWordsTo P S d values.old → AreWordsTo P S d values.new }
    ensures subduced { IfOk result (IsSubduced (presented F.ops O.order p.now) b.now t.now) }
{
    let normal = b.quotient().normal_form(alloc, p, &t.value)?;
    let parts = take_words(alloc, p, b, values, &normal)?;
    let word_sum = sum_of_terms(alloc, &p.field, b.words().order(), parts.words.as_slice())?;
    let by = without_words(alloc, p, b.by_order(), &t.by, &word_sum)?;
    let value = Poly::from_falling(parts.rest);
    Ok(Subduced {
        rest: Tracked { value, by },
        word_sum,
    })
}

/// A witness less a sum of words.
fn without_words<F: Field, O: Order>(
    alloc: Global,
    p: &Presentation<F, O>,
    order: &WordOrder,
    by: &Poly<F>,
    word_sum: &Poly<F>,
) -> Result<Poly<F>, Memory>
    requires canonical { IsCanonical (F.ops p.now.field) (by_order order.now) by.now }
    requires words { let W = by_order order.now in
        IsPoly (F.ops p.now.field) W.places (witness_sum (presented F.ops O.order p.now) word_sum.now) }
    requires small { IsSmall (by_order order.now) (witness_sum (presented F.ops O.order p.now) word_sum.now) }
    ensures canonical { IfOk result (IsCanonical (F.ops p.now.field) (by_order order.now)) }
    ensures difference { let P = presented F.ops O.order p.now in
        IfOk result (λ r. Same P.field r (minus P.field by.now (witness_sum P word_sum.now))) }
{
    let moved = moved_sum(alloc, p, order, word_sum)?;
    let difference = Poly::sub(alloc, &p.field, order, by, &moved)?;
    Ok(difference)
}

/// A sum of words as a witness.
fn moved_sum<F: Field, O: Order>(
    alloc: Global,
    p: &Presentation<F, O>,
    order: &WordOrder,
    word_sum: &Poly<F>,
) -> Result<Poly<F>, Memory>
    requires words { let W = by_order order.now in
        IsPoly (F.ops p.now.field) W.places (witness_sum (presented F.ops O.order p.now) word_sum.now) }
    requires small { IsSmall (by_order order.now) (witness_sum (presented F.ops O.order p.now) word_sum.now) }
    ensures canonical { IfOk result (IsCanonical (F.ops p.now.field) (by_order order.now)) }
    ensures same { let P = presented F.ops O.order p.now in
        IfOk result (λ r. Same P.field r (witness_sum P word_sum.now)) }
{
    let places = p.order.places();
    let moved = moved_terms::<F>(alloc, places, p.generators.len(), word_sum.terms())?;
    let sum = sum_of_terms(alloc, &p.field, order, moved.as_slice())?;
    Ok(sum)
}
