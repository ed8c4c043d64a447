//! Queries.
ghost use Rattle.std.specs.Prelude.{◌≡◌, ◌≢◌, ℕ, ◌≤◌, length, false, IfOk, IfSome, IfNone};
ghost use Rattle.monomial_order.specs.Limits.{degree_max};
ghost use Rattle.poly_core.specs.Presentation.{presented, IsValid};
ghost use Rattle.polynomials.specs.Polynomial.{degree_of, negated, IsCanonical, IsPoly};
ghost use Rattle.polynomials.specs.Subalgebra.{IsPresentation, IsReducedBasis, Presented};
ghost use Rattle.subalgebra_laws.specs.Statements.{ForPresentations, RemaindersDecideMembership};
ghost use Rattle.subalgebra_laws.specs.Words.{IsSubductionRemainder};
ghost use Rattle.witness.specs.declared.tracked.Tracked.{Tracked};
ghost use Rattle.witness.specs.Tracking.{by_order, values_of, Expands, HasDegreesUpTo};
ghost use Rattle.subduction.specs.Basis.{BasisState, IsBasisOf};
ghost use Rattle.subduction.specs.declared.subduction.Subduced.{Subduced};
ghost use Rattle.subduction.specs.Subduced.{IsInReach, IsSubduced};
ghost use Rattle.completion.specs.Closed.{HasLater};
ghost use Rattle.completion.specs.Completion.{elements_of, IsCompletion, IsUnchanged};
ghost use Rattle.membership.specs.Answer.{IsAnswer, IsBeyond, IsCanonicalReply, IsWithin};

use crate::Reply;
use completion::Completion;
use monomial_order::{Memory, Order};
use poly_core::{Poly, Presentation};
use std::alloc::Global;
use subduction::Basis;
use witness::Tracked;
use word_field::Field;

/// Whether a is in the subalgebra, by a completion at a closed degree.
pub fn answer<F: Field, O: Order>(
    alloc: Global,
    c: &mut Completion<F, O>,
    a: &Poly<F>,
) -> Result<Reply<F>, Memory>
    requires completion { IsCompletion F.ops O.order c.old }
    requires not_begun { c.old.begun ≡ false }
    requires some { 1 ≤ c.old.degree }
    requires canonical { let P = presented F.ops O.order c.old.presentation in IsCanonical P.field P.order a.now }
    requires small { let P = presented F.ops O.order c.old.presentation in degree_of P.order a.now ≤ degree_max }
    ensures completion { IsCompletion F.ops O.order c.new }
    ensures unchanged { IsUnchanged c.old c.new }
    ensures answer { let P = presented F.ops O.order c.old.presentation in
        IfOk result (IsAnswer P c.old.degree (elements_of c.old) a.now) }
    ensures later { let P = presented F.ops O.order c.old.presentation in IfOk result (λ r.
        (d : ℕ) → r ≡ Reply.Beyond d → HasLater P c.old.degree (elements_of c.old)) }
    ensures canonical { let P = presented F.ops O.order c.old.presentation in
        IfOk result (IsCanonicalReply P.field P.order (by_order c.old.presentation.gen_order)) }
{
    match degree_beyond(alloc, c, a)? {
        Some(d) => Ok(Reply::Beyond(d)),
        None => answer_within(alloc, c, a),
    }
}

/// The degree of a, if it is out of reach.
fn degree_beyond<F: Field, O: Order>(
    alloc: Global,
    c: &mut Completion<F, O>,
    a: &Poly<F>,
) -> Result<Option<u32>, Memory>
    requires completion { IsCompletion F.ops O.order c.old }
    requires not_begun { c.old.begun ≡ false }
    requires some { 1 ≤ c.old.degree }
    requires canonical { let P = presented F.ops O.order c.old.presentation in IsCanonical P.field P.order a.now }
    ensures completion { IsCompletion F.ops O.order c.new }
    ensures unchanged { IsUnchanged c.old c.new }
    ensures beyond { let P = presented F.ops O.order c.old.presentation in
        IfOk result (λ r. IfSome r (IsBeyond P c.old.degree (elements_of c.old) a.now)) }
    ensures later { let P = presented F.ops O.order c.old.presentation in
        IfOk result (λ r. IfSome r (λ _d. HasLater P c.old.degree (elements_of c.old))) }
    ensures within { let P = presented F.ops O.order c.old.presentation in
        IfOk result (λ r. IfNone r (IsWithin P c.old.degree (elements_of c.old) a.now)) }
    ensures reach { let P = presented F.ops O.order c.old.presentation in
        IfOk result (λ r. IfNone r (IsInReach P c.new.basis a.now)) }
{
    completion::laws::later_is_open::<F>();
    let Some(degree) = Poly::degree(&c.presentation().order, a) else {
        return Ok(None);
    };
    if degree <= c.closed_degree() {
        return Ok(None);
    }
    if c.is_complete(alloc)? {
        return Ok(None);
    }
    Ok(Some(degree))
}

/// What is left of a polynomial within reach is its remainder, and zero exactly for members.
fn rests_are_remainders<F: Field>()
    ensures remainder { (P : Presented F.Elem) (b : BasisState F F.Elem) (c : ℕ) → IsPresentation P → IsBasisOf P b →
        IsReducedBasis P c (values_of b.elements) → c ≤ b.words.degree →
        (t : Tracked F F.Elem) (r : Subduced F F.Elem) → IsCanonical P.field P.order t.value →
        IsWithin P c (values_of b.elements) t.value → IsSubduced P b t r →
        IsSubductionRemainder P t.value r.rest.value }
    ensures member { ForPresentations F.Elem RemaindersDecideMembership }
{
    quotient_gb::laws::quotients_decide::<F>();
    subalgebra_laws::laws::words::<F>();
    subalgebra_laws::laws::closed_basis::<F>();
    subalgebra_laws::laws::uniqueness::<F>();
}

/// The answer to a query within reach.
fn answer_within<F: Field, O: Order>(
    alloc: Global,
    c: &mut Completion<F, O>,
    a: &Poly<F>,
) -> Result<Reply<F>, Memory>
    requires completion { IsCompletion F.ops O.order c.old }
    requires not_begun { c.old.begun ≡ false }
    requires canonical { let P = presented F.ops O.order c.old.presentation in IsCanonical P.field P.order a.now }
    requires small { let P = presented F.ops O.order c.old.presentation in degree_of P.order a.now ≤ degree_max }
    requires within { let P = presented F.ops O.order c.old.presentation in
        IsWithin P c.old.degree (elements_of c.old) a.now }
    requires reach { IsInReach (presented F.ops O.order c.old.presentation) c.old.basis a.now }
    ensures completion { IsCompletion F.ops O.order c.new }
    ensures unchanged { IsUnchanged c.old c.new }
    ensures answer { let P = presented F.ops O.order c.old.presentation in
        IfOk result (IsAnswer P c.old.degree (elements_of c.old) a.now) }
    ensures canonical { let P = presented F.ops O.order c.old.presentation in
        IfOk result (IsCanonicalReply P.field P.order (by_order c.old.presentation.gen_order)) }
    ensures not_beyond { IfOk result (λ r. (d : ℕ) → r ≢ Reply.Beyond d) }
{
    rests_are_remainders::<F>();
    let query = Tracked {
        value: a.copy(alloc)?,
        by: Poly::zero(alloc),
    };
    let left = c.subduce(alloc, &query)?;
    if left.rest.value.lead().is_some() {
        return Ok(Reply::No(left.rest.value));
    }
    let h = expanded(alloc, c.presentation(), c.lower(), &left.rest.by)?;
    Ok(Reply::Member(h))
}

/// A polynomial in the generators alone with the value of a witness times -1.
fn expanded<F: Field, O: Order>(
    alloc: Global,
    p: &Presentation<F, O>,
    basis: &Basis<F, O>,
    by: &Poly<F>,
) -> Result<Poly<F>, Memory>
    requires presentation { IsValid F.ops O.order p.now }
    requires basis { IsBasisOf (presented F.ops O.order p.now) basis.now }
    requires canonical { IsCanonical (F.ops p.now.field) (by_order basis.now.by_order) by.now }
    requires small { HasDegreesUpTo (F.ops p.now.field) (by_order basis.now.by_order) degree_max by.now }
    ensures poly { let P = presented F.ops O.order p.now in IfOk result (IsPoly P.field (length P.generators)) }
    ensures value { let P = presented F.ops O.order p.now in
        IfOk result (Expands P (values_of basis.now.elements) (negated P.field by.now)) }
    ensures canonical { IfOk result (IsCanonical (F.ops p.now.field) (by_order p.now.gen_order)) }
{
    let order = basis.by_order();
    let negative = Poly::sub(alloc, &p.field, order, &Poly::zero(alloc), by)?;
    let expansion = witness::expand(alloc, p, order, basis.elements(), &negative)?;
    Ok(expansion)
}
