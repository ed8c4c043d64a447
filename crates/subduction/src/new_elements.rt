//! The next element of a basis.
ghost use Rattle.std.specs.Prelude.{◌≡◌, ◌≢◌, ◌≤◌, ◌∷◌, ◌++◌, [], ℕ, length, IfOk, OnOk, OnErr};
ghost use Rattle.monomial_order.specs.Limits.{degree_max};
ghost use Rattle.monomial_order.specs.MonomialOrder.{MonomialOrder};
ghost use Rattle.poly_core.specs.Presentation.{presented, IsValid};
ghost use Rattle.polynomials.specs.Polynomial.{lead_monomial};
ghost use Rattle.toric_ideal.specs.Leads.{letters};
ghost use Rattle.toric_ideal.specs.Listing.{IsNewLead};
ghost use Rattle.witness.specs.Tracking.{by_order, letter_poly, IsCanonicalPair};
ghost use Rattle.subduction.specs.Basis.{IsBasisOf, IsNewElement};
ghost use Rattle.subduction.specs.NewElements.{IsLoweredTo, IsMonicMultiple, IsNextElement, IsWitnessPut};

use crate::Basis;
use crate::coefficients::{coefficient_at_lead, lacks_variable};
use crate::settling::lower_count;
use monomial_order::{Memory, Monomial, Order, WordOrder};
use poly_core::{Poly, Presentation};
use std::alloc::Global;
use toric_ideal::Words;
use witness::Tracked;
use word_field::Field;

/// Puts the witness of s in place of its letter in the witness of t.
fn with_witness<F: Field, O: Order>(
    alloc: Global,
    p: &Presentation<F, O>,
    w: &WordOrder,
    t: Tracked<F>,
    s: &Tracked<F>,
    letter: &Tracked<F>,
) -> Result<Tracked<F>, Memory>
    requires t { IsCanonicalPair (F.ops p.now.field) (O.order p.now.order) (by_order w.now) t }
    requires s { IsCanonicalPair (F.ops p.now.field) (O.order p.now.order) (by_order w.now) s.now }
    requires letter { IsCanonicalPair (F.ops p.now.field) (O.order p.now.order) (by_order w.now) letter.now }
    requires value { letter.now.value ≡ s.now.value }
    requires by { (k : ℕ) × (letter.now.by ≡ letter_poly (F.ops p.now.field) k) }
    ensures { IfOk result (IsWitnessPut (presented F.ops O.order p.now) (by_order w.now) t s.now letter.now) }
{
    let c = coefficient_at_lead(alloc, &p.field, &t.by, &letter.by);
    if c == p.field.zero() {
        return Ok(t);
    }
    let taken = witness::scale(alloc, p, letter, p.field.neg(c))?;
    let given = witness::scale(alloc, p, s, c)?;
    let difference = witness::sum(alloc, p, w, &taken, &given)?;
    let replaced = witness::sum(alloc, p, w, &t, &difference)?;
    Ok(replaced)
}

/// Replaces the letters of elements of the last degree in the witness of t. An element is copied only if its letter is
/// there.
fn lowered<F: Field, O: Order>(
    alloc: Global,
    p: &Presentation<F, O>,
    b: &Basis<F, O>,
    t: Tracked<F>,
) -> Result<Tracked<F>, Memory>
    requires presentation { IsValid F.ops O.order p.now }
    requires basis { IsBasisOf (presented F.ops O.order p.now) b.now }
    requires element { IsNewElement (presented F.ops O.order p.now) b.now t }
    ensures { IfOk result (IsLoweredTo (presented F.ops O.order p.now) b.now t (length b.now.elements)) }
{
    let elements = b.elements();
    let count = lower_count(&p.order, b.words().leads(), b.words().degree());
    let mut rest = t;
    'elements: for i in count..elements.len() {
        if lacks_variable(alloc, &p.field, &rest.by, p.generators.len() + i)? {
            continue;
        }
        let s = &elements[i];
        let letter = witness::element(alloc, p, &s.value, i + 1)?;
        rest = with_witness(alloc, p, b.by_order(), rest, s, &letter)?;
    }
    Ok(rest)
}

/// Divides by the first coefficient, if that is not one.
fn made_monic<F: Field, O: Order>(
    alloc: Global,
    p: &Presentation<F, O>,
    t: Tracked<F>,
) -> Result<Tracked<F>, Memory>
    requires canonical { (W : MonomialOrder) × IsCanonicalPair (F.ops p.now.field) (O.order p.now.order) W t }
    requires nonzero { t.value ≢ [] }
    ensures { IfOk result (IsMonicMultiple (presented F.ops O.order p.now) t) }
{
    let by = match t.value.lead() {
        Some(first) => first.by,
        None => unreachable!(),
    };
    if by == p.field.one() {
        return Ok(t);
    }
    match p.field.inv(by) {
        Some(inverse) => {
            let monic = witness::scale(alloc, p, &t, inverse)?;
            Ok(monic)
        }
        None => unreachable!(),
    }
}

/// The monic multiple of t, with elements of smaller degree in its witness.
pub(crate) fn next_element<F: Field, O: Order>(
    alloc: Global,
    p: &Presentation<F, O>,
    b: &Basis<F, O>,
    t: Tracked<F>,
) -> Result<Tracked<F>, Memory>
    requires presentation { IsValid F.ops O.order p.now }
    requires basis { IsBasisOf (presented F.ops O.order p.now) b.now }
    requires element { IsNewElement (presented F.ops O.order p.now) b.now t }
    ensures { IfOk result (IsNextElement (presented F.ops O.order p.now) b.now t) }
{
    let rest = lowered(alloc, p, b, t)?;
    let monic = made_monic(alloc, p, rest)?;
    Ok(monic)
}

/// A copy of the order with a further place.
pub(crate) fn with_place(alloc: Global, w: &WordOrder, degree: u32) -> Result<WordOrder, Memory>
    requires positive { 1 ≤ degree }
    requires small { degree ≤ degree_max }
    ensures x { IfOk result (λ o. o.x_degrees.items ≡ w.now.x_degrees.items) }
    ensures s { IfOk result (λ o. o.s_degrees.items ≡ w.now.s_degrees.items ++ degree ∷ []) }
{
    let mut longer = w.copy(alloc)?;
    longer.push_place(degree)?;
    Ok(longer)
}

/// Makes the lead of a the next lead of the words.
pub(crate) fn push_lead_of<F: Field>(
    alloc: Global,
    words: &mut Words,
    a: &Poly<F>,
) -> Result<(), Memory>
    requires { IsNewLead words.old (lead_monomial a.now) }
    ensures letters { OnOk result (words.new.letters
        ≡ letters words.old.letters.degrees (words.old.letters.leads ++ lead_monomial a.now ∷ [])) }
    ensures zeros { words.new.zeros ≡ words.old.zeros }
    ensures degree { words.new.degree ≡ words.old.degree }
    ensures err { OnErr result (words.new ≡ words.old) }
{
    match a.lead() {
        Some(first) => words.push_lead(alloc, &first.at),
        None => {
            let one = Monomial::one(alloc);
            words.push_lead(alloc, &one)
        }
    }
}
