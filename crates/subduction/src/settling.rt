//! Elements of one degree, reduced by each other.
ghost use Rattle.std.specs.Prelude.{◌≡◌, ◌+◌, ◌++◌, ◌<◌, ◌≤◌, ◌↔◌, map, length, take, Contains, IfOk, IsTrue, All, List};
ghost use Rattle.monomial_order.specs.Monomial.{Exponents};
ghost use Rattle.monomial_order.specs.MonomialOrder.{IsMonomialOrder, MonomialOrder};
ghost use Rattle.poly_core.specs.Presentation.{presented, IsValid};
ghost use Rattle.polynomials.specs.Polynomial.{coefficient, lead_monomial, IsCanonical};
ghost use Rattle.toric_ideal.specs.Increasing.{AreComparable};
ghost use Rattle.witness.specs.Tracking.{by_order, values_of, IsCanonicalPair};
ghost use Rattle.subduction.specs.Settling.{AreLess, AreMadeInOrder, IsLess};

use crate::coefficients::coefficient_at_lead;
use monomial_order::{Memory, Monomial, Order, WordOrder};
use poly_core::{Poly, Presentation};
use std::alloc::Global;
use toric_ideal::sorted;
use witness::Tracked;
use word_field::Field;

/// Takes away the multiple of u that takes the monomial at the lead of u away.
fn without_lead<F: Field, O: Order>(
    alloc: Global,
    p: &Presentation<F, O>,
    w: &WordOrder,
    t: Tracked<F>,
    u: &Tracked<F>,
) -> Result<Tracked<F>, Memory>
    requires t { IsCanonicalPair (F.ops p.now.field) (O.order p.now.order) (by_order w.now) t }
    requires u { IsCanonicalPair (F.ops p.now.field) (O.order p.now.order) (by_order w.now) u.now }
    ensures { IfOk result (IsLess (presented F.ops O.order p.now) (by_order w.now) t u.now) }
{
    let c = coefficient_at_lead(alloc, &p.field, &t.value, &u.value);
    if c == p.field.zero() {
        return Ok(t);
    }
    let multiple = witness::scale(alloc, p, u, p.field.neg(c))?;
    let difference = witness::sum(alloc, p, w, &t, &multiple)?;
    Ok(difference)
}

/// The element less multiples of the others.
fn reduced<F: Field, O: Order>(
    alloc: Global,
    p: &Presentation<F, O>,
    w: &WordOrder,
    t: &Tracked<F>,
    others: &[Tracked<F>],
) -> Result<Tracked<F>, Memory>
    requires t { IsCanonicalPair (F.ops p.now.field) (O.order p.now.order) (by_order w.now) t.now }
    requires others { All (IsCanonicalPair (F.ops p.now.field) (O.order p.now.order) (by_order w.now)) others.now }
    ensures canonical { IfOk result (IsCanonicalPair (F.ops p.now.field) (O.order p.now.order) (by_order w.now)) }
    ensures less { IfOk result (AreLess (presented F.ops O.order p.now) (by_order w.now) t.now others.now) }
{
    let mut rest = Tracked {
        value: t.value.copy(alloc)?,
        by: t.by.copy(alloc)?,
    };
    'others: for u in others {
        rest = without_lead(alloc, p, w, rest, u)?;
    }
    Ok(rest)
}

/// Whether this is the lead of the element.
fn has_lead<F: Field>(t: &Tracked<F>, m: &Monomial) -> bool
    ensures { IsTrue result ↔ (lead_monomial t.now.value ≡ m.now) }
{
    match t.value.lead() {
        Some(first) => first.at == *m,
        None => m.as_slice().is_empty(),
    }
}

/// The element with a lead.
fn with_lead<'a, F: Field>(elements: &'a [Tracked<F>], m: &Monomial) -> &'a Tracked<F>
    requires { Contains (map lead_monomial (values_of elements.now)) m.now }
    ensures element { Contains elements.now result.now }
    ensures lead { lead_monomial result.now.value ≡ m.now }
{
    'elements: for t in elements {
        if has_lead(t, m) {
            return t;
        }
    }
    unreachable!()
}

/// The elements reduced by each other, in the order of their leads.
pub(crate) fn reduced_by_each_other<F: Field, O: Order>(
    alloc: Global,
    p: &Presentation<F, O>,
    w: &WordOrder,
    elements: &[Tracked<F>],
    leads: &[Monomial],
) -> Result<Vec<Tracked<F>>, Memory>
    requires elements { All (IsCanonicalPair (F.ops p.now.field) (O.order p.now.order) (by_order w.now)) elements.now }
    requires leads { leads.now ≡ map lead_monomial (values_of elements.now) }
    requires comparable { AreComparable (O.order p.now.order) leads.now }
    ensures { IfOk result (λ v. AreMadeInOrder (presented F.ops O.order p.now) (by_order w.now)
        elements.now leads.now v.items) }
{
    let increasing = sorted(alloc, &p.order, leads)?;
    let mut new = Vec::new(alloc);
    'leads: for m in &increasing {
        let t = with_lead(elements, m);
        new.push(reduced(alloc, p, w, t, new.as_slice())?)?;
    }
    Ok(new)
}

/// How many leads have smaller degrees than d, if these come first. It halves the list.
pub fn lower_count<O: Order>(o: &O, leads: &[Monomial], d: u32) -> usize
    requires { AreComparable (O.order o.now) leads.now }
    ensures { (lower last : List Exponents) → leads.now ≡ lower ++ last →
        All (λ m. (O.order o.now).degree m < d) lower → All (λ m. d ≤ (O.order o.now).degree m) last →
        result ≡ length lower }
{
    let mut low = 0;
    let mut high = leads.len();
    'seek: while low < high {
        let middle = low + (high - low) / 2;
        if o.degree(&leads[middle]) < d {
            low = middle + 1;
        } else {
            high = middle;
        }
    }
    low
}

/// Puts the new elements in place of the last ones. It takes no memory.
pub(crate) fn put_last<F: Field>(elements: &mut Vec<Tracked<F>>, count: usize, new: Vec<Tracked<F>>)
    requires { count + length new.items ≡ length elements.old.items }
    ensures { elements.new.items ≡ take count elements.old.items ++ new.items }
{
    let mut last = new;
    elements.truncate(count);
    if elements.append(&mut last).is_err() {
        unreachable!()
    }
}
