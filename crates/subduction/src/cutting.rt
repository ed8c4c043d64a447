//! Bases that go back to a smaller degree.
ghost use Rattle.std.specs.Prelude.{◌≡◌, ◌≤◌, ◌++◌, ◌∷◌, [], List, max, IfOk, OnOk};
ghost use Rattle.monomial_order.specs.Limits.{degree_max};
ghost use Rattle.monomial_order.specs.declared.word_order.WordOrder.{WordOrder};
ghost use Rattle.poly_core.specs.Presentation.{presented, IsValid};
ghost use Rattle.polynomials.specs.Polynomial.{degree_of, lead_monomial};
ghost use Rattle.quotient_gb.specs.Quotient.{IsQuotientOf};
ghost use Rattle.toric_ideal.specs.Increasing.{IsComparable};
ghost use Rattle.witness.specs.declared.tracked.Tracked.{Tracked};
ghost use Rattle.subduction.specs.Cutting.{AreNextInTurn, IsFront, IsNextAfter};

use crate::basis::words_are_listed;
use crate::ideal_leads::{monomials_to, variable_degrees};
use crate::new_elements::push_lead_of;
use monomial_order::{Memory, Order, WordOrder};
use poly_core::{Poly, Presentation};
use quotient_gb::Quotient;
use std::alloc::Global;
use toric_ideal::Words;
use witness::Tracked;
use word_field::Field;

/// The degree of the lead.
fn lead_degree<F: Field, O: Order>(o: &O, a: &Poly<F>) -> u32
    requires { IsComparable (O.order o.now) (lead_monomial a.now) }
    ensures { result ≡ degree_of (O.order o.now) a.now }
{
    match a.lead() {
        Some(first) => o.degree(&first.at),
        None => 0,
    }
}

/// Lists the words to the degree c, with the leads of the ideal as zeros.
fn list_words<F: Field, O: Order>(
    alloc: Global,
    p: &Presentation<F, O>,
    q: &Quotient<F, O>,
    words: &mut Words,
    c: u32,
) -> Result<(), Memory>
    requires presentation { IsValid F.ops O.order p.now }
    requires front { (w : WordOrder) × (ts : List (Tracked F F.Elem)) ×
        IsFront (presented F.ops O.order p.now) q.now words.old w ts }
    requires small { c ≤ q.now.degree }
    ensures front { OnOk result ((w : WordOrder) (ts : List (Tracked F F.Elem)) →
        IsFront (presented F.ops O.order p.now) q.now words.old w ts →
        IsFront (presented F.ops O.order p.now) q.now words.new w ts) }
    ensures degree { OnOk result (words.new.degree ≡ max words.old.degree c) }
{
    if c <= words.degree() {
        return Ok(());
    }
    let zeros = monomials_to(alloc, &p.order, q.leads(), c)?;
    words.extend_to(alloc, c, zeros.as_slice())?;
    words_are_listed(words);
    Ok(())
}

/// Takes up the next element: its lead, and a place for its letter.
fn take_up<F: Field, O: Order>(
    alloc: Global,
    p: &Presentation<F, O>,
    q: &Quotient<F, O>,
    words: &mut Words,
    places: &mut WordOrder,
    t: &Tracked<F>,
) -> Result<(), Memory>
    requires presentation { IsValid F.ops O.order p.now }
    requires next { let P = presented F.ops O.order p.now in (ts : List (Tracked F F.Elem)) ×
        IsFront P q.now words.old places.old ts × IsNextAfter P ts t.now }
    requires from { words.old.degree ≤ degree_of (O.order p.now.order) t.now.value }
    requires to { degree_of (O.order p.now.order) t.now.value ≤ q.now.degree }
    ensures front { let P = presented F.ops O.order p.now in OnOk result ((ts : List (Tracked F F.Elem)) →
        IsFront P q.now words.old places.old ts → IsNextAfter P ts t.now →
        IsFront P q.now words.new places.new (ts ++ t.now ∷ [])) }
    ensures degree { OnOk result (words.new.degree ≡ degree_of (O.order p.now.order) t.now.value) }
{
    subalgebra_laws::laws::words::<F>();
    let degree = lead_degree(&p.order, &t.value);
    list_words(alloc, p, q, words, degree)?;
    push_lead_of(alloc, words, &t.value)?;
    places.push_place(degree)?;
    words_are_listed(words);
    Ok(())
}

/// The words in the leads of the elements to the degree d of the quotient, and the order of witnesses over them.
pub(crate) fn words_over<F: Field, O: Order>(
    alloc: Global,
    p: &Presentation<F, O>,
    q: &Quotient<F, O>,
    kept: &[Tracked<F>],
    d: u32,
) -> Result<(Words, WordOrder), Memory>
    requires presentation { IsValid F.ops O.order p.now }
    requires quotient { IsQuotientOf (presented F.ops O.order p.now) q.now }
    requires degree { q.now.degree ≡ d }
    requires next { AreNextInTurn (presented F.ops O.order p.now) d kept.now }
    ensures front { IfOk result (λ r. IsFront (presented F.ops O.order p.now) q.now r.0 r.1 kept.now) }
    ensures degree { IfOk result (λ r. r.0.degree ≡ d) }
{
    let degrees = variable_degrees(alloc, &p.order)?;
    let mut words = Words::new(alloc, degrees.as_slice())?;
    let mut places = p.gen_order.copy(alloc)?;
    words_are_listed(&words);
    'elements: for t in kept {
        take_up(alloc, p, q, &mut words, &mut places, t)?;
    }
    list_words(alloc, p, q, &mut words, d)?;
    Ok((words, places))
}
