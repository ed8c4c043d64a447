//! The steps of a subduction.
ghost use Rattle.std.specs.Prelude.{◌≡◌, ◌≢◌, ℕ, ◌≤◌, ◌⊎◌, ◌∷◌, [], true, map, OnOk, IfOk, IfSome, IsNone};
ghost use Rattle.monomial_order.specs.Limits.{degree_max, exponent_max};
ghost use Rattle.monomial_order.specs.Monomial.{Exponents};
ghost use Rattle.poly_core.specs.Presentation.{presented, IsValid};
ghost use Rattle.polynomials.specs.Polynomial.{coefficient, degree_of, lead_monomial, IsCanonical};
ghost use Rattle.polynomials.specs.Subalgebra.{IsGenerated, IsPresentation, IsStandard};
ghost use Rattle.word_laws.specs.Words.{IsLeast, IsSWord};
ghost use Rattle.quotient_gb.specs.Quotient.{IsQuotientOf};
ghost use Rattle.subalgebra_laws.specs.Bases.{AreMonicElements};
ghost use Rattle.subalgebra_laws.specs.Words.{letters};
ghost use Rattle.witness.specs.Tracking.{values_of};
ghost use Rattle.word_values.specs.Values.{AreHomogeneousElements, AreValues, AreWordsTo, IsWordValue, word_degree};
ghost use Rattle.subduction.specs.Basis.{IsBasisOf, IsKnownClosed};
ghost use Rattle.subduction.specs.Subduced.{IsInReach};
ghost use Rattle.subduction.specs.Steps.{IsLeadTaken, IsMonicAt, IsSubducing, IsTermTaken, HasValueTaken};

use crate::Basis;
use linked_terms::TermChain;
use monomial_order::{Memory, Monomial, Order, Term};
use poly_core::{Poly, Presentation};
use quotient_gb::Quotient;
use std::alloc::Global;
use witness::Tracked;
use word_field::Field;
use word_values::Values;

/// The terms at words, and the terms at monomials that are no products of leads.
#[derive(Drop)]
pub(crate) struct Parts<F: Field> {
    pub words: Vec<Term<F::Elem>>,
    pub rest: Vec<Term<F::Elem>>,
}

/// The chain of the terms of a.
fn chain_of<F: Field, O: Order>(
    alloc: Global,
    p: &Presentation<F, O>,
    a: &Poly<F>,
) -> Result<TermChain<F>, Memory>
    requires presentation { IsValid F.ops O.order p.now }
    requires a { IsCanonical (F.ops p.now.field) (O.order p.now.order) a.now }
    ensures { IfOk result (λ work. work.terms ≡ a.now) }
{
    let mut work = TermChain::new(alloc);
    let one = Monomial::one(alloc);
    work.add_scaled(&p.field, &p.order, a.terms(), p.field.one(), &one)?;
    Ok(work)
}

/// Adds the multiple of v that cancels a term above the chain, without its lead.
fn cancel<F: Field, O: Order>(
    work: &mut TermChain<F>,
    alloc: Global,
    p: &Presentation<F, O>,
    term: &Term<F::Elem>,
    v: &Poly<F>,
) -> Result<(), Memory>
    requires presentation { IsValid F.ops O.order p.now }
    requires work { IsCanonical (F.ops p.now.field) (O.order p.now.order) (term.now ∷ work.old.terms) }
    requires v { IsMonicAt (presented F.ops O.order p.now) term.now.at v.now }
    ensures { OnOk result (IsLeadTaken (presented F.ops O.order p.now) term.now work.old.terms v.now work.new.terms) }
{
    let Some((_lead, tail)) = v.terms().split_first() else {
        unreachable!()
    };
    let one = Monomial::one(alloc);
    let c = p.field.neg(term.by);
    work.add_scaled(&p.field, &p.order, tail, c, &one)?;
    Ok(())
}

/// Takes away the multiple of the value of a word that cancels a term above the chain.
fn take_known_value<F: Field, O: Order>(
    work: &mut TermChain<F>,
    alloc: Global,
    p: &Presentation<F, O>,
    _elements: &[Tracked<F>],
    term: &Term<F::Elem>,
    _w: &Monomial,
    value: &Poly<F>,
) -> Result<(), Memory>
    requires presentation { IsValid F.ops O.order p.now }
    requires monic { AreMonicElements (presented F.ops O.order p.now) (values_of _elements.now) }
    requires work { IsCanonical (F.ops p.now.field) (O.order p.now.order) (term.now ∷ work.old.terms) }
    requires standard { IsStandard (presented F.ops O.order p.now) term.now.at }
    requires word { IsSWord (letters (presented F.ops O.order p.now) (values_of _elements.now)) _w.now }
    requires least { IsLeast (letters (presented F.ops O.order p.now) (values_of _elements.now)) term.now.at _w.now }
    requires value { IsWordValue (presented F.ops O.order p.now) (values_of _elements.now) _w.now value.now }
    ensures { let P = presented F.ops O.order p.now in OnOk result (HasValueTaken P (values_of _elements.now)
        term.now work.old.terms _w.now work.new.terms) }
{
    subalgebra_laws::laws::combinations::<F>();
    subalgebra_laws::laws::words::<F>();
    cancel(work, alloc, p, term, value)?;
    Ok(())
}

/// Takes the value of a word away, whose lead is that of the term.
fn take_value<F: Field, O: Order>(
    work: &mut TermChain<F>,
    alloc: Global,
    p: &Presentation<F, O>,
    q: &Quotient<F, O>,
    elements: &[Tracked<F>],
    values: &mut Values<F>,
    term: &Term<F::Elem>,
    w: &Monomial,
) -> Result<(), Memory>
    requires presentation { IsValid F.ops O.order p.now }
    requires quotient { IsQuotientOf (presented F.ops O.order p.now) q.now }
    requires monic { AreMonicElements (presented F.ops O.order p.now) (values_of elements.now) }
    requires homogeneous { AreHomogeneousElements (presented F.ops O.order p.now) (values_of elements.now) }
    requires values { AreValues (presented F.ops O.order p.now) (values_of elements.now) values.old }
    requires work { IsCanonical (F.ops p.now.field) (O.order p.now.order) (term.now ∷ work.old.terms) }
    requires standard { IsStandard (presented F.ops O.order p.now) term.now.at }
    requires small { word_degree (presented F.ops O.order p.now) (values_of elements.now) w.now ≤ exponent_max }
    requires reach { let P = presented F.ops O.order p.now in
        (word_degree P (values_of elements.now) w.now ≤ q.now.degree) ⊎ (q.now.closed ≡ true) }
    requires word { IsSWord (letters (presented F.ops O.order p.now) (values_of elements.now)) w.now }
    requires least { IsLeast (letters (presented F.ops O.order p.now) (values_of elements.now)) term.now.at w.now }
    ensures values { AreValues (presented F.ops O.order p.now) (values_of elements.now) values.new }
    ensures words { let P = presented F.ops O.order p.now in let S = values_of elements.now in (d : ℕ) →
        AreWordsTo P S d values.old → word_degree P S w.now ≤ d → AreWordsTo P S d values.new }
    ensures taken { let P = presented F.ops O.order p.now in OnOk result (HasValueTaken P (values_of elements.now)
        term.now work.old.terms w.now work.new.terms) }
{
    match values.prepare(alloc, p, q, elements, w)? {
        Some(value) => take_known_value(work, alloc, p, elements, term, w, &value),
        None => {
            let Some(value) = values.get(p, elements, w) else {
                unreachable!()
            };
            take_known_value(work, alloc, p, elements, term, w, value)
        }
    }
}

/// The least word with the image m, or None if m is no product of leads.
fn word_with_image<F: Field, O: Order>(
    alloc: Global,
    _p: &Presentation<F, O>,
    b: &Basis<F, O>,
    m: &Monomial,
) -> Result<Option<Monomial>, Memory>
    requires presentation { IsValid F.ops O.order _p.now }
    requires basis { IsBasisOf (presented F.ops O.order _p.now) b.now }
    requires standard { IsStandard (presented F.ops O.order _p.now) m.now }
    requires small { (O.order _p.now.order).degree m.now ≤ degree_max }
    requires reach { ((O.order _p.now.order).degree m.now ≤ b.now.words.degree) ⊎ (b.now.words.closed ≡ true) }
    ensures s_word { IfOk result (λ v. IfSome v (IsSWord b.now.words.letters)) }
    ensures least { IfOk result (λ v. IfSome v (IsLeast b.now.words.letters m.now)) }
    ensures none { IfOk result (λ v. IsNone v → ¬ IsGenerated (map lead_monomial (values_of b.now.elements)) m.now) }
{
    subalgebra_laws::laws::words::<F>();
    let found = b.words().factor(alloc, m)?;
    Ok(found)
}

/// Takes a term above the chain away, by the value of a word, or else to the rest.
fn take_term<F: Field, O: Order>(
    alloc: Global,
    p: &Presentation<F, O>,
    b: &Basis<F, O>,
    values: &mut Values<F>,
    work: &mut TermChain<F>,
    parts: &mut Parts<F>,
    term: Term<F::Elem>,
) -> Result<(), Memory>
    requires presentation { IsValid F.ops O.order p.now }
    requires basis { IsBasisOf (presented F.ops O.order p.now) b.now }
    requires values { AreValues (presented F.ops O.order p.now) (values_of b.now.elements) values.old }
    requires work { IsCanonical (F.ops p.now.field) (O.order p.now.order) (term ∷ work.old.terms) }
    requires standard { IsStandard (presented F.ops O.order p.now) term.at }
    requires small { (O.order p.now.order).degree term.at ≤ degree_max }
    requires reach { ((O.order p.now.order).degree term.at ≤ b.now.words.degree) ⊎ IsKnownClosed b.now }
    ensures values { AreValues (presented F.ops O.order p.now) (values_of b.now.elements) values.new }
    ensures words { let P = presented F.ops O.order p.now in let S = values_of b.now.elements in (d : ℕ) →
        P.order.degree term.at ≤ d → AreWordsTo P S d values.old → AreWordsTo P S d values.new }
    ensures taken { let P = presented F.ops O.order p.now in OnOk result (IsTermTaken P (values_of b.now.elements)
        term work.old.terms work.new.terms parts.old.words.items parts.new.words.items
        parts.old.rest.items parts.new.rest.items) }
{
    let Some(w) = word_with_image(alloc, p, b, &term.at)? else {
        parts.rest.push(term)?;
        return Ok(());
    };
    take_value(
        work,
        alloc,
        p,
        b.quotient(),
        b.elements(),
        values,
        &term,
        &w,
    )?;
    parts.words.push(Term { at: w, by: term.by })?;
    Ok(())
}

/// Takes values of words away until no product of leads is left.
pub(crate) fn take_words<F: Field, O: Order>(
    alloc: Global,
    p: &Presentation<F, O>,
    b: &Basis<F, O>,
    values: &mut Values<F>,
    a: &Poly<F>,
) -> Result<Parts<F>, Memory>
    requires presentation { IsValid F.ops O.order p.now }
    requires basis { IsBasisOf (presented F.ops O.order p.now) b.now }
    requires values { AreValues (presented F.ops O.order p.now) (values_of b.now.elements) values.old }
    requires canonical { IsCanonical (F.ops p.now.field) (O.order p.now.order) a.now }
    requires standard { let P = presented F.ops O.order p.now in
        (m : Exponents) → coefficient P.field a.now m ≢ P.field.zero → IsStandard P m }
    requires small { degree_of (O.order p.now.order) a.now ≤ degree_max }
    requires reach { IsInReach (presented F.ops O.order p.now) b.now a.now }
    ensures values { AreValues (presented F.ops O.order p.now) (values_of b.now.elements) values.new }
    ensures words { let P = presented F.ops O.order p.now in let S = values_of b.now.elements in (d : ℕ) →
        degree_of P.order a.now ≤ d → AreWordsTo P S d values.old → AreWordsTo P S d values.new }
    ensures parts { let P = presented F.ops O.order p.now in
        IfOk result (λ r. IsSubducing P (values_of b.now.elements) a.now r.words.items r.rest.items []) }
{
    let mut work = chain_of(alloc, p, a)?;
    let mut parts = Parts {
        words: Vec::new(alloc),
        rest: Vec::new(alloc),
    };
    'subduce: while let Some(term) = work.pop_lead() {
        take_term(alloc, p, b, values, &mut work, &mut parts, term)?;
    }
    Ok(parts)
}
