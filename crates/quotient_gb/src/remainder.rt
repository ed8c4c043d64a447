//! Reduction of a polynomial by monic members of the ideal.
ghost use Rattle.std.specs.Prelude.{◌≡◌, ◌≤◌, ◌++◌, ◌∷◌, Contains, IfOk, OnOk, IfSome, IsNone};
ghost use Rattle.monomial_order.specs.Monomial.{Divides};
ghost use Rattle.polynomials.specs.Polynomial.{lead_monomial};
ghost use Rattle.poly_core.specs.Presentation.{presented};
ghost use Rattle.polynomials.specs.Subalgebra.{IsPresentation};
ghost use Rattle.quotient_gb.specs.Combinations.{HasLeadDivisor};
ghost use Rattle.quotient_gb.specs.DegreeStep.{HasLeads};
ghost use Rattle.quotient_gb.specs.Remainder.{IsCanonicalIn, IsReducerIn, AreReducersIn, IsLeadReduction, IsRemainderIn};

use crate::basis::Basis;
use linked_terms::TermChain;
use monomial_order::{Memory, Monomial, Order, Term};
use poly_core::{Poly, Presentation};
use std::alloc::Global;
use word_field::Field;

/// The chain of the terms of a.
fn chain_of<F: Field, O: Order>(
    alloc: Global,
    p: &Presentation<F, O>,
    a: &Poly<F>,
) -> Result<TermChain<F>, Memory>
    requires presentation { IsPresentation (presented F.ops O.order p.now) }
    requires places { (O.order p.now.order).places ≤ 32 }
    requires a { IsCanonicalIn (presented F.ops O.order p.now) a.now }
    ensures { IfOk result (λ work. work.terms ≡ a.now) }
{
    let mut work = TermChain::new(alloc);
    let one = Monomial::one(alloc);
    work.reserve(a.terms().len())?;
    work.add_scaled(&p.field, &p.order, a.terms(), p.field.one(), &one)?;
    Ok(work)
}

/// Adds the multiple of g that cancels a term above the chain, without its lead.
fn cancel<F: Field, O: Order>(
    work: &mut TermChain<F>,
    alloc: Global,
    p: &Presentation<F, O>,
    term: Term<F::Elem>,
    g: &Poly<F>,
) -> Result<(), Memory>
    requires presentation { IsPresentation (presented F.ops O.order p.now) }
    requires places { (O.order p.now.order).places ≤ 32 }
    requires work { IsCanonicalIn (presented F.ops O.order p.now) (term ∷ work.old.terms) }
    requires g { IsReducerIn (presented F.ops O.order p.now) g.now }
    requires divides { Divides (lead_monomial g.now) term.at }
    ensures { OnOk result
        (IsLeadReduction (presented F.ops O.order p.now) (term ∷ work.old.terms) g.now work.new.terms) }
{
    let Some((top, tail)) = g.terms().split_first() else {
        unreachable!()
    };
    let Some(cofactor) = term.at.quotient(alloc, &top.at)? else {
        unreachable!()
    };
    work.reserve(tail.len())?;
    let c = p.field.neg(term.by);
    work.add_scaled(&p.field, &p.order, tail, c, &cofactor)?;
    Ok(())
}

/// A member of one of the two lists whose lead divides m.
fn find_reducer<'a, F: Field>(
    before: &'a Basis<F>,
    found: &'a Basis<F>,
    m: &Monomial,
) -> Option<&'a Poly<F>>
    requires before { HasLeads before.now }
    requires found { HasLeads found.now }
    ensures member { IfSome result (λ g. Contains (before.now.members.items ++ found.now.members.items) g.now) }
    ensures divides { IfSome result (λ g. Divides (lead_monomial g.now) m.now) }
    ensures none { IsNone result → ¬ HasLeadDivisor (before.now.members.items ++ found.now.members.items) m.now }
{
    match before.reducer(m) {
        Some(g) => Some(g),
        None => found.reducer(m),
    }
}

/// What is left of a when no multiple of a lead remains.
pub(crate) fn remainder<F: Field, O: Order>(
    alloc: Global,
    p: &Presentation<F, O>,
    before: &Basis<F>,
    found: &Basis<F>,
    a: &Poly<F>,
) -> Result<Poly<F>, Memory>
    requires presentation { IsPresentation (presented F.ops O.order p.now) }
    requires places { (O.order p.now.order).places ≤ 32 }
    requires a { IsCanonicalIn (presented F.ops O.order p.now) a.now }
    requires before { HasLeads before.now }
    requires found { HasLeads found.now }
    requires reducers { AreReducersIn (presented F.ops O.order p.now)
        (before.now.members.items ++ found.now.members.items) }
    ensures { IfOk result (IsRemainderIn (presented F.ops O.order p.now)
        (before.now.members.items ++ found.now.members.items) a.now) }
{
    let mut work = chain_of(alloc, p, a)?;
    let mut done = Vec::new(alloc);
    done.reserve(work.len())?;
    'reduce: while let Some(term) = work.pop_lead() {
        let Some(g) = find_reducer(before, found, &term.at) else {
            done.push(term)?;
            continue;
        };
        cancel(&mut work, alloc, p, term, g)?;
    }
    Ok(Poly::from_falling(done))
}

/// What is left of a when no multiple of a lead of the basis remains.
pub(crate) fn remainder_by<F: Field, O: Order>(
    alloc: Global,
    p: &Presentation<F, O>,
    basis: &Basis<F>,
    a: &Poly<F>,
) -> Result<Poly<F>, Memory>
    requires presentation { IsPresentation (presented F.ops O.order p.now) }
    requires places { (O.order p.now.order).places ≤ 32 }
    requires a { IsCanonicalIn (presented F.ops O.order p.now) a.now }
    requires basis { HasLeads basis.now }
    requires reducers { AreReducersIn (presented F.ops O.order p.now) basis.now.members.items }
    ensures { IfOk result (IsRemainderIn (presented F.ops O.order p.now) basis.now.members.items a.now) }
{
    let none = Basis::new(alloc);
    let rest = remainder(alloc, p, basis, &none, a)?;
    Ok(rest)
}
