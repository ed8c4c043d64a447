//! The step to the next degree: its new members are made aside, before the basis changes.
ghost use Rattle.std.specs.Prelude.{◌≡◌, ◌≢◌, ℕ, ◌+◌, ◌≤◌, ◌<◌, ◌⊎◌, [], false, true, length, map, OnOk, IfOk, Contains, slice_index_or};
ghost use Rattle.monomial_order.specs.Limits.{degree_max};
ghost use Rattle.monomial_order.specs.Monomial.{IsMultiple};
ghost use Rattle.polynomials.specs.Polynomial.{IsCanonical, degree_of, lead_monomial};
ghost use Rattle.polynomials.specs.Ideal.{InIdeal};
ghost use Rattle.poly_core.specs.Presentation.{presented, AreCanonicalGenerators};
ghost use Rattle.polynomials.specs.Subalgebra.{IsPresentation};
ghost use Rattle.quotient_gb.specs.Combinations.{HasStandardRepresentation};
ghost use Rattle.quotient_gb.specs.CriticalPairs.{HasPairsAt, IsCriticalPair};
ghost use Rattle.quotient_gb.specs.DegreeStep.{all_members, IsBasisTo, IsStepAfter, IsLaterStep, IsFinishedStep, ReducesGeneratorsAt, ReducesPair, DividesLeads, HasReducedTail};
ghost use Rattle.quotient_gb.specs.IdealBasis.{IsMonicMember};
ghost use Rattle.quotient_gb.specs.Remainder.{IsCanonicalIn};
ghost use Rattle.quotient_gb.specs.declared.critical_pair.CriticalPair.{CriticalPair};

use crate::basis::{Basis, insertion_index};
use crate::critical_pair::CriticalPair;
use crate::remainder::remainder;
use crate::s_polynomial::s_polynomial;
use monomial_order::{Memory, Order};
use poly_core::{Poly, Presentation};
use std::alloc::Global;
use word_field::Field;

/// The members of one degree that are found so far, in increasing order of their leads.
#[derive(Drop)]
pub(crate) struct DegreeStep<F: Field> {
    pub(crate) degree: u32,
    pub(crate) found: Basis<F>,
}

/// Whether the polynomial is not zero and its lead has the degree d.
fn has_degree<F: Field, O: Order>(o: &O, a: &Poly<F>, d: u32) -> bool
    requires { (f : F) × IsCanonical (F.ops f) (O.order o.now) a.now }
    ensures yes { result ≡ true → degree_of (O.order o.now) a.now ≡ d }
    ensures no { result ≡ false → (a.now ≡ []) ⊎ (degree_of (O.order o.now) a.now ≢ d) }
{
    match a.lead() {
        Some(first) => o.degree(&first.at) == d,
        None => false,
    }
}

impl<F: Field> DegreeStep<F> {
    /// The members of a degree whose leads are not multiples of those of the basis to the degree before.
    pub(crate) fn after<O: Order>(
        alloc: Global,
        p: &Presentation<F, O>,
        before: &Basis<F>,
        pairs: &[CriticalPair],
        degree: u32,
    ) -> Result<DegreeStep<F>, Memory>
        requires presentation { IsPresentation (presented F.ops O.order p.now) }
        requires ideal { AreCanonicalGenerators (F.ops p.now.field) (O.order p.now.order) p.now.ideal.items }
        requires places { (O.order p.now.order).places ≤ 32 }
        requires small { degree ≤ degree_max }
        requires before { (c : ℕ) × (degree ≡ c + 1) × IsBasisTo (presented F.ops O.order p.now) c before.now ×
            HasPairsAt (O.order p.now.order) before.now.leads.items degree pairs.now }
        ensures degree { IfOk result (λ s. s.degree ≡ degree) }
        ensures finished { IfOk result (IsFinishedStep (presented F.ops O.order p.now) before.now) }
    {
        let mut step = DegreeStep {
            degree,
            found: Basis::new(alloc),
        };
        step.add_generators(alloc, p, before)?;
        step.add_pairs(alloc, p, before, pairs)?;
        step.reduce_tails(alloc, p, before)?;
        Ok(step)
    }

    /// Inserts a member in the order of the leads.
    fn insert<O: Order>(
        &mut self,
        alloc: Global,
        p: &Presentation<F, O>,
        before: &Basis<F>,
        member: Poly<F>,
    ) -> Result<(), Memory>
        requires step { IsStepAfter (presented F.ops O.order p.now) before.now self.old }
        requires member { IsMonicMember (presented F.ops O.order p.now) member }
        requires at_most { (O.order p.now.order).degree (lead_monomial member) ≤ self.old.degree }
        requires fresh { ¬ IsMultiple (map lead_monomial (all_members before.now self.old)) (lead_monomial member) }
        ensures later { OnOk result (IsLaterStep (presented F.ops O.order p.now) before.now self.old self.new) }
        ensures member { OnOk result (Contains self.new.found.members.items member) }
    {
        let Some(first) = member.lead() else {
            unreachable!()
        };
        let lead = first.at.copy(alloc)?;
        let at = insertion_index(&p.order, self.found.leads.as_slice(), &lead);
        self.found.leads.insert(at, lead)?;
        self.found.members.insert(at, member)?;
        Ok(())
    }

    /// Inserts the monic remainder of a, if that is not zero.
    fn reduce_and_insert<O: Order>(
        &mut self,
        alloc: Global,
        p: &Presentation<F, O>,
        before: &Basis<F>,
        a: &Poly<F>,
    ) -> Result<(), Memory>
        requires step { IsStepAfter (presented F.ops O.order p.now) before.now self.old }
        requires canonical { IsCanonicalIn (presented F.ops O.order p.now) a.now }
        requires inside { InIdeal (F.ops p.now.field) (O.order p.now.order).places p.now.ideal.items a.now }
        requires at_most { degree_of (O.order p.now.order) a.now ≤ self.old.degree }
        ensures later { OnOk result (IsLaterStep (presented F.ops O.order p.now) before.now self.old self.new) }
        ensures reduces { OnOk result (HasStandardRepresentation (F.ops p.now.field) (O.order p.now.order)
            (all_members before.now self.new) a.now) }
    {
        let rest = remainder(alloc, p, before, &self.found, a)?;
        if rest.terms().is_empty() {
            return Ok(());
        }
        let member = Poly::monic(alloc, &p.field, &rest)?;
        self.insert(alloc, p, before, member)?;
        Ok(())
    }

    /// Reduces and inserts the generators of the ideal of the step's degree.
    fn add_generators<O: Order>(
        &mut self,
        alloc: Global,
        p: &Presentation<F, O>,
        before: &Basis<F>,
    ) -> Result<(), Memory>
        requires ideal { AreCanonicalGenerators (F.ops p.now.field) (O.order p.now.order) p.now.ideal.items }
        requires step { IsStepAfter (presented F.ops O.order p.now) before.now self.old }
        ensures later { OnOk result (IsLaterStep (presented F.ops O.order p.now) before.now self.old self.new) }
        ensures reduces { OnOk result (ReducesGeneratorsAt (presented F.ops O.order p.now) before.now self.new) }
    {
        'generators: for r in &p.ideal {
            if has_degree(&p.order, r, self.degree) {
                self.reduce_and_insert(alloc, p, before, r)?;
            }
        }
        Ok(())
    }

    /// Reduces and inserts the S-polynomial of a critical pair.
    fn add_s_polynomial<O: Order>(
        &mut self,
        alloc: Global,
        p: &Presentation<F, O>,
        before: &Basis<F>,
        pair: &CriticalPair,
    ) -> Result<(), Memory>
        requires step { IsStepAfter (presented F.ops O.order p.now) before.now self.old }
        requires pair { IsCriticalPair (O.order p.now.order) before.now.leads.items pair.now }
        requires degree { pair.now.degree ≡ self.old.degree }
        ensures later { OnOk result (IsLaterStep (presented F.ops O.order p.now) before.now self.old self.new) }
        ensures reduces { OnOk result (ReducesPair (presented F.ops O.order p.now) before.now self.new pair.now) }
    {
        let a = s_polynomial(
            alloc,
            p,
            &before.members[pair.first],
            &before.members[pair.second],
        )?;
        self.reduce_and_insert(alloc, p, before, &a)?;
        Ok(())
    }

    /// Reduces and inserts the S-polynomials of the critical pairs of the step's degree.
    fn add_pairs<O: Order>(
        &mut self,
        alloc: Global,
        p: &Presentation<F, O>,
        before: &Basis<F>,
        pairs: &[CriticalPair],
    ) -> Result<(), Memory>
        requires step { IsStepAfter (presented F.ops O.order p.now) before.now self.old }
        requires pairs { (w : CriticalPair) → Contains pairs.now w →
            IsCriticalPair (O.order p.now.order) before.now.leads.items w }
        ensures later { OnOk result (IsLaterStep (presented F.ops O.order p.now) before.now self.old self.new) }
        ensures reduces { OnOk result ((w : CriticalPair) → Contains pairs.now w → w.degree ≡ self.new.degree →
            ReducesPair (presented F.ops O.order p.now) before.now self.new w) }
    {
        'pairs: for w in pairs {
            if w.degree == self.degree {
                self.add_s_polynomial(alloc, p, before, w)?;
            }
        }
        Ok(())
    }

    /// The member that was found at an index, its tail reduced by all members.
    fn with_reduced_tail<O: Order>(
        &self,
        alloc: Global,
        p: &Presentation<F, O>,
        before: &Basis<F>,
        at: usize,
    ) -> Result<Poly<F>, Memory>
        requires step { IsStepAfter (presented F.ops O.order p.now) before.now self.now }
        requires index { at < length self.now.found.members.items }
        ensures member { IfOk result (IsMonicMember (presented F.ops O.order p.now)) }
        ensures lead { IfOk result (λ r.
            lead_monomial r ≡ lead_monomial (slice_index_or self.now.found.members.items at [])) }
        ensures tail { IfOk result (HasReducedTail (presented F.ops O.order p.now)
            (map lead_monomial (all_members before.now self.now))) }
    {
        let x = &self.found.members[at];
        let Some(first) = x.lead() else {
            unreachable!()
        };
        let front = Poly::term(alloc, &p.field, first.at.copy(alloc)?, first.by)?;
        let tail = Poly::sub(alloc, &p.field, &p.order, x, &front)?;
        let rest = remainder(alloc, p, before, &self.found, &tail)?;
        let member = Poly::add(alloc, &p.field, &p.order, &front, &rest)?;
        Ok(member)
    }

    /// Reduces the tails of the members that were found.
    fn reduce_tails<O: Order>(
        &mut self,
        alloc: Global,
        p: &Presentation<F, O>,
        before: &Basis<F>,
    ) -> Result<(), Memory>
        requires step { IsStepAfter (presented F.ops O.order p.now) before.now self.old }
        requires divides { DividesLeads (presented F.ops O.order p.now) before.now self.old }
        ensures degree { self.new.degree ≡ self.old.degree }
        ensures finished { OnOk result (IsFinishedStep (presented F.ops O.order p.now) before.now self.new) }
    {
        'tails: for i in 0..self.found.members.as_slice().len() {
            let member = self.with_reduced_tail(alloc, p, before, i)?;
            self.found.members[i] = member;
        }
        Ok(())
    }
}
