//! The ideal of a presentation to a degree.
ghost use Rattle.std.specs.Prelude.{◌≡◌, ℕ, ◌≤◌, ◌<◌, ◌+◌, ◌↔◌, ◌⊎◌, [], max, true, false, IsTrue, IsOk, IfOk, OnOk, OnErr, Contains};
ghost use Rattle.monomial_order.specs.Limits.{degree_max};
ghost use Rattle.monomial_order.specs.Monomial.{IsMonomial, Exponents};
ghost use Rattle.polynomials.specs.Polynomial.{IsHomogeneous, degree_of};
ghost use Rattle.poly_core.specs.Presentation.{presented, AreCanonicalGenerators};
ghost use Rattle.polynomials.specs.Subalgebra.{Presented, IsPresentation, LeadsIdeal, IsStandard, IsNormalForm};
ghost use Rattle.monomial_order.specs.MonomialOrder.{IsIncreasing};
ghost use Rattle.quotient_gb.specs.CriticalPairs.{Waits};
ghost use Rattle.quotient_gb.specs.IdealBasis.{IsMinimalLead};
ghost use Rattle.quotient_gb.specs.Quotient.{closing_max, IsQuotientOf, IsExtension, IsClosed, HasGeneratorAbove, HasOtherLead, with_degree, with_closed};
ghost use Rattle.quotient_gb.specs.Remainder.{IsCanonicalIn};

use crate::basis::Basis;
use crate::critical_pair::{CriticalPair, critical_pairs, retain_above};
use crate::degree_step::DegreeStep;
use crate::later_degrees::{all_reduce_to_zero, has_generator_above};
use crate::remainder::remainder_by;
use crate::waiting_pairs::{push_waiting, take_waiting};
use degree_queue::DegreeQueue;
use monomial_order::{Memory, Monomial, Order};
use poly_core::{Poly, Presentation};
use std::alloc::Global;
use std::marker::{Model, PhantomData};
use word_field::Field;

/// What the reduced basis of an ideal to a degree says of the ideal.
#[derive(Drop)]
pub struct Quotient<F: Field, O: Order> {
    degree: u32,
    basis: Basis<F>,
    pairs: Vec<CriticalPair>,
    closed: bool,
    order: PhantomData<O>,
}

impl<F: Field, O: Order> Model for Quotient<F, O> {
    ghost use Rattle.quotient_gb.specs.Quotient.{QuotientState};

    ghost Value = { QuotientState F.Elem };

    ghost view = { λ q. record {
      degree = q.degree;
      leads = q.basis.leads.items;
      members = q.basis.members.items;
      pairs = q.pairs.items;
      closed = q.closed;
    } };
}

impl<F: Field, O: Order> Quotient<F, O> {
    /// The quotient to the degree 0.
    pub fn new(alloc: Global, _p: &Presentation<F, O>) -> Result<Quotient<F, O>, Memory>
        requires { IsPresentation (presented F.ops O.order _p.now) }
        ensures quotient { IfOk result (IsQuotientOf (presented F.ops O.order _p.now)) }
        ensures degree { IfOk result (λ q. q.degree ≡ 0) }
        ensures closed { IfOk result (λ q. q.closed ≡ false) }
        ensures ok { IsOk result }
    {
        Ok(Quotient {
            degree: 0,
            basis: Basis::new(alloc),
            pairs: Vec::new(alloc),
            closed: false,
            order: PhantomData,
        })
    }

    /// Goes on to the degree c, one degree after the other. If the degree is c or more already, nothing changes. If
    /// the quotient is known to be closed, only the degree changes.
    pub fn extend_to(&mut self, alloc: Global, p: &Presentation<F, O>, c: u32) -> Result<(), Memory>
        requires presentation { IsPresentation (presented F.ops O.order p.now) }
        requires places { (O.order p.now.order).places ≤ 32 }
        requires ideal { AreCanonicalGenerators (F.ops p.now.field) (O.order p.now.order) p.now.ideal.items }
        requires quotient { IsQuotientOf (presented F.ops O.order p.now) self.old }
        requires small { c ≤ degree_max }
        ensures quotient { IsQuotientOf (presented F.ops O.order p.now) self.new }
        ensures degree { OnOk result (self.new.degree ≡ max self.old.degree c) }
        ensures reached { c ≤ self.old.degree → IsOk result }
        ensures unchanged { c ≤ self.old.degree → self.new ≡ self.old }
        ensures closed { self.new.closed ≡ self.old.closed }
        ensures known { self.old.closed ≡ true →
            IsOk result × (self.new ≡ with_degree (max self.old.degree c) self.old) }
        ensures memory { OnErr result (self.new ≡ self.old) }
    {
        let degree = self.degree;
        if c <= degree {
            return Ok(());
        }
        if self.closed {
            self.degree = c;
            return Ok(());
        }
        let members = self.basis.members.as_slice().len();
        let pairs = self.pairs.as_slice().len();
        match self.add_degrees(alloc, p, c) {
            Ok(()) => {
                let reached = self.degree;
                retain_above(&mut self.pairs, reached);
                Ok(())
            }
            Err(memory) => {
                self.degree = degree;
                self.basis.members.truncate(members);
                self.basis.leads.truncate(members);
                self.pairs.truncate(pairs);
                Err(memory)
            }
        }
    }

    /// Adds the members of each degree up to c at the end.
    fn add_degrees(&mut self, alloc: Global, p: &Presentation<F, O>, c: u32) -> Result<(), Memory>
        requires presentation { IsPresentation (presented F.ops O.order p.now) }
        requires places { (O.order p.now.order).places ≤ 32 }
        requires ideal { AreCanonicalGenerators (F.ops p.now.field) (O.order p.now.order) p.now.ideal.items }
        requires quotient { IsQuotientOf (presented F.ops O.order p.now) self.old }
        requires small { c ≤ degree_max }
        ensures extension { IsExtension self.old self.new }
        ensures quotient { OnOk result (IsQuotientOf (presented F.ops O.order p.now) self.new) }
        ensures degree { OnOk result (self.new.degree ≡ max self.old.degree c) }
    {
        let mut waiting = DegreeQueue::new(alloc);
        push_waiting(&mut waiting, self.pairs.as_slice())?;
        'degrees: for _d in self.degree..c {
            self.add_degree(alloc, p, &mut waiting)?;
        }
        Ok(())
    }

    /// Adds the members of the next degree at the end.
    fn add_degree(
        &mut self,
        alloc: Global,
        p: &Presentation<F, O>,
        waiting: &mut DegreeQueue<CriticalPair>,
    ) -> Result<(), Memory>
        requires presentation { IsPresentation (presented F.ops O.order p.now) }
        requires places { (O.order p.now.order).places ≤ 32 }
        requires ideal { AreCanonicalGenerators (F.ops p.now.field) (O.order p.now.order) p.now.ideal.items }
        requires quotient { IsQuotientOf (presented F.ops O.order p.now) self.old }
        requires small { self.old.degree < degree_max }
        requires waiting { Waits self.old.degree self.old.pairs waiting.old }
        ensures extension { IsExtension self.old self.new }
        ensures quotient { OnOk result (IsQuotientOf (presented F.ops O.order p.now) self.new) }
        ensures degree { OnOk result (self.new.degree ≡ self.old.degree + 1) }
        ensures waiting { OnOk result (Waits self.new.degree self.new.pairs waiting.new) }
    {
        let degree = self.degree + 1;
        let waited = take_waiting(alloc, waiting, degree)?;
        let mut step = DegreeStep::after(alloc, p, &self.basis, waited.as_slice(), degree)?;
        let start = self.basis.leads.as_slice().len();
        self.basis.members.append(&mut step.found.members)?;
        self.basis.leads.append(&mut step.found.leads)?;
        let mut pairs = critical_pairs(alloc, &p.order, self.basis.leads.as_slice(), start)?;
        push_waiting(waiting, pairs.as_slice())?;
        self.pairs.append(&mut pairs)?;
        self.degree = degree;
        Ok(())
    }

    /// The minimal leads of the ideal of degree at most that of the quotient, in increasing order.
    pub fn leads(&self) -> &[Monomial]
        ensures value { result.now ≡ self.now.leads }
        ensures increasing { (P : Presented F.Elem) → IsPresentation P → IsQuotientOf P self.now →
            IsIncreasing P.order result.now }
        ensures each { (P : Presented F.Elem) → IsPresentation P → IsQuotientOf P self.now →
            (m : Exponents) → Contains result.now m → IsMinimalLead P m × (P.order.degree m ≤ self.now.degree) }
        ensures all { (P : Presented F.Elem) → IsPresentation P → IsQuotientOf P self.now →
            (m : Exponents) → IsMinimalLead P m → P.order.degree m ≤ self.now.degree → Contains result.now m }
    {
        self.basis.leads.as_slice()
    }

    /// The normal form of a polynomial of degree at most that of the quotient, or of any polynomial if the quotient is
    /// known to be closed.
    pub fn normal_form(
        &self,
        alloc: Global,
        p: &Presentation<F, O>,
        a: &Poly<F>,
    ) -> Result<Poly<F>, Memory>
        requires presentation { IsPresentation (presented F.ops O.order p.now) }
        requires places { (O.order p.now.order).places ≤ 32 }
        requires quotient { IsQuotientOf (presented F.ops O.order p.now) self.now }
        requires canonical { IsCanonicalIn (presented F.ops O.order p.now) a.now }
        requires degree { (degree_of (O.order p.now.order) a.now ≤ self.now.degree) ⊎ (self.now.closed ≡ true) }
        ensures canonical { IfOk result (IsCanonicalIn (presented F.ops O.order p.now)) }
        ensures normal { IfOk result (IsNormalForm (presented F.ops O.order p.now) a.now) }
        ensures degree { IfOk result (λ b. degree_of (O.order p.now.order) b ≤ degree_of (O.order p.now.order) a.now) }
        ensures homogeneous { let K = F.ops p.now.field in let order = O.order p.now.order in
            IfOk result (λ b. (d : ℕ) → IsHomogeneous K order d a.now → (b ≡ []) ⊎ IsHomogeneous K order d b) }
    {
        let rest = remainder_by(alloc, p, &self.basis, a)?;
        Ok(rest)
    }

    /// Whether a monomial of degree at most that of the quotient is standard, or any monomial if the quotient is known
    /// to be closed.
    pub fn is_standard(&self, m: &Monomial) -> bool
        ensures yes { result ≡ true → (P : Presented F.Elem) → IsPresentation P → IsQuotientOf P self.now →
            IsMonomial P.order.places m.now → (P.order.degree m.now ≤ self.now.degree) ⊎ (self.now.closed ≡ true) →
            IsStandard P m.now }
        ensures no { result ≡ false → (P : Presented F.Elem) → IsPresentation P → IsQuotientOf P self.now →
            IsMonomial P.order.places m.now → LeadsIdeal P m.now }
    {
        'search: for lead in &self.basis.leads {
            if lead.divides(m) {
                return false;
            }
        }
        true
    }

    /// Whether no generator of the ideal has a degree above that of the quotient and each lead of the ideal is a
    /// multiple of one of `leads`. It reduces the S-polynomials of the critical pairs above the degree, and ends at the
    /// first that does not reduce to zero.
    pub fn closed(&mut self, alloc: Global, p: &Presentation<F, O>) -> Result<bool, Memory>
        requires presentation { IsPresentation (presented F.ops O.order p.now) }
        requires places { (O.order p.now.order).places ≤ 32 }
        requires ideal { AreCanonicalGenerators (F.ops p.now.field) (O.order p.now.order) p.now.ideal.items }
        requires quotient { IsQuotientOf (presented F.ops O.order p.now) self.old }
        requires small { self.old.degree ≤ closing_max }
        ensures quotient { IsQuotientOf (presented F.ops O.order p.now) self.new }
        ensures yes { IfOk result (λ r. r ≡ true →
            IsClosed (presented F.ops O.order p.now) self.old.degree self.old.leads) }
        ensures no { IfOk result (λ r. r ≡ false → HasGeneratorAbove (presented F.ops O.order p.now) self.old.degree ⊎
            HasOtherLead (presented F.ops O.order p.now) self.old.leads) }
        ensures state { IfOk result (λ r. self.new ≡ with_closed r self.old) }
        ensures known { self.old.closed ≡ true → IsOk result }
        ensures memory { OnErr result (self.new ≡ self.old) }
    {
        if self.closed {
            return Ok(true);
        }
        if has_generator_above(p, self.degree) {
            return Ok(false);
        }
        let closed = all_reduce_to_zero(alloc, p, &self.basis, self.pairs.as_slice())?;
        self.closed = closed;
        Ok(closed)
    }

    /// Whether `closed` has answered true.
    pub fn known_closed(&self) -> bool
        ensures state { IsTrue result ↔ IsTrue self.now.closed }
        ensures closed { result ≡ true → (P : Presented F.Elem) → IsPresentation P → IsQuotientOf P self.now →
            IsClosed P self.now.degree self.now.leads }
    {
        self.closed
    }
}
