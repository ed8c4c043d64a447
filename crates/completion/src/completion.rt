//! Completions.
ghost use Rattle.std.specs.Prelude.{◌≡◌, suc, ◌≤◌, ◌<◌, [], ◌++◌, List, length, max, min, remove, true, false, All, if◌then◌else◌, OnOk, OnErr, IfOk};
ghost use Rattle.poly_core.specs.Presentation.{presented, IsValid};
ghost use Rattle.polynomials.specs.Subalgebra.{IsReducedBasis};
ghost use Rattle.subalgebra_laws.specs.Bases.{IsClosedAt};
ghost use Rattle.witness.specs.Tracking.{values_of};
ghost use Rattle.subduction.specs.Basis.{IsBasisOf, IsKnownClosed};
ghost use Rattle.subduction.specs.Cutting.{IsCutAt};
ghost use Rattle.completion.specs.declared.relations.Relation.{Relation};
ghost use Rattle.completion.specs.Candidates.{AreCandidates, IsCandidate};
ghost use Rattle.completion.specs.Closed.{HasLater};
ghost use Rattle.completion.specs.Completion.{elements_of, pending_of, AreKept, IsCompletion, IsUnchanged};
ghost use Rattle.completion.specs.LetterNames.{element_names};
ghost use Rattle.completion.specs.RelationLines.{IsPrintable};
ghost use Rattle.completion.specs.Relations.{AreRelations};
ghost use Rattle.completion.specs.Report.{IsReport};
ghost use Rattle.completion.specs.Taking.{IsTreated};
ghost use Rattle.subduction.specs.Subduced.{CanSubduce, IsSubduced};

use crate::candidates::{queue_candidates, words_at};
use crate::closing::{closing_laws, made_sides, push_relations, settle_last};
use crate::cutting::low_count;
use crate::insertion::{insert_found, insert_generator};
use crate::later::has_nothing_later;
use crate::report::report_on;
use crate::{Candidate, Found, Pick, Relation};
use degree_queue::DegreeQueue;
use monomial_order::{Memory, Order};
use poly_core::{Poly, Presentation};
use std::alloc::Global;
use std::marker::Model;
use std::mem;
use subduction::{Basis, Subduced, Values, subduce_with};
use witness::Tracked;
use word_field::Field;

/// The greatest degree that can be closed.
pub const BOUND_MAX: u32 = 15000;

/// The reduced basis of a presentation to a degree, with its relations. It goes on degree by degree.
#[derive(Drop)]
pub struct Completion<F: Field, O: Order> {
    pub(crate) presentation: Presentation<F, O>,
    pub(crate) basis: Basis<F, O>,
    pub(crate) values: Values<F>,
    pub(crate) kept: u32,
    pub(crate) relations: Vec<Relation<F>>,
    pub(crate) degree: u32,
    pub(crate) read: u32,
    pub(crate) begun: bool,
    pub(crate) queue: DegreeQueue<Candidate>,
    pub(crate) found: Vec<Found<F>>,
}

impl<F: Field, O: Order> Model for Completion<F, O> {
    ghost use Rattle.completion.specs.Completion.{CompletionState};

    ghost Value = { CompletionState F O F.Elem };

    ghost view = { λ c. record {
      presentation = c.presentation;
      basis = c.basis;
      values = c.values;
      kept = c.kept;
      relations = c.relations.items;
      degree = c.degree;
      read = c.read;
      begun = c.begun;
      queue = c.queue;
      found = c.found.items;
    } };
}

impl<F: Field, O: Order> Completion<F, O> {
    /// The empty basis, to the degree 0.
    pub fn new(alloc: Global, p: Presentation<F, O>) -> Result<Completion<F, O>, Memory>
        requires presentation { IsValid F.ops O.order p }
        ensures completion { IfOk result (IsCompletion F.ops O.order) }
        ensures presentation { IfOk result (λ c. c.presentation ≡ p) }
        ensures degree { IfOk result (λ c. c.degree ≡ 0) }
        ensures begun { IfOk result (λ c. c.begun ≡ false) }
        ensures read { IfOk result (λ c. c.read ≡ 0) }
    {
        subalgebra_laws::laws::lower_bases::<F>();
        let basis = Basis::new(alloc, &p)?;
        let values = Values::new(alloc, BOUND_MAX);
        let relations = Vec::new(alloc);
        let queue = DegreeQueue::new(alloc);
        Ok(Completion {
            presentation: p,
            basis,
            values,
            kept: 0,
            relations,
            degree: 0,
            read: 0,
            begun: false,
            queue,
            found: Vec::new(alloc),
        })
    }

    /// The completion at the closed degree c that has these elements and relations. Witnesses stay as they are, short
    /// or not. It takes no memory.
    pub fn restore(
        alloc: Global,
        p: Presentation<F, O>,
        c: u32,
        b: Basis<F, O>,
        relations: Vec<Relation<F>>,
    ) -> Completion<F, O>
        requires presentation { IsValid F.ops O.order p }
        requires small { c ≤ BOUND_MAX }
        requires basis { IsBasisOf (presented F.ops O.order p) b }
        requires quotient { b.quotient.degree ≡ c }
        requires words { b.words.degree ≡ c }
        requires reduced { IsReducedBasis (presented F.ops O.order p) c (values_of b.elements) }
        requires relations { let P = presented F.ops O.order p in
            AreRelations P (values_of b.elements) c relations.items }
        ensures completion { IsCompletion F.ops O.order result }
        ensures presentation { result.presentation ≡ p }
        ensures basis { result.basis ≡ b }
        ensures relations { result.relations ≡ relations.items }
        ensures degree { result.degree ≡ c }
        ensures begun { result.begun ≡ false }
        ensures read { result.read ≡ c }
    {
        Completion {
            presentation: p,
            basis: b,
            values: Values::new(alloc, BOUND_MAX),
            kept: 0,
            relations,
            degree: c,
            read: c,
            begun: false,
            queue: DegreeQueue::new(alloc),
            found: Vec::new(alloc),
        }
    }

    /// Begins the next degree: its candidates are the generators of this degree, in their order, and then the minimal
    /// reducible s-words, in increasing order.
    pub fn begin_degree(&mut self, alloc: Global) -> Result<(), Memory>
        requires completion { IsCompletion F.ops O.order self.old }
        requires not_begun { self.old.begun ≡ false }
        requires small { self.old.degree < BOUND_MAX }
        ensures completion { IsCompletion F.ops O.order self.new }
        ensures begun { OnOk result (self.new.begun ≡ true) }
        ensures candidates { let P = presented F.ops O.order self.old.presentation in OnOk result
            (AreCandidates P (suc self.old.degree) (length self.new.found) (pending_of self.new)) }
        ensures degree { self.new.degree ≡ self.old.degree }
        ensures kept { AreKept (presented F.ops O.order self.old.presentation) self.old self.new }
        ensures memory { OnErr result (IsUnchanged self.old self.new) }
    {
        let d = self.degree + 1;
        self.basis.extend_to(alloc, &self.presentation, d)?;
        let found = words_at(alloc, &self.presentation, &self.basis)?;
        let count = found.as_slice().len();
        queue_candidates(&self.presentation, &mut self.queue, d, count)?;
        self.found = found;
        self.begun = true;
        Ok(())
    }

    /// How many candidates wait.
    pub fn pending(&self) -> usize
        requires { IsCompletion F.ops O.order self.now }
        ensures { result ≡ length (pending_of self.now) }
    {
        self.queue.len(self.degree + 1)
    }

    /// Treats the candidate at index k.
    pub fn take(&mut self, alloc: Global, k: usize) -> Result<(), Memory>
        requires completion { IsCompletion F.ops O.order self.old }
        requires begun { self.old.begun ≡ true }
        requires inside { k < length (pending_of self.old) }
        ensures completion { IsCompletion F.ops O.order self.new }
        ensures begun { self.new.begun ≡ true }
        ensures rest { OnOk result (pending_of self.new ≡ remove (pending_of self.old) k) }
        ensures degree { self.new.degree ≡ self.old.degree }
        ensures kept { AreKept (presented F.ops O.order self.old.presentation) self.old self.new }
        ensures memory { OnErr result (IsUnchanged self.old self.new) }
    {
        subalgebra_laws::laws::growing::<F>();
        let degree = self.degree + 1;
        let candidate = *self.queue.get(degree, k);
        self.take_candidate(alloc, candidate)?;
        let _candidate = self.queue.pop_at(degree, k);
        Ok(())
    }

    /// Makes a candidate of the degree a combination.
    fn take_candidate(&mut self, alloc: Global, candidate: Candidate) -> Result<(), Memory>
        requires completion { IsCompletion F.ops O.order self.old }
        requires begun { self.old.begun ≡ true }
        requires candidate { let P = presented F.ops O.order self.old.presentation in
            IsCandidate P (suc self.old.degree) (length self.old.found) candidate }
        ensures completion { IsCompletion F.ops O.order self.new }
        ensures treated { let P = presented F.ops O.order self.old.presentation in
            OnOk result (IsTreated P self.new candidate) }
        ensures queue { self.new.queue ≡ self.old.queue }
        ensures begun { self.new.begun ≡ true }
        ensures degree { self.new.degree ≡ self.old.degree }
        ensures kept { AreKept (presented F.ops O.order self.old.presentation) self.old self.new }
        ensures memory { OnErr result (IsUnchanged self.old self.new) }
    {
        subalgebra_laws::laws::growing::<F>();
        self.kept = self.kept.max(self.degree + 1);
        match candidate {
            Candidate::Generator(i) => insert_generator(
                alloc,
                &self.presentation,
                &mut self.basis,
                &mut self.values,
                i,
            ),
            Candidate::Word(j) => insert_found(
                alloc,
                &self.presentation,
                &mut self.basis,
                &mut self.values,
                &mut self.found[j],
            ),
        }
    }

    /// Ends the degree, if no candidate waits.
    pub fn close_degree(&mut self, alloc: Global) -> Result<(), Memory>
        requires completion { IsCompletion F.ops O.order self.old }
        requires begun { self.old.begun ≡ true }
        requires none_pending { pending_of self.old ≡ [] }
        ensures completion { IsCompletion F.ops O.order self.new }
        ensures closed { OnOk result (self.new.begun ≡ false) }
        ensures degree { OnOk result (self.new.degree ≡ suc self.old.degree) }
        ensures kept { AreKept (presented F.ops O.order self.old.presentation) self.old self.new }
        ensures memory_begun { OnErr result (self.new.begun ≡ true) }
        ensures memory_degree { OnErr result (self.new.degree ≡ self.old.degree) }
        ensures memory_pending { OnErr result (pending_of self.new ≡ []) }
        ensures memory_relations { OnErr result (self.new.relations ≡ self.old.relations) }
    {
        closing_laws::<F>();
        quotient_gb::laws::quotients_decide::<F>();
        settle_last(
            alloc,
            &self.presentation,
            &mut self.basis,
            &mut self.values,
            &mut self.kept,
        )?;
        let found = self.found.as_slice();
        let sides = made_sides(
            alloc,
            &self.presentation,
            &self.basis,
            &mut self.values,
            found,
        )?;
        self.relations.reserve(self.found.len())?;
        let found = mem::replace(&mut self.found, Vec::new(alloc));
        push_relations(&mut self.relations, found, sides);
        self.degree += 1;
        self.begun = false;
        Ok(())
    }

    /// Begins the next degree, takes its candidates and ends it. The j-th candidate that is taken is at the index of
    /// the j-th pick modulo the number of those that wait, and the first one if the picks are spent.
    pub fn close_with(&mut self, alloc: Global, picks: &[usize]) -> Result<(), Memory>
        requires completion { IsCompletion F.ops O.order self.old }
        requires not_begun { self.old.begun ≡ false }
        requires small { self.old.degree < BOUND_MAX }
        ensures completion { IsCompletion F.ops O.order self.new }
        ensures closed { OnOk result (self.new.begun ≡ false) }
        ensures degree { OnOk result (self.new.degree ≡ suc self.old.degree) }
        ensures kept { AreKept (presented F.ops O.order self.old.presentation) self.old self.new }
        ensures memory { OnErr result (self.new.degree ≡ self.old.degree) }
    {
        self.begin_degree(alloc)?;
        self.take_picked(alloc, picks)?;
        self.close_degree(alloc)?;
        Ok(())
    }

    /// Ends the degree that is begun, whatever d is, and then closes all degrees up to d. Values of words that no
    /// degree up to d can need are not kept.
    pub fn run_to(&mut self, alloc: Global, d: u32, pick: Pick) -> Result<(), Memory>
        requires completion { IsCompletion F.ops O.order self.old }
        requires small { d ≤ BOUND_MAX }
        ensures completion { IsCompletion F.ops O.order self.new }
        ensures closed { OnOk result (self.new.begun ≡ false) }
        ensures degree { OnOk result
            (self.new.degree ≡ max d (if self.old.begun then suc self.old.degree else self.old.degree)) }
        ensures kept { AreKept (presented F.ops O.order self.old.presentation) self.old self.new }
        ensures memory { OnErr result (self.old.degree ≤ self.new.degree) }
    {
        self.limit_values(d);
        self.end_begun(alloc, pick)?;
        self.close_to(alloc, d, pick)?;
        self.limit_values(BOUND_MAX);
        Ok(())
    }

    /// From now on values of words are kept if degrees up to the limit can need them.
    fn limit_values(&mut self, limit: u32)
        ensures { self.new ≡ self.old }
    {
        self.values.set_limit(limit);
    }

    /// Goes back to the closed degree d: elements and relations of greater degree are taken away. Witnesses stay.
    pub fn cut_to(&mut self, alloc: Global, d: u32) -> Result<(), Memory>
        requires completion { IsCompletion F.ops O.order self.old }
        requires not_begun { self.old.begun ≡ false }
        requires below { d ≤ self.old.degree }
        ensures completion { IsCompletion F.ops O.order self.new }
        ensures begun { self.new.begun ≡ false }
        ensures presentation { self.new.presentation ≡ self.old.presentation }
        ensures degree { OnOk result (self.new.degree ≡ d) }
        ensures read { OnOk result (self.new.read ≡ min self.old.read d) }
        ensures elements { let P = presented F.ops O.order self.old.presentation in
            OnOk result (IsCutAt P d self.old.basis.elements self.new.basis.elements) }
        ensures relations { OnOk result
            ((rest : List (Relation F F.Elem)) × (self.old.relations ≡ self.new.relations ++ rest)) }
        ensures memory { OnErr result (self.new ≡ self.old) }
    {
        subalgebra_laws::laws::growing::<F>();
        subalgebra_laws::laws::lower_bases::<F>();
        let count = low_count(self.basis.words().order(), self.relations.as_slice(), d);
        self.basis.cut_to(alloc, &self.presentation, d)?;
        self.relations.truncate(count);
        self.values = Values::new(alloc, BOUND_MAX);
        self.kept = 0;
        self.degree = d;
        self.read = self.read.min(d);
        self.queue = DegreeQueue::new(alloc);
        self.found = Vec::new(alloc);
        Ok(())
    }

    /// The degree to which the basis is closed.
    pub fn closed_degree(&self) -> u32
        ensures { result ≡ self.now.degree }
    {
        self.degree
    }

    /// What is completed.
    pub fn presentation(&self) -> &Presentation<F, O>
        ensures { result.now ≡ self.now.presentation }
    {
        &self.presentation
    }

    /// The reduced basis to the closed degree, with witnesses.
    pub fn basis(&self) -> &[Tracked<F>]
        requires completion { IsCompletion F.ops O.order self.now }
        requires not_begun { self.now.begun ≡ false }
        ensures value { result.now ≡ self.now.basis.elements }
        ensures reduced { let P = presented F.ops O.order self.now.presentation in
            IsReducedBasis P self.now.degree (values_of result.now) }
    {
        self.basis.elements()
    }

    /// The minimal reducible s-words to the closed degree in increasing order, each with its right side.
    pub fn relations(&self) -> &[Relation<F>]
        requires completion { IsCompletion F.ops O.order self.now }
        requires not_begun { self.now.begun ≡ false }
        ensures value { result.now ≡ self.now.relations }
        ensures exact { let P = presented F.ops O.order self.now.presentation in
            AreRelations P (elements_of self.now) self.now.degree result.now }
        ensures printable { let P = presented F.ops O.order self.now.presentation in
            All (IsPrintable P.field (element_names P.order.places)) result.now }
    {
        self.relations.as_slice()
    }

    /// The basis with its quotient and words.
    pub fn lower(&self) -> &Basis<F, O>
        requires completion { IsCompletion F.ops O.order self.now }
        requires not_begun { self.now.begun ≡ false }
        ensures value { result.now ≡ self.now.basis }
        ensures basis { IsBasisOf (presented F.ops O.order self.now.presentation) result.now }
        ensures words { self.now.degree ≤ result.now.words.degree }
        ensures quotient { self.now.degree ≤ result.now.quotient.degree }
    {
        &self.basis
    }

    /// Whether nothing new comes after the closed degree: the basis then is the reduced basis to each greater degree.
    pub fn is_complete(&mut self, alloc: Global) -> Result<bool, Memory>
        requires completion { IsCompletion F.ops O.order self.old }
        requires not_begun { self.old.begun ≡ false }
        requires some { 1 ≤ self.old.degree }
        ensures completion { IsCompletion F.ops O.order self.new }
        ensures unchanged { IsUnchanged self.old self.new }
        ensures yes { let P = presented F.ops O.order self.old.presentation in
            IfOk result (λ r. r ≡ true → IsClosedAt P self.old.degree (elements_of self.old)) }
        ensures known { IfOk result (λ r. r ≡ true → IsKnownClosed self.new.basis) }
        ensures no { let P = presented F.ops O.order self.old.presentation in
            IfOk result (λ r. r ≡ false → HasLater P self.old.degree (elements_of self.old)) }
    {
        has_nothing_later(alloc, &self.presentation, &mut self.basis, self.degree)
    }

    /// The report on the presentation to the closed degree, with the mark of `is_complete`.
    pub fn report(&mut self, alloc: Global) -> Result<Vec<u8>, Memory>
        requires completion { IsCompletion F.ops O.order self.old }
        requires not_begun { self.old.begun ≡ false }
        requires some { 1 ≤ self.old.degree }
        ensures completion { IsCompletion F.ops O.order self.new }
        ensures unchanged { IsUnchanged self.old self.new }
        ensures report { let P = presented F.ops O.order self.old.presentation in
            IfOk result (λ v. IsReport P self.old.presentation.names self.old.degree v.items) }
    {
        let complete = self.is_complete(alloc)?;
        let elements = self.basis.elements();
        report_on(alloc, &self.presentation, self.degree, elements, complete)
    }

    /// Subducts by the basis, with the values of words that are kept.
    pub fn subduce(&mut self, alloc: Global, t: &Tracked<F>) -> Result<Subduced<F>, Memory>
        requires completion { IsCompletion F.ops O.order self.old }
        requires not_begun { self.old.begun ≡ false }
        requires can { CanSubduce (presented F.ops O.order self.old.presentation) self.old.basis t.now }
        ensures completion { IsCompletion F.ops O.order self.new }
        ensures unchanged { IsUnchanged self.old self.new }
        ensures basis { self.new.basis ≡ self.old.basis }
        ensures subduced { let P = presented F.ops O.order self.old.presentation in
            IfOk result (IsSubduced P self.old.basis t.now) }
    {
        let degree = Poly::degree(&self.presentation.order, &t.value).unwrap_or(0);
        self.kept = self.kept.max(degree);
        subduce_with(alloc, &self.presentation, &self.basis, &mut self.values, t)
    }
}
