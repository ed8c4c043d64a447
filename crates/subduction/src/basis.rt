//! Bases to a degree.
ghost use Rattle.std.specs.Prelude.{◌≡◌, ◌≢◌, ℕ, ◌≤◌, ◌⊎◌, ◌++◌, ◌∷◌, [], map, max, length, true, false, IfOk, OnOk, OnErr};
ghost use Rattle.monomial_order.specs.Limits.{degree_max};
ghost use Rattle.monomial_order.specs.MonomialOrder.{IsIncreasing};
ghost use Rattle.polynomials.specs.Polynomial.{lead_monomial};
ghost use Rattle.poly_core.specs.Presentation.{presented, IsValid};
ghost use Rattle.quotient_gb.specs.Quotient.{closing_max, HasGeneratorAbove, HasOtherLead, with_closed};
ghost use Rattle.toric_ideal.specs.Listing.{IsListing, IsSettled};
ghost use Rattle.subalgebra_laws.specs.Bases.{HasMinimalLeads, IsMonicElement};
ghost use Rattle.witness.specs.Tracking.{values_of, IsShort, UsesLower};
ghost use Rattle.subduction.specs.Basis.{AreSettled, AreShortAt, HasNext, HasOtherWord, IsBasisOf, IsKnownClosed, IsNewElement};
ghost use Rattle.subduction.specs.Cutting.{IsCutAt};

use crate::cutting::words_over;
use crate::ideal_leads::{monomials_to, variable_degrees};
use crate::new_elements::{next_element, push_lead_of, with_place};
use crate::settling::{lower_count, put_last, reduced_by_each_other};
use monomial_order::{Memory, Order, WordOrder};
use poly_core::Presentation;
use quotient_gb::Quotient;
use std::alloc::Global;
use std::marker::Model;
use toric_ideal::Words;
use witness::Tracked;
use word_field::Field;

/// Elements with their witnesses, one for each lead of the words, and the quotient by the ideal.
#[derive(Drop)]
pub struct Basis<F: Field, O: Order> {
    quotient: Quotient<F, O>,
    words: Words,
    elements: Vec<Tracked<F>>,
    by_order: WordOrder,
}

impl<F: Field, O: Order> Model for Basis<F, O> {
    ghost use Rattle.subduction.specs.Basis.{BasisState};

    ghost Value = { BasisState F F.Elem };

    ghost view = { λ b. record {
      quotient = b.quotient;
      words = b.words;
      elements = b.elements.items;
      by_order = b.by_order;
    } };
}

/// The rules of the words are exact.
pub(crate) fn words_are_listed(words: &Words)
    ensures { IsListing words.now }
{
    words.leads();
}

impl<F: Field, O: Order> Basis<F, O> {
    /// No element, to the degree 0.
    pub fn new(alloc: Global, p: &Presentation<F, O>) -> Result<Basis<F, O>, Memory>
        requires presentation { IsValid F.ops O.order p.now }
        ensures basis { IfOk result (IsBasisOf (presented F.ops O.order p.now)) }
        ensures elements { IfOk result (λ b. b.elements ≡ []) }
        ensures quotient { IfOk result (λ b. b.quotient.degree ≡ 0) }
        ensures words { IfOk result (λ b. b.words.degree ≡ 0) }
    {
        let degrees = variable_degrees(alloc, &p.order)?;
        let basis = Basis {
            quotient: Quotient::new(alloc, p)?,
            words: Words::new(alloc, degrees.as_slice())?,
            elements: Vec::new(alloc),
            by_order: p.gen_order.copy(alloc)?,
        };
        words_are_listed(&basis.words);
        Ok(basis)
    }

    /// Each of the degrees of the quotient and the words becomes the greater of the old one and c.
    pub fn extend_to(&mut self, alloc: Global, p: &Presentation<F, O>, c: u32) -> Result<(), Memory>
        requires presentation { IsValid F.ops O.order p.now }
        requires basis { IsBasisOf (presented F.ops O.order p.now) self.old }
        requires small { c ≤ degree_max }
        ensures basis { IsBasisOf (presented F.ops O.order p.now) self.new }
        ensures elements { self.new.elements ≡ self.old.elements }
        ensures by_order { self.new.by_order ≡ self.old.by_order }
        ensures quotient { OnOk result (self.new.quotient.degree ≡ max self.old.quotient.degree c) }
        ensures words { OnOk result (self.new.words.degree ≡ max self.old.words.degree c) }
        ensures quotient_closed { self.new.quotient.closed ≡ self.old.quotient.closed }
        ensures memory { OnErr result
            (((self.new.quotient.degree ≡ self.old.quotient.degree) ⊎ (self.new.quotient.degree ≡ c)) ×
            (self.new.words ≡ self.old.words)) }
    {
        self.quotient.extend_to(alloc, p, c)?;
        if c <= self.words.degree() {
            return Ok(());
        }
        let zeros = monomials_to(alloc, &p.order, self.quotient.leads(), c)?;
        self.words.extend_to(alloc, c, zeros.as_slice())?;
        words_are_listed(&self.words);
        Ok(())
    }

    /// Adds an element of the last degree, divided by its first coefficient. A monic element without a letter of the
    /// last degree in its witness is kept as it is.
    pub fn push(
        &mut self,
        alloc: Global,
        p: &Presentation<F, O>,
        t: Tracked<F>,
    ) -> Result<(), Memory>
        requires presentation { IsValid F.ops O.order p.now }
        requires basis { IsBasisOf (presented F.ops O.order p.now) self.old }
        requires element { IsNewElement (presented F.ops O.order p.now) self.old t }
        ensures basis { IsBasisOf (presented F.ops O.order p.now) self.new }
        ensures next { OnOk result (HasNext (presented F.ops O.order p.now) t self.old.elements self.new.elements) }
        ensures short { let P = presented F.ops O.order p.now in let d = self.old.words.degree in
            OnOk result (IsShort P.field (length P.generators) t.by → AreShortAt P d self.old.elements →
            AreShortAt P d self.new.elements) }
        ensures kept { let P = presented F.ops O.order p.now in OnOk result (IsMonicElement P t.value →
            UsesLower P (values_of self.old.elements) t → self.new.elements ≡ self.old.elements ++ t ∷ []) }
        ensures quotient { self.new.quotient ≡ self.old.quotient }
        ensures zeros { self.new.words.zeros ≡ self.old.words.zeros }
        ensures degree { self.new.words.degree ≡ self.old.words.degree }
        ensures memory { OnErr result (self.new ≡ self.old) }
    {
        subalgebra_laws::laws::words::<F>();
        let next = next_element(alloc, p, self, t)?;
        let longer = with_place(alloc, &self.by_order, self.words.degree())?;
        self.elements.reserve(1)?;
        push_lead_of(alloc, &mut self.words, &next.value)?;
        self.by_order = longer;
        self.elements.push_reserved(next);
        words_are_listed(&self.words);
        Ok(())
    }

    /// Reduces the elements of the last degree by each other, and sorts them.
    pub fn settle(&mut self, alloc: Global, p: &Presentation<F, O>) -> Result<(), Memory>
        requires presentation { IsValid F.ops O.order p.now }
        requires basis { IsBasisOf (presented F.ops O.order p.now) self.old }
        ensures basis { IsBasisOf (presented F.ops O.order p.now) self.new }
        ensures settled { let P = presented F.ops O.order p.now in
            OnOk result (AreSettled P self.old.words.degree self.old.elements self.new.elements) }
        ensures leads { OnOk result (IsSettled (O.order p.now.order) self.old.words.letters.degrees
            self.old.words.degree self.old.words.letters.leads self.new.words.letters.leads) }
        ensures short { let P = presented F.ops O.order p.now in let d = self.old.words.degree in
            OnOk result (AreShortAt P d self.old.elements → AreShortAt P d self.new.elements) }
        ensures quotient { self.new.quotient ≡ self.old.quotient }
        ensures zeros { self.new.words.zeros ≡ self.old.words.zeros }
        ensures degree { self.new.words.degree ≡ self.old.words.degree }
        ensures memory { OnErr result (self.new ≡ self.old) }
    {
        subalgebra_laws::laws::uniqueness::<F>();
        let count = lower_count(&p.order, self.words.leads(), self.words.degree());
        let (_lower, last) = self.elements.as_slice().split_at(count);
        let (_lower_leads, leads) = self.words.leads().split_at(count);
        let new = reduced_by_each_other(alloc, p, &self.by_order, last, leads)?;
        self.words.settle(alloc, &p.order)?;
        let _listed = self.words.leads();
        put_last(&mut self.elements, count, new);
        Ok(())
    }

    /// Goes back to the degree d: elements of greater degree are taken away, and quotient and words are made anew to d.
    /// Witnesses stay.
    pub fn cut_to(&mut self, alloc: Global, p: &Presentation<F, O>, d: u32) -> Result<(), Memory>
        requires presentation { IsValid F.ops O.order p.now }
        requires basis { IsBasisOf (presented F.ops O.order p.now) self.old }
        requires increasing { IsIncreasing (O.order p.now.order) (map lead_monomial (values_of self.old.elements)) }
        requires minimal { HasMinimalLeads (presented F.ops O.order p.now) (values_of self.old.elements) }
        requires below { d ≤ self.old.words.degree }
        ensures basis { IsBasisOf (presented F.ops O.order p.now) self.new }
        ensures elements { let P = presented F.ops O.order p.now in
            OnOk result (IsCutAt P d self.old.elements self.new.elements) }
        ensures quotient { OnOk result (self.new.quotient.degree ≡ d) }
        ensures words { OnOk result (self.new.words.degree ≡ d) }
        ensures memory { OnErr result (self.new ≡ self.old) }
    {
        let count = lower_count(&p.order, self.words.leads(), d + 1);
        let (kept, _rest) = self.elements.as_slice().split_at(count);
        let mut quotient = Quotient::new(alloc, p)?;
        quotient.extend_to(alloc, p, d)?;
        let (words, by_order) = words_over(alloc, p, &quotient, kept, d)?;
        self.elements.truncate(count);
        self.quotient = quotient;
        self.words = words;
        self.by_order = by_order;
        Ok(())
    }

    /// Whether the quotient and the words are closed: no later degree brings a new lead of the ideal or a new rule.
    pub fn closed(&mut self, alloc: Global, p: &Presentation<F, O>) -> Result<bool, Memory>
        requires presentation { IsValid F.ops O.order p.now }
        requires basis { IsBasisOf (presented F.ops O.order p.now) self.old }
        requires small { self.old.quotient.degree ≤ closing_max }
        ensures basis { IsBasisOf (presented F.ops O.order p.now) self.new }
        ensures yes { IfOk result (λ r. r ≡ true → IsKnownClosed self.new) }
        ensures no { let P = presented F.ops O.order p.now in IfOk result (λ r. r ≡ false →
            (HasGeneratorAbove P self.old.quotient.degree ⊎ HasOtherLead P self.old.quotient.leads) ⊎
            HasOtherWord self.old.words) }
        ensures elements { self.new.elements ≡ self.old.elements }
        ensures by_order { self.new.by_order ≡ self.old.by_order }
        ensures quotient { (self.new.quotient ≡ self.old.quotient) ⊎
            (self.new.quotient ≡ with_closed true self.old.quotient) }
        ensures words { self.new.words.degree ≡ self.old.words.degree }
        ensures memory { OnErr result (self.new.words ≡ self.old.words) }
    {
        if !self.quotient.closed(alloc, p)? {
            return Ok(false);
        }
        let degree = self.words.degree();
        let zeros = monomials_to(alloc, &p.order, self.quotient.leads(), degree)?;
        let closed = self.words.closed(alloc, zeros.as_slice())?;
        words_are_listed(&self.words);
        Ok(closed)
    }

    /// The elements, in the order of their letters.
    pub fn elements(&self) -> &[Tracked<F>]
        ensures { result.now ≡ self.now.elements }
    {
        self.elements.as_slice()
    }

    /// What is known of the ideal.
    pub fn quotient(&self) -> &Quotient<F, O>
        ensures { result.now ≡ self.now.quotient }
    {
        &self.quotient
    }

    /// The words in the variables and in the leads of the elements.
    pub fn words(&self) -> &Words
        ensures { result.now ≡ self.now.words }
    {
        &self.words
    }

    /// The order of the witnesses: a place for each generator, and then one for each element.
    pub fn by_order(&self) -> &WordOrder
        ensures { result.now ≡ self.now.by_order }
    {
        &self.by_order
    }
}
