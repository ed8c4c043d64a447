//! Words to a degree.
ghost use Rattle.std.specs.Prelude.{◌≡◌, ◌≤◌, ◌<◌, ◌≢◌, ◌++◌, ◌∷◌, [], ◌↔◌, length, max, true, false, Contains, IsOk, IfOk, OnOk, OnErr, IfSome, IsSome, IsNone, IsTrue};
ghost use Rattle.monomial_order.specs.Limits.{degree_max};
ghost use Rattle.monomial_order.specs.Monomial.{Exponents, weighted_degree, IsMonomial, IsMultiple};
ghost use Rattle.monomial_order.specs.Ranges.{all_between};
ghost use Rattle.word_laws.specs.Words.{image_of, lead_degrees, word_order_of, IsLeast, IsSWord, IsWord};
ghost use Rattle.toric_ideal.specs.Leads.{letters};
ghost use Rattle.toric_ideal.specs.Closing.{closing_max, with_closed, HasMissedWord};
ghost use Rattle.toric_ideal.specs.Listing.{AgreeTo, AreRules, AreZeros, IsClosed, IsDecided, IsListing, IsNewLead, IsSettled, OrdersByDegrees};

use crate::Rule;
use crate::completion::Completion;
use monomial_order::{Memory, Monomial, Order, WordOrder};
use std::alloc::Global;
use std::marker::Model;

/// The words in x_1, .., x_n and in a letter s_i for each lead, with their rules to a degree.
///
/// A monomial in the x counts as zero if a member of the zero list divides it.
#[derive(Drop)]
pub struct Words {
    completion: Completion,
}

impl Model for Words {
    ghost use Rattle.toric_ideal.specs.Listing.{Listing};

    ghost Value = { Listing };

    ghost use Rattle.toric_ideal.specs.State.{listing_of, IsSound};

    ghost view = { λ w. listing_of w.completion };

    ghost invariant = { λ w. IsSound w.completion };
}

impl Words {
    /// No lead, no zero, and the degree 0.
    pub fn new(alloc: Global, x_degrees: &[u32]) -> Result<Words, Memory>
        requires { all_between 1 degree_max x_degrees.now ≡ true }
        ensures letters { IfOk result (λ w. w.letters ≡ letters x_degrees.now []) }
        ensures zeros { IfOk result (λ w. w.zeros ≡ []) }
        ensures degree { IfOk result (λ w. w.degree ≡ 0) }
    {
        Ok(Words {
            completion: Completion::new(alloc, x_degrees)?,
        })
    }

    /// Lists the words to the degree c, with the members of `zero` as zeros. If the degree is c or more already,
    /// nothing changes.
    pub fn extend_to(&mut self, alloc: Global, c: u32, zero: &[Monomial]) -> Result<(), Memory>
        requires small { c ≤ degree_max }
        requires zero { AreZeros self.old.letters.degrees c zero.now }
        requires agree { self.old.degree < c
            → AgreeTo self.old.letters.degrees self.old.degree self.old.zeros zero.now }
        ensures letters { self.new.letters ≡ self.old.letters }
        ensures degree { OnOk result (self.new.degree ≡ max self.old.degree c) }
        ensures new_zeros { OnOk result (self.old.degree < c → self.new.zeros ≡ zero.now) }
        ensures closed { OnOk result (self.old.degree < c → IsTrue self.new.closed ↔ (IsTrue self.old.closed ×
            ((z : Exponents) → Contains zero.now z → Contains self.old.zeros z))) }
        ensures old_zeros { c ≤ self.old.degree → self.new ≡ self.old }
        ensures reached { c ≤ self.old.degree → IsOk result }
        ensures err { OnErr result (self.new ≡ self.old) }
    {
        if c <= self.completion.degree {
            return Ok(());
        }
        self.completion.extend_to(alloc, c, zero)
    }

    /// Makes m the next lead.
    pub fn push_lead(&mut self, alloc: Global, m: &Monomial) -> Result<(), Memory>
        requires { IsNewLead self.old m.now }
        ensures letters { OnOk result (self.new.letters
            ≡ letters self.old.letters.degrees (self.old.letters.leads ++ m.now ∷ [])) }
        ensures zeros { self.new.zeros ≡ self.old.zeros }
        ensures degree { self.new.degree ≡ self.old.degree }
        ensures closed { OnOk result (self.new.closed ≡ false) }
        ensures err { OnErr result (self.new ≡ self.old) }
    {
        self.completion.push_lead(alloc, m)
    }

    /// Numbers the leads of the last degree again, so that they increase in the order.
    pub fn settle<O: Order>(&mut self, alloc: Global, o: &O) -> Result<(), Memory>
        requires { OrdersByDegrees (O.order o.now) self.old.letters.degrees }
        ensures settled { OnOk result (IsSettled (O.order o.now)
            self.old.letters.degrees self.old.degree self.old.letters.leads self.new.letters.leads) }
        ensures x { self.new.letters.degrees ≡ self.old.letters.degrees }
        ensures zeros { self.new.zeros ≡ self.old.zeros }
        ensures degree { self.new.degree ≡ self.old.degree }
        ensures closed { self.new.closed ≡ self.old.closed }
        ensures err { OnErr result (self.new ≡ self.old) }
    {
        self.completion.settle(alloc, o)
    }

    /// The order of the words.
    pub fn order(&self) -> &WordOrder
        ensures x { result.now.x_degrees.items ≡ self.now.letters.degrees }
        ensures s { result.now.s_degrees.items ≡ lead_degrees self.now.letters }
    {
        &self.completion.alphabet.order
    }

    /// The leads, in the order of their letters.
    pub fn leads(&self) -> &[Monomial]
        ensures same { result.now ≡ self.now.letters.leads }
        ensures listing { IsListing self.now }
    {
        self.completion.alphabet.leads.as_slice()
    }

    /// The monomials whose multiples count as zero.
    pub fn zeros(&self) -> &[Monomial]
        ensures { result.now ≡ self.now.zeros }
    {
        self.completion.zeros.as_slice()
    }

    /// The degree to which the words are listed.
    pub fn degree(&self) -> u32
        ensures { result ≡ self.now.degree }
    {
        self.completion.degree
    }

    /// The least s-word with the image m, if there is one.
    pub fn factor(&self, alloc: Global, m: &Monomial) -> Result<Option<Monomial>, Memory>
        requires monomial { IsMonomial (length self.now.letters.degrees) m.now }
        requires standard { ¬ IsMultiple self.now.zeros m.now }
        requires degree { IsDecided self.now (weighted_degree self.now.letters.degrees m.now) }
        ensures s_word { IfOk result (λ v. IfSome v (IsSWord self.now.letters)) }
        ensures least { IfOk result (λ v. IfSome v (IsLeast self.now.letters m.now)) }
        ensures none { IfOk result (λ v.
            IsNone v → (u : Exponents) → IsSWord self.now.letters u → image_of self.now.letters u ≢ m.now) }
    {
        self.completion.factor(alloc, m)
    }

    /// The least word with the image of w, or None if that is a multiple of a zero.
    pub fn least(&self, alloc: Global, w: &Monomial) -> Result<Option<Monomial>, Memory>
        requires word { IsWord self.now.letters w.now }
        requires degree { IsDecided self.now ((word_order_of self.now.letters).degree w.now) }
        ensures least { IfOk result (λ v. IfSome v (IsLeast self.now.letters (image_of self.now.letters w.now))) }
        ensures standard { IfOk result (λ v.
            IsSome v → ¬ IsMultiple self.now.zeros (image_of self.now.letters w.now)) }
        ensures zero { IfOk result (λ v. IsNone v → IsMultiple self.now.zeros (image_of self.now.letters w.now)) }
    {
        self.completion.least(alloc, w)
    }

    /// The minimal reducible words of degree at most the degree, increasing.
    pub fn rules(&self) -> &[Rule]
        ensures same { result.now ≡ self.now.rules }
        ensures exact { AreRules self.now.letters self.now.zeros self.now.degree result.now }
    {
        self.completion.rules.as_slice()
    }

    /// Whether the word of a rule divides every reducible word, here and in all degrees. It looks at the pairs of rules
    /// above the degree, and ends at the first that is not joined. `zero` has the zeros of every degree.
    pub fn closed(&mut self, alloc: Global, zero: &[Monomial]) -> Result<bool, Memory>
        requires zero { (z : Exponents) → Contains zero.now z ↔ Contains self.old.zeros z }
        requires small { self.old.degree ≤ closing_max }
        ensures yes { IfOk result (λ r. r ≡ true → IsClosed self.old) }
        ensures no { IfOk result (λ r. r ≡ false → HasMissedWord self.old) }
        ensures state { IfOk result (λ r. self.new ≡ with_closed r self.old) }
        ensures known { self.old.closed ≡ true → IsOk result }
        ensures memory { OnErr result (self.new ≡ self.old) }
    {
        self.completion.close(alloc)
    }

    /// Whether the rules are known to divide every reducible word.
    pub fn known_closed(&self) -> bool
        ensures same { result ≡ self.now.closed }
        ensures closed { IsTrue result → IsClosed self.now }
    {
        self.completion.closed
    }
}
