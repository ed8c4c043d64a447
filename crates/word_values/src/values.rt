//! The values of words, kept from use to use.
ghost use Rattle.std.specs.Prelude.{◌≡◌, ℕ, ◌≤◌, ◌⊎◌, ◌↔◌, ◌+◌, ◌<◌, ◌≢◌, [], length, true, IfOk, IsNone, IsSome, IfSome};
ghost use Rattle.monomial_order.specs.Limits.{exponent_max};
ghost use Rattle.monomial_order.specs.Monomial.{Exponents};
ghost use Rattle.word_laws.specs.Words.{IsSWord};
ghost use Rattle.polynomials.specs.Polynomial.{IsCanonical};
ghost use Rattle.poly_core.specs.Presentation.{presented, IsValid};
ghost use Rattle.quotient_gb.specs.Quotient.{IsQuotientOf};
ghost use Rattle.subalgebra_laws.specs.Words.{letters};
ghost use Rattle.witness.specs.Tracking.{values_of};
ghost use Rattle.word_values.specs.Values.{IsReady, CanMake, AreHomogeneousElements, IsWordValue, AreValues, AreWordsTo, word_degree, IsLetter, IsPath, IsSplit, Puts, whole};

use crate::paths::{Path, Step};
use crate::products::{Split, element, take_off, times_letter, value_of_start};
use crate::words::single_letter;
use monomial_order::{Memory, Monomial, Order};
use poly_core::{Poly, Presentation};
use quotient_gb::Quotient;
use std::alloc::Global;
use std::collections::HashMap;
use std::marker::Model;
use witness::Tracked;
use word_field::Field;

/// A table from words over the elements of a basis to the normal forms of their values.
#[derive(Drop)]
pub struct Values<F: Field> {
    kept: HashMap<Vec<u16>, Poly<F>>,
    limit: u32,
}

impl<F: Field> Model for Values<F> {
    ghost use Rattle.std.specs.Prelude.{map};
    ghost use Rattle.word_values.specs.Values.{Table};

    ghost Value = { Table F.Elem };

    ghost view = { λ t. map (λ e. (e.0.items, e.1)) t.kept.entries };
}

impl<F: Field> Values<F> {
    /// No values. A value is kept if its degree is at most the limit. It takes no memory.
    pub fn new(alloc: Global, limit: u32) -> Values<F>
        ensures { result ≡ [] }
    {
        Values {
            kept: HashMap::new(alloc),
            limit,
        }
    }

    /// From now on a value is kept if its degree is at most the limit. What is kept already stays.
    pub fn set_limit(&mut self, limit: u32)
        ensures { self.new ≡ self.old }
    {
        self.limit = limit;
    }

    /// The value of a word, if the word is one letter or kept.
    pub fn get<'a, O: Order>(
        &'a self,
        p: &Presentation<F, O>,
        elements: &'a [Tracked<F>],
        w: &Monomial,
    ) -> Option<&'a Poly<F>>
        requires presentation { IsValid F.ops O.order p.now }
        requires elements { AreHomogeneousElements (presented F.ops O.order p.now) (values_of elements.now) }
        requires word { IsSWord (letters (presented F.ops O.order p.now) (values_of elements.now)) w.now }
        requires values { AreValues (presented F.ops O.order p.now) (values_of elements.now) self.now }
        ensures value { let P = presented F.ops O.order p.now in
            IfSome result (λ v. IsWordValue P (values_of elements.now) w.now v.now) }
        ensures ready { IsSome result ↔ IsReady self.now w.now }
    {
        match single_letter(w) {
            Some(letter) => Some(element(p, elements, letter)),
            None => self.kept.get(w.as_slice()),
        }
    }

    /// Makes the value of a word ready for `get`. If it is one that is not kept, the answer is the value.
    pub fn prepare<O: Order>(
        &mut self,
        alloc: Global,
        p: &Presentation<F, O>,
        q: &Quotient<F, O>,
        elements: &[Tracked<F>],
        w: &Monomial,
    ) -> Result<Option<Poly<F>>, Memory>
        requires presentation { IsValid F.ops O.order p.now }
        requires quotient { IsQuotientOf (presented F.ops O.order p.now) q.now }
        requires elements { AreHomogeneousElements (presented F.ops O.order p.now) (values_of elements.now) }
        requires word { IsSWord (letters (presented F.ops O.order p.now) (values_of elements.now)) w.now }
        requires degree { let P = presented F.ops O.order p.now in
            (word_degree P (values_of elements.now) w.now ≤ q.now.degree) ⊎ (q.now.closed ≡ true) }
        requires small { word_degree (presented F.ops O.order p.now) (values_of elements.now) w.now ≤ exponent_max }
        requires values { AreValues (presented F.ops O.order p.now) (values_of elements.now) self.old }
        ensures values { AreValues (presented F.ops O.order p.now) (values_of elements.now) self.new }
        ensures degrees { let P = presented F.ops O.order p.now in let S = values_of elements.now in (d : ℕ) →
            AreWordsTo P S d self.old → word_degree P S w.now ≤ d → AreWordsTo P S d self.new }
        ensures stays { (v : Exponents) → IsReady self.old v → IsReady self.new v }
        ensures ready { IfOk result (λ r. IsNone r → IsReady self.new w.now) }
        ensures made { let P = presented F.ops O.order p.now in
            IfOk result (λ r. IfSome r (IsWordValue P (values_of elements.now) w.now)) }
    {
        let path = self.path(alloc, p, elements, w)?;
        let made = value_of_start(alloc, p, q, elements, &path.start)?;
        self.make_path(alloc, p, q, elements, w, path, made)
    }

    /// The words that are to be made before the value of a word is known, from a word that is ready, or from 1.
    fn path<O: Order>(
        &self,
        alloc: Global,
        p: &Presentation<F, O>,
        elements: &[Tracked<F>],
        w: &Monomial,
    ) -> Result<Path, Memory>
        requires presentation { IsValid F.ops O.order p.now }
        requires elements { AreHomogeneousElements (presented F.ops O.order p.now) (values_of elements.now) }
        requires word { IsSWord (letters (presented F.ops O.order p.now) (values_of elements.now)) w.now }
        requires values { AreValues (presented F.ops O.order p.now) (values_of elements.now) self.now }
        ensures path { let P = presented F.ops O.order p.now in
            IfOk result (λ r. IsPath P (values_of elements.now) w.now r.steps.items r.start) }
        ensures start { IfOk result (λ r. (r.start ≡ []) ⊎ IsReady self.now r.start) }
    {
        let mut steps = Vec::new(alloc);
        let mut start = w.copy(alloc)?;
        'letters: while start.places() > 0 && self.get(p, elements, &start).is_none() {
            let split = self.split(alloc, p, elements, &start)?;
            let rest = split.rest.copy(alloc)?;
            steps.push(Step { word: start, split })?;
            start = rest;
        }
        Ok(Path { steps, start })
    }

    /// Makes the words of a path.
    fn make_path<O: Order>(
        &mut self,
        alloc: Global,
        p: &Presentation<F, O>,
        q: &Quotient<F, O>,
        elements: &[Tracked<F>],
        w: &Monomial,
        path: Path,
        start: Option<Poly<F>>,
    ) -> Result<Option<Poly<F>>, Memory>
        requires presentation { IsValid F.ops O.order p.now }
        requires making { CanMake (presented F.ops O.order p.now) (values_of elements.now) q.now w.now }
        requires values { AreValues (presented F.ops O.order p.now) (values_of elements.now) self.old }
        requires path { let P = presented F.ops O.order p.now in
            IsPath P (values_of elements.now) w.now path.steps.items path.start }
        requires ready { IsNone start → IsReady self.old path.start }
        requires made { let P = presented F.ops O.order p.now in
            IfSome start (IsWordValue P (values_of elements.now) path.start) }
        ensures values { AreValues (presented F.ops O.order p.now) (values_of elements.now) self.new }
        ensures degrees { let P = presented F.ops O.order p.now in let S = values_of elements.now in (d : ℕ) →
            AreWordsTo P S d self.old → word_degree P S w.now ≤ d → AreWordsTo P S d self.new }
        ensures stays { (v : Exponents) → IsReady self.old v → IsReady self.new v }
        ensures ready { IfOk result (λ r. IsNone r → IsReady self.new w.now) }
        ensures made { let P = presented F.ops O.order p.now in
            IfOk result (λ r. IfSome r (IsWordValue P (values_of elements.now) w.now)) }
    {
        let mut steps = path.steps;
        let mut made = start;
        'steps: while let Some(step) = steps.pop() {
            let value = self.next_value(alloc, p, q, elements, &step.split, &made)?;
            made = self.offer(alloc, p, elements, &step.word, value)?;
        }
        Ok(made)
    }

    /// A letter of a word, and the word without it. If that is ready for any letter, the product is one that costs
    /// least.
    fn split<O: Order>(
        &self,
        alloc: Global,
        p: &Presentation<F, O>,
        elements: &[Tracked<F>],
        w: &Monomial,
    ) -> Result<Split, Memory>
        requires presentation { IsValid F.ops O.order p.now }
        requires elements { AreHomogeneousElements (presented F.ops O.order p.now) (values_of elements.now) }
        requires word { IsSWord (letters (presented F.ops O.order p.now) (values_of elements.now)) w.now }
        requires values { AreValues (presented F.ops O.order p.now) (values_of elements.now) self.now }
        requires some { w.now ≢ [] }
        ensures { IfOk result (IsSplit (presented F.ops O.order p.now) (values_of elements.now) w.now) }
    {
        let last = w.places() - 1;
        let mut split = take_off(alloc, p, elements, w, last)?;
        let mut least = self.cost(p, elements, &split);
        'letters: for letter in p.order.places()..last {
            if w.exponent(letter) > 0 {
                let other = take_off(alloc, p, elements, w, letter)?;
                let cost = self.cost(p, elements, &other);
                if cost < least {
                    least = cost;
                    split = other;
                }
            }
        }
        Ok(split)
    }

    /// Terms times terms, if the rest is ready.
    fn cost<O: Order>(
        &self,
        p: &Presentation<F, O>,
        elements: &[Tracked<F>],
        split: &Split,
    ) -> usize
        requires presentation { IsValid F.ops O.order p.now }
        requires elements { AreHomogeneousElements (presented F.ops O.order p.now) (values_of elements.now) }
        requires values { AreValues (presented F.ops O.order p.now) (values_of elements.now) self.now }
        requires split { let P = presented F.ops O.order p.now in
            (w : Exponents) × IsSplit P (values_of elements.now) w split.now }
    {
        match self.get(p, elements, &split.rest) {
            Some(value) => {
                let terms = element(p, elements, split.letter).terms().len();
                value.terms().len().saturating_mul(terms)
            }
            None => usize::MAX,
        }
    }

    /// The value of a word, from that of the word without a letter.
    fn next_value<O: Order>(
        &self,
        alloc: Global,
        p: &Presentation<F, O>,
        q: &Quotient<F, O>,
        elements: &[Tracked<F>],
        split: &Split,
        made: &Option<Poly<F>>,
    ) -> Result<Poly<F>, Memory>
        requires presentation { IsValid F.ops O.order p.now }
        requires making { CanMake (presented F.ops O.order p.now) (values_of elements.now) q.now (whole split.now) }
        requires split { IsSplit (presented F.ops O.order p.now) (values_of elements.now) (whole split.now) split.now }
        requires values { AreValues (presented F.ops O.order p.now) (values_of elements.now) self.now }
        requires ready { IsNone made.now → IsReady self.now split.now.rest }
        requires made { let P = presented F.ops O.order p.now in
            IfSome made.now (IsWordValue P (values_of elements.now) split.now.rest) }
        ensures { let P = presented F.ops O.order p.now in
            IfOk result (IsWordValue P (values_of elements.now) (whole split.now)) }
    {
        match made {
            Some(value) => times_letter(alloc, p, q, elements, split, value),
            None => {
                let Some(value) = self.get(p, elements, &split.rest) else {
                    unreachable!()
                };
                times_letter(alloc, p, q, elements, split, value)
            }
        }
    }

    /// Keeps the value of a word, or gives it back.
    fn offer<O: Order>(
        &mut self,
        alloc: Global,
        p: &Presentation<F, O>,
        _elements: &[Tracked<F>],
        w: &Monomial,
        value: Poly<F>,
    ) -> Result<Option<Poly<F>>, Memory>
        requires presentation { IsValid F.ops O.order p.now }
        requires word { IsSWord (letters (presented F.ops O.order p.now) (values_of _elements.now)) w.now }
        requires long { ¬ IsLetter w.now }
        requires value { IsWordValue (presented F.ops O.order p.now) (values_of _elements.now) w.now value }
        ensures table { (self.new ≡ self.old) ⊎ Puts self.old self.new w.now value }
        ensures ready { IfOk result (λ r. IsNone r → IsReady self.new w.now) }
        ensures made { IfOk result (λ r. IfSome r (λ v. v ≡ value)) }
    {
        if !self.is_in_reach(p, &value) {
            return Ok(Some(value));
        }
        let key = w.as_slice().to_vec(alloc)?;
        self.kept.insert(key, value)?;
        Ok(None)
    }

    /// Whether the degree of a value is at most the limit.
    fn is_in_reach<O: Order>(&self, p: &Presentation<F, O>, value: &Poly<F>) -> bool
        requires { IsCanonical (F.ops p.now.field) (O.order p.now.order) value.now }
    {
        match Poly::degree(&p.order, value) {
            Some(degree) => degree <= self.limit,
            None => true,
        }
    }
}
