//! Polynomials.
ghost use Rattle.std.specs.Prelude.{◌≡◌, ◌≢◌, ℕ, ◌≤◌, ◌↔◌, ◌++◌, List, [], ◌∷◌, length, IsTrue, IfOk, IsNone, IfSome, All};
ghost use Rattle.monomial_order.specs.declared.terms.Term.{Term};
ghost use Rattle.monomial_order.specs.Monomial.{Exponents, IsMonomial};
ghost use Rattle.monomial_order.specs.MonomialOrder.{MonomialOrder};
ghost use Rattle.word_field.specs.Field.{IsValue};
ghost use Rattle.polynomials.specs.Polynomial.{Polynomial, term_of, coefficient, Same, times, scaled, minus, lead_monomial, first_coefficient, IsPoly, IsCanonical, IsSmall, IsComponent, IsDegree, IsZeroOrHomogeneous};
ghost use Rattle.polynomials.specs.Value.{value, HasSmallValue};

use crate::products::{multiply, scale_terms, times_terms};
use crate::sums::{copy_terms, merge, terms_of_degree};
use crate::values::{power_table, sum_of_values};
use monomial_order::{Memory, Monomial, Order, Term};
use std::alloc::Global;
use std::marker::Model;
use word_field::Field;

/// A polynomial: its terms, none with coefficient zero, decreasing in the order at hand.
#[derive(Drop)]
pub struct Poly<F: Field> {
    terms: Vec<Term<F::Elem>>,
}

impl<F: Field> Model for Poly<F> {
    ghost use Rattle.std.specs.Prelude.{List};
    ghost use Rattle.polynomials.specs.Polynomial.{Polynomial};

    ghost Value = { Polynomial F.Elem };

    ghost view = { λ p. p.terms.items };
}

impl<F: Field> Poly<F> {
    /// The zero polynomial. It takes no memory.
    pub fn zero(alloc: Global) -> Poly<F>
        ensures { result ≡ [] }
    {
        Poly {
            terms: Vec::new(alloc),
        }
    }

    /// The polynomial with the one term c at m; zero if c is zero.
    pub fn term(alloc: Global, f: &F, m: Monomial, c: F::Elem) -> Result<Poly<F>, Memory>
        ensures zero { c ≡ (F.ops f.now).zero → IfOk result (λ r. r ≡ []) }
        ensures term { c ≢ (F.ops f.now).zero → IfOk result (λ r. r ≡ term_of m c ∷ []) }
    {
        let mut terms = Vec::new(alloc);
        if c != f.zero() {
            terms.push(Term { at: m, by: c })?;
        }
        Ok(Poly { terms })
    }

    /// The polynomial of terms that have no coefficient zero and are decreasing in the order at hand.
    pub fn from_falling(terms: Vec<Term<F::Elem>>) -> Poly<F>
        ensures { result ≡ terms.items }
    {
        Poly { terms }
    }

    pub fn copy(&self, alloc: Global) -> Result<Poly<F>, Memory>
        ensures { IfOk result (λ r. r ≡ self.now) }
    {
        let terms = copy_terms(alloc, self.terms())?;
        Ok(Poly { terms })
    }

    /// The terms, the greatest monomial first.
    pub fn terms(&self) -> &[Term<F::Elem>]
        ensures { result.now ≡ self.now }
    {
        self.terms.as_slice()
    }

    /// The term at the greatest monomial.
    pub fn lead(&self) -> Option<&Term<F::Elem>>
        ensures zero { IsNone result ↔ (self.now ≡ []) }
        ensures first { IfSome result (λ t. (rest : Polynomial F.Elem) × (self.now ≡ t.now ∷ rest)) }
    {
        self.terms().first()
    }

    /// The greatest degree of a monomial.
    pub fn degree<O: Order>(o: &O, a: &Poly<F>) -> Option<u32>
        requires canonical { (f : F) × IsCanonical (F.ops f) (O.order o.now) a.now }
        ensures zero { IsNone result ↔ (a.now ≡ []) }
        ensures greatest { IfSome result (λ d. (f : F) →
            IsCanonical (F.ops f) (O.order o.now) a.now → IsDegree (F.ops f) (O.order o.now) d a.now) }
    {
        let first = a.lead()?;
        Some(o.degree(&first.at))
    }

    /// Whether all monomials have one degree.
    pub fn is_homogeneous<O: Order>(o: &O, a: &Poly<F>) -> bool
        requires canonical { (f : F) × IsCanonical (F.ops f) (O.order o.now) a.now }
        ensures { (f : F) → IsCanonical (F.ops f) (O.order o.now) a.now →
            (IsTrue result ↔ IsZeroOrHomogeneous (F.ops f) (O.order o.now) a.now) }
    {
        let Some(first) = a.lead() else {
            return true;
        };
        let degree = o.degree(&first.at);
        for t in a.terms() {
            if o.degree(&t.at) != degree {
                return false;
            }
        }
        true
    }

    /// The sum.
    pub fn add<O: Order>(
        alloc: Global,
        f: &F,
        o: &O,
        a: &Poly<F>,
        b: &Poly<F>,
    ) -> Result<Poly<F>, Memory>
        requires a { IsCanonical (F.ops f.now) (O.order o.now) a.now }
        requires b { IsCanonical (F.ops f.now) (O.order o.now) b.now }
        ensures canonical { IfOk result (IsCanonical (F.ops f.now) (O.order o.now)) }
        ensures sum { IfOk result (λ r. Same (F.ops f.now) r (a.now ++ b.now)) }
    {
        let left = copy_terms(alloc, a.terms())?;
        let right = copy_terms(alloc, b.terms())?;
        let terms = merge(alloc, f, o, left, right)?;
        Ok(Poly { terms })
    }

    /// The sum of two polynomials that are given up for it, so that nothing is copied.
    pub fn add_taking<O: Order>(
        alloc: Global,
        f: &F,
        o: &O,
        a: Poly<F>,
        b: Poly<F>,
    ) -> Result<Poly<F>, Memory>
        requires a { IsCanonical (F.ops f.now) (O.order o.now) a }
        requires b { IsCanonical (F.ops f.now) (O.order o.now) b }
        ensures canonical { IfOk result (IsCanonical (F.ops f.now) (O.order o.now)) }
        ensures sum { IfOk result (λ r. Same (F.ops f.now) r (a ++ b)) }
    {
        let terms = merge(alloc, f, o, a.terms, b.terms)?;
        Ok(Poly { terms })
    }

    /// The difference.
    pub fn sub<O: Order>(
        alloc: Global,
        f: &F,
        o: &O,
        a: &Poly<F>,
        b: &Poly<F>,
    ) -> Result<Poly<F>, Memory>
        requires a { IsCanonical (F.ops f.now) (O.order o.now) a.now }
        requires b { IsCanonical (F.ops f.now) (O.order o.now) b.now }
        ensures canonical { IfOk result (IsCanonical (F.ops f.now) (O.order o.now)) }
        ensures difference { IfOk result (λ r. Same (F.ops f.now) r (minus (F.ops f.now) a.now b.now)) }
    {
        let left = copy_terms(alloc, a.terms())?;
        let right = scale_terms(alloc, f, f.neg(f.one()), b.terms())?;
        let terms = merge(alloc, f, o, left, right)?;
        Ok(Poly { terms })
    }

    /// The product.
    pub fn mul<O: Order>(
        alloc: Global,
        f: &F,
        o: &O,
        a: &Poly<F>,
        b: &Poly<F>,
    ) -> Result<Poly<F>, Memory>
        requires a { IsCanonical (F.ops f.now) (O.order o.now) a.now }
        requires b { IsCanonical (F.ops f.now) (O.order o.now) b.now }
        requires small { IsSmall (O.order o.now) (times (F.ops f.now) a.now b.now) }
        ensures canonical { IfOk result (IsCanonical (F.ops f.now) (O.order o.now)) }
        ensures product { IfOk result (λ r. Same (F.ops f.now) r (times (F.ops f.now) a.now b.now)) }
    {
        let terms = multiply(alloc, f, o, a.terms(), b.terms())?;
        Ok(Poly { terms })
    }

    /// Every coefficient times c.
    pub fn scale(alloc: Global, f: &F, a: &Poly<F>, c: F::Elem) -> Result<Poly<F>, Memory>
        requires a { (o : MonomialOrder) × IsCanonical (F.ops f.now) o a.now }
        requires factor { IsValue (F.ops f.now) c }
        ensures canonical { IfOk result (λ r. (o : MonomialOrder) →
            IsCanonical (F.ops f.now) o a.now → IsCanonical (F.ops f.now) o r) }
        ensures multiple { IfOk result (λ r. (m : Exponents) →
            coefficient (F.ops f.now) r m ≡ (F.ops f.now).times c (coefficient (F.ops f.now) a.now m)) }
    {
        if c == f.zero() {
            return Ok(Poly::zero(alloc));
        }
        let terms = scale_terms(alloc, f, c, a.terms())?;
        Ok(Poly { terms })
    }

    /// The product with the term c at m.
    pub fn times_term<O: Order>(
        alloc: Global,
        f: &F,
        o: &O,
        a: &Poly<F>,
        c: F::Elem,
        m: &Monomial,
    ) -> Result<Poly<F>, Memory>
        requires a { IsCanonical (F.ops f.now) (O.order o.now) a.now }
        requires monomial { IsMonomial (O.order o.now).places m.now }
        requires factor { IsValue (F.ops f.now) c }
        requires small { IsSmall (O.order o.now) (scaled (F.ops f.now) (term_of m.now c) a.now) }
        ensures canonical { IfOk result (IsCanonical (F.ops f.now) (O.order o.now)) }
        ensures product { IfOk result (λ r. Same (F.ops f.now) r (scaled (F.ops f.now) (term_of m.now c) a.now)) }
    {
        if c == f.zero() {
            return Ok(Poly::zero(alloc));
        }
        let terms = times_terms(alloc, f, o, c, m, a.terms())?;
        Ok(Poly { terms })
    }

    /// The polynomial divided by its first coefficient; zero gives zero.
    pub fn monic(alloc: Global, f: &F, a: &Poly<F>) -> Result<Poly<F>, Memory>
        requires { (o : MonomialOrder) × IsCanonical (F.ops f.now) o a.now }
        ensures canonical { IfOk result (λ r. (o : MonomialOrder) →
            IsCanonical (F.ops f.now) o a.now → IsCanonical (F.ops f.now) o r) }
        ensures zero { a.now ≡ [] → IfOk result (λ r. r ≡ []) }
        ensures lead { IfOk result (λ r. lead_monomial r ≡ lead_monomial a.now) }
        ensures one { a.now ≢ [] → IfOk result (λ r. first_coefficient (F.ops f.now) r ≡ (F.ops f.now).one) }
        ensures multiple { IfOk result (λ r. (m : Exponents) →
            let K = F.ops f.now in
            coefficient K a.now m ≡ K.times (first_coefficient K a.now) (coefficient K r m)) }
    {
        let Some(first) = a.lead() else {
            return Ok(Poly::zero(alloc));
        };
        let Some(inverse) = f.inv(first.by) else {
            unreachable!()
        };
        let terms = scale_terms(alloc, f, inverse, a.terms())?;
        Ok(Poly { terms })
    }

    /// The terms of degree d.
    pub fn component<O: Order>(alloc: Global, o: &O, a: &Poly<F>, d: u32) -> Result<Poly<F>, Memory>
        requires { (f : F) × IsCanonical (F.ops f) (O.order o.now) a.now }
        ensures canonical { IfOk result (λ r. (f : F) →
            IsCanonical (F.ops f) (O.order o.now) a.now → IsCanonical (F.ops f) (O.order o.now) r) }
        ensures component { IfOk result (λ r. (f : F) →
            IsCanonical (F.ops f) (O.order o.now) a.now → IsComponent (F.ops f) (O.order o.now) d a.now r) }
    {
        let terms = terms_of_degree(alloc, o, a.terms(), d)?;
        Ok(Poly { terms })
    }

    /// The value of h with the i-th polynomial of the list put for the i-th place.
    pub fn evaluate<O: Order>(
        alloc: Global,
        f: &F,
        o: &O,
        h: &Poly<F>,
        at: &[Poly<F>],
    ) -> Result<Poly<F>, Memory>
        requires h { IsPoly (F.ops f.now) (length at.now) h.now }
        requires at { All (IsCanonical (F.ops f.now) (O.order o.now)) at.now }
        requires small { HasSmallValue (O.order o.now) at.now h.now }
        ensures canonical { IfOk result (IsCanonical (F.ops f.now) (O.order o.now)) }
        ensures value { IfOk result (λ r. Same (F.ops f.now) r (value (F.ops f.now) h.now at.now)) }
    {
        let table = power_table(alloc, f, o, h.terms(), at)?;
        let terms = sum_of_values(alloc, f, o, h.terms(), at, table.as_slice())?;
        Ok(Poly { terms })
    }
}
