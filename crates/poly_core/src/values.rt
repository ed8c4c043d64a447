//! Values of polynomials at lists of polynomials.
ghost use Rattle.std.specs.Prelude.{◌≡◌, ℕ, ◌+◌, ◌*◌, ◌≤◌, [], length, slice_index_or, IfOk, OnOk, All};
ghost use Rattle.monomial_order.specs.Monomial.{exponent};
ghost use Rattle.word_field.specs.Field.{IsValue};
ghost use Rattle.monomial_order.specs.Limits.{exponent_max};
ghost use Rattle.polynomials.specs.Polynomial.{Polynomial, constant, degree_of, AllAt, IsCanonical, IsTerm, Same};
ghost use Rattle.polynomials.specs.Value.{term_value, value, value_degree, HasSmallValue};
ghost use Rattle.poly_core.specs.Powers.{ArePowers, IsPowerOf, IsTable, Reaches};

use crate::Poly;
use crate::products::multiply;
use crate::sums::merge;
use monomial_order::{Memory, Monomial, Order, Term};
use std::alloc::Global;
use std::marker::Model;
use word_field::Field;

/// Powers of a polynomial, from its square on.
#[derive(Drop)]
pub(crate) struct Powers<F: Field> {
    from_square: Vec<Poly<F>>,
}

impl<F: Field> Model for Powers<F> {
    ghost use Rattle.std.specs.Prelude.{List};
    ghost use Rattle.polynomials.specs.Polynomial.{Polynomial};

    ghost Value = { List (Polynomial F.Elem) };

    ghost view = { λ p. p.from_square.items };
}

impl<F: Field> Powers<F> {
    /// Adds the next powers of p until its power e is there.
    fn reach<O: Order>(
        &mut self,
        alloc: Global,
        f: &F,
        o: &O,
        p: &Poly<F>,
        e: usize,
    ) -> Result<(), Memory>
        requires canonical { IsCanonical (F.ops f.now) (O.order o.now) p.now }
        requires powers { ArePowers (F.ops f.now) (O.order o.now) p.now self.old }
        requires small { e * degree_of (O.order o.now) p.now ≤ exponent_max }
        ensures powers { OnOk result (ArePowers (F.ops f.now) (O.order o.now) p.now self.new) }
        ensures reached { OnOk result (e ≤ length self.new + 1) }
        ensures longer { OnOk result (length self.old ≤ length self.new) }
    {
        'powers: while self.from_square.len() + 1 < e {
            let next = self.next(alloc, f, o, p)?;
            self.from_square.push(next)?;
        }
        Ok(())
    }

    /// The next power of p.
    fn next<O: Order>(&self, alloc: Global, f: &F, o: &O, p: &Poly<F>) -> Result<Poly<F>, Memory>
        requires canonical { IsCanonical (F.ops f.now) (O.order o.now) p.now }
        requires powers { ArePowers (F.ops f.now) (O.order o.now) p.now self.now }
        requires small { (length self.now + 2) * degree_of (O.order o.now) p.now ≤ exponent_max }
        ensures { IfOk result (IsPowerOf (F.ops f.now) (O.order o.now) p.now (length self.now + 2)) }
    {
        let last = self.power(p, self.from_square.len() + 1);
        let terms = multiply(alloc, f, o, p.terms(), last.terms())?;
        Ok(Poly::from_falling(terms))
    }

    /// The power e of p.
    fn power<'a>(&'a self, p: &'a Poly<F>, e: usize) -> &'a Poly<F>
        requires positive { 1 ≤ e }
        requires reached { e ≤ length self.now + 1 }
        ensures first { e ≡ 1 → result.now ≡ p.now }
        ensures next { (k : ℕ) → e ≡ k + 2 → result.now ≡ slice_index_or self.now k [] }
    {
        if e == 1 { p } else { &self.from_square[e - 2] }
    }
}

/// The powers of p that the terms need at a place.
fn powers_at<F: Field, O: Order>(
    alloc: Global,
    f: &F,
    o: &O,
    h: &[Term<F::Elem>],
    place: usize,
    p: &Poly<F>,
) -> Result<Powers<F>, Memory>
    requires canonical { IsCanonical (F.ops f.now) (O.order o.now) p.now }
    requires small { All (λ t. exponent t.at place * degree_of (O.order o.now) p.now ≤ exponent_max) h.now }
    ensures powers { IfOk result (ArePowers (F.ops f.now) (O.order o.now) p.now) }
    ensures reached { IfOk result (λ r. All (λ t. exponent t.at place ≤ length r + 1) h.now) }
{
    let mut powers = Powers {
        from_square: Vec::new(alloc),
    };
    for t in h {
        powers.reach(alloc, f, o, p, t.at.exponent(place) as usize)?;
    }
    Ok(powers)
}

/// For each place the powers that the terms need.
pub(crate) fn power_table<F: Field, O: Order>(
    alloc: Global,
    f: &F,
    o: &O,
    h: &[Term<F::Elem>],
    at: &[Poly<F>],
) -> Result<Vec<Powers<F>>, Memory>
    requires at { All (IsCanonical (F.ops f.now) (O.order o.now)) at.now }
    requires small { HasSmallValue (O.order o.now) at.now h.now }
    ensures table { IfOk result (λ r. IsTable (F.ops f.now) (O.order o.now) at.now r.items) }
    ensures reached { IfOk result (λ r. All (λ t. Reaches r.items t.at) h.now) }
{
    let mut table = Vec::new(alloc);
    for (place, p) in at.iter().enumerate() {
        table.push(powers_at(alloc, f, o, h, place, p)?)?;
    }
    Ok(table)
}

/// The terms of a constant polynomial.
fn constant_terms<F: Field, O: Order>(
    alloc: Global,
    f: &F,
    o: &O,
    c: F::Elem,
) -> Result<Vec<Term<F::Elem>>, Memory>
    requires { IsValue (F.ops f.now) c }
    ensures canonical { IfOk result (λ r. IsCanonical (F.ops f.now) (O.order o.now) r.items) }
    ensures constant { IfOk result (λ r. Same (F.ops f.now) r.items (constant (F.ops f.now) c)) }
    ensures degree { IfOk result (λ r. AllAt (λ m. (O.order o.now).degree m ≤ 0) r.items) }
{
    let mut terms = Vec::new(alloc);
    if c != f.zero() {
        terms.push(Term {
            at: Monomial::one(alloc),
            by: c,
        })?;
    }
    Ok(terms)
}

/// The value of a term.
fn value_of_term<F: Field, O: Order>(
    alloc: Global,
    f: &F,
    o: &O,
    t: &Term<F::Elem>,
    at: &[Poly<F>],
    table: &[Powers<F>],
) -> Result<Vec<Term<F::Elem>>, Memory>
    requires term { IsTerm (F.ops f.now) (length at.now) t.now }
    requires at { All (IsCanonical (F.ops f.now) (O.order o.now)) at.now }
    requires small { value_degree (O.order o.now) at.now t.now.at ≤ exponent_max }
    requires table { IsTable (F.ops f.now) (O.order o.now) at.now table.now }
    requires reached { Reaches table.now t.now.at }
    ensures canonical { IfOk result (λ r. IsCanonical (F.ops f.now) (O.order o.now) r.items) }
    ensures value { IfOk result (λ r. Same (F.ops f.now) r.items (term_value (F.ops f.now) at.now t.now)) }
{
    let mut product = constant_terms(alloc, f, o, t.by)?;
    let mut place = t.at.places();
    'places: while place > 0 {
        place -= 1;
        let e = t.at.exponent(place) as usize;
        if e > 0 {
            let row = &table[place];
            let p = &at[place];
            let power = row.power(p, e);
            let next = multiply(alloc, f, o, power.terms(), product.as_slice())?;
            product = next;
        }
    }
    Ok(product)
}

/// The sum of the values of the terms, by halves.
pub(crate) fn sum_of_values<F: Field, O: Order>(
    alloc: Global,
    f: &F,
    o: &O,
    h: &[Term<F::Elem>],
    at: &[Poly<F>],
    table: &[Powers<F>],
) -> Result<Vec<Term<F::Elem>>, Memory>
    requires terms { All (IsTerm (F.ops f.now) (length at.now)) h.now }
    requires at { All (IsCanonical (F.ops f.now) (O.order o.now)) at.now }
    requires small { HasSmallValue (O.order o.now) at.now h.now }
    requires table { IsTable (F.ops f.now) (O.order o.now) at.now table.now }
    requires reached { All (λ t. Reaches table.now t.at) h.now }
    ensures canonical { IfOk result (λ r. IsCanonical (F.ops f.now) (O.order o.now) r.items) }
    ensures value { IfOk result (λ r. Same (F.ops f.now) r.items (value (F.ops f.now) h.now at.now)) }
{
    match h {
        [] => Ok(Vec::new(alloc)),
        [t] => value_of_term(alloc, f, o, t, at, table),
        _ => {
            let (front, back) = h.split_at(h.len() / 2);
            let greater = sum_of_values(alloc, f, o, front, at, table)?;
            let smaller = sum_of_values(alloc, f, o, back, at, table)?;
            merge(alloc, f, o, greater, smaller)
        }
    }
}
