//! Sums of decreasing lists of terms.
ghost use Rattle.std.specs.Prelude.{◌≡◌, ◌≢◌, ◌++◌, ◌∷◌, [], ◌<◌, vec_len, IfOk, OnOk, All};
ghost use Rattle.word_field.specs.Field.{IsValue};
ghost use Rattle.polynomials.specs.Polynomial.{term_of, IsCanonical, Same, component, IsMeasured};
ghost use Rattle.poly_core.specs.Merging.{MovesLast, AddsLast};

use monomial_order::{Memory, Order, Term};
use std::alloc::Global;
use std::cmp::Ordering;
use word_field::Field;

/// A copy of the terms.
pub(crate) fn copy_terms<E: Copy>(alloc: Global, terms: &[Term<E>]) -> Result<Vec<Term<E>>, Memory>
    ensures { IfOk result (λ r. r.items ≡ terms.now) }
{
    let mut copies = Vec::with_capacity(alloc, terms.len())?;
    for t in terms {
        copies.push(Term {
            at: t.at.copy(alloc)?,
            by: t.by,
        })?;
    }
    Ok(copies)
}

/// A copy of the terms of degree d.
pub(crate) fn terms_of_degree<E: Copy, O: Order>(
    alloc: Global,
    o: &O,
    terms: &[Term<E>],
    d: u32,
) -> Result<Vec<Term<E>>, Memory>
    requires { All (IsMeasured (O.order o.now)) terms.now }
    ensures { IfOk result (λ r. r.items ≡ component (O.order o.now) d terms.now) }
{
    let mut copies = Vec::new(alloc);
    for t in terms {
        if o.degree(&t.at) == d {
            copies.push(Term {
                at: t.at.copy(alloc)?,
                by: t.by,
            })?;
        }
    }
    Ok(copies)
}

/// Moves the last item of one list to the end of the other.
fn move_last<T: Drop>(from: &mut Vec<T>, to: &mut Vec<T>) -> Result<(), Memory>
    requires { 0 < vec_len from.old }
    ensures { OnOk result (MovesLast from.old.items from.new.items to.old.items to.new.items) }
{
    if let Some(item) = from.pop() {
        to.push(item)?;
    }
    Ok(())
}

/// Takes the last term of both lists, which are at one monomial, and puts their sum at the end of a third.
fn add_last<F: Field>(
    f: &F,
    a: &mut Vec<Term<F::Elem>>,
    b: &mut Vec<Term<F::Elem>>,
    to: &mut Vec<Term<F::Elem>>,
) -> Result<(), Memory>
    requires a { 0 < vec_len a.old }
    requires b { 0 < vec_len b.old }
    requires a_values { All (λ t. IsValue (F.ops f.now) t.by) a.old.items }
    requires b_values { All (λ t. IsValue (F.ops f.now) t.by) b.old.items }
    ensures { OnOk result
        (AddsLast (F.ops f.now) a.old.items a.new.items b.old.items b.new.items to.old.items to.new.items) }
{
    if let Some(s) = a.pop() {
        if let Some(t) = b.pop() {
            let by = f.add(s.by, t.by);
            if by != f.zero() {
                to.push(Term { at: s.at, by })?;
            }
        }
    }
    Ok(())
}

/// An empty list with room for as many items as both lists have.
fn room_for_both<T>(alloc: Global, a: &Vec<T>, b: &Vec<T>) -> Result<Vec<T>, Memory>
    ensures { IfOk result (λ r. r.items ≡ []) }
{
    let room = Vec::with_capacity(alloc, a.len().saturating_add(b.len()))?;
    Ok(room)
}

/// The sum of two decreasing lists.
pub(crate) fn merge<F: Field, O: Order>(
    alloc: Global,
    f: &F,
    o: &O,
    mut a: Vec<Term<F::Elem>>,
    mut b: Vec<Term<F::Elem>>,
) -> Result<Vec<Term<F::Elem>>, Memory>
    requires a { IsCanonical (F.ops f.now) (O.order o.now) a.items }
    requires b { IsCanonical (F.ops f.now) (O.order o.now) b.items }
    ensures canonical { IfOk result (λ r. IsCanonical (F.ops f.now) (O.order o.now) r.items) }
    ensures sum { IfOk result (λ r. Same (F.ops f.now) r.items (a.items ++ b.items)) }
{
    // The end of the sum, its least term first.
    let mut rising = room_for_both(alloc, &a, &b)?;
    'both: while !a.is_empty() && !b.is_empty() {
        let s = &a[a.len() - 1];
        let t = &b[b.len() - 1];
        match o.compare(&s.at, &t.at) {
            Ordering::Less => move_last(&mut a, &mut rising)?,
            Ordering::Greater => move_last(&mut b, &mut rising)?,
            Ordering::Equal => add_last(f, &mut a, &mut b, &mut rising)?,
        }
    }
    let mut sum = if a.is_empty() { b } else { a };
    sum.reserve(rising.len())?;
    'end: while let Some(t) = rising.pop() {
        sum.push(t)?;
    }
    Ok(sum)
}
