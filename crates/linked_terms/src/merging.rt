//! Sums of decreasing lists of terms, made in the first of them.
ghost use Rattle.std.specs.Prelude.{◌≡◌, ◌≢◌, ◌+◌, ◌<◌, ◌≤◌, [], ◌∷◌, ◌++◌, length, All};
ghost use Rattle.monomial_order.specs.declared.terms.Term.{Term};
ghost use Rattle.monomial_order.specs.Limits.{exponent_max};
ghost use Rattle.word_field.specs.Field.{IsValue};
ghost use Rattle.polynomials.specs.Polynomial.{Polynomial, term_of, scaled, Same, AllAt, IsTerm, IsSmall, IsMeasured, IsCanonical};
ghost use Rattle.linked_terms.specs.Merging.{IsAbove, IsSought, IsCombined, IsAdded};

use crate::cursor_list::CursorList;
use monomial_order::{Monomial, Order, Term};
use std::alloc::Global;
use std::cmp::Ordering;
use word_field::Field;

/// Moves the cursor past the terms that are greater than m. Whether the next one is at m.
fn seek<E: Drop, O: Order>(list: &mut CursorList<Term<E>>, o: &O, m: &Monomial) -> bool
    requires list { All (IsMeasured (O.order o.now)) list.old.after }
    requires monomial { (t : Term E) × (t.at ≡ m.now) × IsMeasured (O.order o.now) t }
    ensures { IsSought (O.order o.now) m.now result list.old list.new }
{
    while let Some(next) = list.peek() {
        match o.compare(&next.at, m) {
            Ordering::Greater => list.advance(),
            Ordering::Equal => return true,
            Ordering::Less => return false,
        }
    }
    false
}

/// Adds to the coefficient of the term after the cursor, and moves the cursor past the sum. The node becomes spare if
/// the sum is zero.
fn combine<F: Field>(list: &mut CursorList<Term<F::Elem>>, f: &F, by: F::Elem)
    requires values { All (λ t. IsValue (F.ops f.now) t.by) list.old.after }
    requires value { IsValue (F.ops f.now) by }
    ensures { (next : Term F.Elem) (rest : Polynomial F.Elem) → list.old.after ≡ next ∷ rest →
        IsCombined (F.ops f.now) by next rest list.old list.new }
{
    let Some(next) = list.remove() else {
        return;
    };
    let sum = f.add(next.by, by);
    if sum == f.zero() {
        return;
    }
    list.insert(Term {
        at: next.at,
        by: sum,
    });
}

/// Adds a term that is less than all terms before the cursor. Its monomial is copied if no term is at it.
fn add_term<F: Field, O: Order>(
    list: &mut CursorList<Term<F::Elem>>,
    alloc: Global,
    f: &F,
    o: &O,
    at: &Monomial,
    by: F::Elem,
)
    requires list { IsCanonical (F.ops f.now) (O.order o.now) (list.old.before ++ list.old.after) }
    requires above { IsAbove (O.order o.now) at.now list.old.before }
    requires term { IsTerm (F.ops f.now) (O.order o.now).places (term_of at.now by) }
    requires nonzero { by ≢ (F.ops f.now).zero }
    requires small { (O.order o.now).degree at.now ≤ exponent_max }
    requires short { length at.now ≤ 32 }
    requires spare { 0 < list.old.spare }
    ensures { IsAdded (F.ops f.now) (O.order o.now) (term_of at.now by) list.old list.new }
{
    if seek(list, o, at) {
        combine(list, f, by);
        return;
    }
    let Ok(at) = at.copy(alloc) else {
        unreachable!()
    };
    list.insert(Term { at, by });
}

/// Adds c times m times the terms to a list with the cursor before its first term.
pub(crate) fn merge_scaled<F: Field, O: Order>(
    list: &mut CursorList<Term<F::Elem>>,
    alloc: Global,
    f: &F,
    o: &O,
    terms: &[Term<F::Elem>],
    c: F::Elem,
    m: &Monomial,
)
    requires start { list.old.before ≡ [] }
    requires list { IsCanonical (F.ops f.now) (O.order o.now) list.old.after }
    requires terms { IsCanonical (F.ops f.now) (O.order o.now) terms.now }
    requires term { IsTerm (F.ops f.now) (O.order o.now).places (term_of m.now c) }
    requires nonzero { c ≢ (F.ops f.now).zero }
    requires small { IsSmall (O.order o.now) (scaled (F.ops f.now) (term_of m.now c) terms.now) }
    requires short { length m.now ≤ 32 }
    requires short_terms { AllAt (λ k. length k ≤ 32) terms.now }
    requires spare { length terms.now ≤ list.old.spare }
    ensures start { list.new.before ≡ [] }
    ensures canonical { IsCanonical (F.ops f.now) (O.order o.now) list.new.after }
    ensures sum { Same (F.ops f.now) list.new.after
        (list.old.after ++ scaled (F.ops f.now) (term_of m.now c) terms.now) }
    ensures count { length list.new.after + list.new.spare ≡ length list.old.after + list.old.spare }
{
    for t in terms {
        let by = f.mul(c, t.by);
        if m.places() == 0 {
            add_term(list, alloc, f, o, &t.at, by);
            continue;
        }
        let Ok(at) = m.times(alloc, &t.at) else {
            unreachable!()
        };
        add_term(list, alloc, f, o, &at, by);
    }
    list.rewind();
}
