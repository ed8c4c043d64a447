//! Products of decreasing lists of terms.
ghost use Rattle.std.specs.Prelude.{◌≡◌, [], IfOk, All};
ghost use Rattle.word_field.specs.Field.{IsValue};
ghost use Rattle.polynomials.specs.Polynomial.{term_of, IsCanonical, IsTerm, IsSmall, Same, scaled, times};

use crate::sums::merge;
use monomial_order::{Memory, Monomial, Order, Term};
use std::alloc::Global;
use word_field::Field;

/// The terms, every coefficient times c.
pub(crate) fn scale_terms<F: Field>(
    alloc: Global,
    f: &F,
    c: F::Elem,
    terms: &[Term<F::Elem>],
) -> Result<Vec<Term<F::Elem>>, Memory>
    requires factor { IsValue (F.ops f.now) c }
    requires values { All (λ t. IsValue (F.ops f.now) t.by) terms.now }
    ensures { IfOk result (λ r. r.items ≡ scaled (F.ops f.now) (term_of [] c) terms.now) }
{
    let mut products = Vec::with_capacity(alloc, terms.len())?;
    for t in terms {
        products.push(Term {
            at: t.at.copy(alloc)?,
            by: f.mul(c, t.by),
        })?;
    }
    Ok(products)
}

/// The terms, each times the term c at m.
pub(crate) fn times_terms<F: Field, O: Order>(
    alloc: Global,
    f: &F,
    o: &O,
    c: F::Elem,
    m: &Monomial,
    terms: &[Term<F::Elem>],
) -> Result<Vec<Term<F::Elem>>, Memory>
    requires canonical { IsCanonical (F.ops f.now) (O.order o.now) terms.now }
    requires term { IsTerm (F.ops f.now) (O.order o.now).places (term_of m.now c) }
    requires small { IsSmall (O.order o.now) (scaled (F.ops f.now) (term_of m.now c) terms.now) }
    ensures { IfOk result (λ r. r.items ≡ scaled (F.ops f.now) (term_of m.now c) terms.now) }
{
    let mut products = Vec::with_capacity(alloc, terms.len())?;
    for t in terms {
        products.push(Term {
            at: m.times(alloc, &t.at)?,
            by: f.mul(c, t.by),
        })?;
    }
    Ok(products)
}

/// The product of two decreasing lists.
pub(crate) fn multiply<F: Field, O: Order>(
    alloc: Global,
    f: &F,
    o: &O,
    a: &[Term<F::Elem>],
    b: &[Term<F::Elem>],
) -> Result<Vec<Term<F::Elem>>, Memory>
    requires a { IsCanonical (F.ops f.now) (O.order o.now) a.now }
    requires b { IsCanonical (F.ops f.now) (O.order o.now) b.now }
    requires small { IsSmall (O.order o.now) (times (F.ops f.now) a.now b.now) }
    ensures canonical { IfOk result (λ r. IsCanonical (F.ops f.now) (O.order o.now) r.items) }
    ensures product { IfOk result (λ r. Same (F.ops f.now) r.items (times (F.ops f.now) a.now b.now)) }
{
    if a.len() <= b.len() {
        multiply_by_halves(alloc, f, o, a, b)
    } else {
        multiply_by_halves(alloc, f, o, b, a)
    }
}

/// The product of two decreasing lists, by the halves of the first.
fn multiply_by_halves<F: Field, O: Order>(
    alloc: Global,
    f: &F,
    o: &O,
    a: &[Term<F::Elem>],
    b: &[Term<F::Elem>],
) -> Result<Vec<Term<F::Elem>>, Memory>
    requires a { IsCanonical (F.ops f.now) (O.order o.now) a.now }
    requires b { IsCanonical (F.ops f.now) (O.order o.now) b.now }
    requires small { IsSmall (O.order o.now) (times (F.ops f.now) a.now b.now) }
    ensures canonical { IfOk result (λ r. IsCanonical (F.ops f.now) (O.order o.now) r.items) }
    ensures product { IfOk result (λ r. Same (F.ops f.now) r.items (times (F.ops f.now) a.now b.now)) }
{
    match a {
        [] => Ok(Vec::new(alloc)),
        [t] => times_terms(alloc, f, o, t.by, &t.at, b),
        _ => {
            let (front, back) = a.split_at(a.len() / 2);
            let greater = multiply_by_halves(alloc, f, o, front, b)?;
            let smaller = multiply_by_halves(alloc, f, o, back, b)?;
            merge(alloc, f, o, greater, smaller)
        }
    }
}
