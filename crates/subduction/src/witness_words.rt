//! Words over the elements as words of witnesses.
ghost use Rattle.std.specs.Prelude.{◌≡◌, ◌+◌, ◌<◌, ◌^◌, map, IfOk, List};
ghost use Rattle.polynomials.specs.Polynomial.{term_of};
ghost use Rattle.subduction.specs.Subduced.{witness_word};

use monomial_order::{Memory, Monomial, Term};
use std::alloc::Global;
use word_field::Field;

/// The word with its places from n on moved to those from k on: an s-word as a word of witnesses.
pub fn moved_word(alloc: Global, n: usize, k: usize, w: &Monomial) -> Result<Monomial, Memory>
    ensures { IfOk result (λ m. m ≡ witness_word n k w.now) }
{
    let exponents = w.as_slice();
    if exponents.len() <= n {
        return Ok(Monomial::one(alloc));
    }
    let mut places = vec![in alloc; 0u16; k]?;
    places.extend_from_slice(&exponents[n..])?;
    let moved = Monomial::from_places(alloc, places.as_slice())?;
    Ok(moved)
}

/// The terms at the moved words.
pub(crate) fn moved_terms<F: Field>(
    alloc: Global,
    n: usize,
    k: usize,
    terms: &[Term<F::Elem>],
) -> Result<Vec<Term<F::Elem>>, Memory>
    ensures { IfOk result (λ v. v.items ≡ map (λ t. term_of (witness_word n k t.at) t.by) terms.now) }
{
    let mut moved = Vec::with_capacity(alloc, terms.len())?;
    for t in terms {
        moved.push(Term {
            at: moved_word(alloc, n, k, &t.at)?,
            by: t.by,
        })?;
    }
    Ok(moved)
}
