//! Letters of words.
ghost use Rattle.std.specs.Prelude.{◌≡◌, ◌<◌, ◌≢◌, length, IfOk, IfSome, IsNone};
ghost use Rattle.monomial_order.specs.Monomial.{exponent, product, variable, IsTrimmed};
ghost use Rattle.word_values.specs.Values.{IsLetter};

use monomial_order::{Memory, Monomial};
use std::alloc::Global;

/// The place of the letter, if the word is one letter alone.
pub(crate) fn single_letter(w: &Monomial) -> Option<usize>
    ensures letter { IfSome result (λ i. w.now ≡ variable i) }
    ensures none { IsNone result → ¬ IsLetter w.now }
{
    let (last, front) = w.as_slice().split_last()?;
    if *last == 1 && front.iter().all(|e| *e == 0) {
        Some(front.len())
    } else {
        None
    }
}

/// The word without one of its letters.
pub(crate) fn without(alloc: Global, w: &Monomial, letter: usize) -> Result<Monomial, Memory>
    requires { exponent w.now letter ≢ 0 }
    ensures product { IfOk result (λ v. product (variable letter) v ≡ w.now) }
    ensures trimmed { IfOk result IsTrimmed }
{
    if letter >= w.places() {
        unreachable!()
    }
    let variable = Monomial::variable(alloc, letter)?;
    let Some(rest) = w.quotient(alloc, &variable)? else {
        unreachable!()
    };
    Ok(rest)
}
