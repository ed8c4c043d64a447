//! Zeros above a degree.
ghost use Rattle.std.specs.Prelude.{◌≡◌, ◌≤◌, ◌<◌, true, false, Contains};
ghost use Rattle.monomial_order.specs.Monomial.{Exponents, weighted_degree};
ghost use Rattle.word_rewriting.specs.Completeness.{AreInX};
ghost use Rattle.toric_ideal.specs.Alphabet.{letters_of, IsAlphabet};
ghost use Rattle.toric_ideal.specs.Step.{AreSmallZeros};

use crate::alphabet::Alphabet;
use monomial_order::{Monomial, Order};

/// Whether a zero has a degree above d.
pub(crate) fn has_zero_above(alphabet: &Alphabet, zeros: &[Monomial], d: u32) -> bool
    requires alphabet { IsAlphabet alphabet.now }
    requires zeros { AreInX (letters_of alphabet.now) zeros.now }
    requires degrees { AreSmallZeros (letters_of alphabet.now) zeros.now }
    ensures yes { result ≡ true → (z : Exponents) × Contains zeros.now z
        × (d < weighted_degree (letters_of alphabet.now).degrees z) }
    ensures no { result ≡ false → (z : Exponents) → Contains zeros.now z
        → weighted_degree (letters_of alphabet.now).degrees z ≤ d }
{
    'zeros: for zero in zeros {
        if alphabet.order.degree(zero) > d {
            return true;
        }
    }
    false
}
