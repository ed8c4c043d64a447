//! Least words, by rewriting.
ghost use Rattle.std.specs.Prelude.{◌≡◌, true, false, length, IfOk};
ghost use Rattle.monomial_order.specs.Monomial.{weighted_degree, IsMonomial, IsMultiple};
ghost use Rattle.word_laws.specs.Words.{image_of, word_order_of, IsSWord, IsWord};
ghost use Rattle.word_rewriting.specs.Completeness.{IsLeastOrZero};
ghost use Rattle.toric_ideal.specs.Alphabet.{letters_of, IsAlphabet};
ghost use Rattle.toric_ideal.specs.Listing.{IsDecided};
ghost use Rattle.toric_ideal.specs.State.{listing_of, IsFactor, IsSound};

use crate::alphabet::Alphabet;
use crate::completion::Completion;
use monomial_order::{Memory, Monomial};
use std::alloc::Global;

impl Alphabet {
    /// Whether an x is in the word.
    fn has_x(&self, w: &Monomial) -> bool
        requires alphabet { IsAlphabet self.now }
        requires word { IsWord (letters_of self.now) w.now }
        ensures s_word { result ≡ false → IsSWord (letters_of self.now) w.now }
        ensures other { result ≡ true → ¬ IsSWord (letters_of self.now) w.now }
    {
        for place in 0..self.order.x_degrees.len() {
            if w.exponent(place) > 0 {
                return true;
            }
        }
        false
    }
}

impl Completion {
    /// The least word with the image of w, or None if that is a multiple of a zero.
    pub(crate) fn least(&self, alloc: Global, w: &Monomial) -> Result<Option<Monomial>, Memory>
        requires sound { IsSound self.now }
        requires word { IsWord (letters_of self.now.alphabet) w.now }
        requires degree { IsDecided (listing_of self.now)
            ((word_order_of (letters_of self.now.alphabet)).degree w.now) }
        ensures { IfOk result (IsLeastOrZero (IsMultiple self.now.zeros.items) (letters_of self.now.alphabet)
            (image_of (letters_of self.now.alphabet) w.now)) }
    {
        self.table.rewrite(alloc, &self.alphabet.order, w)
    }

    /// The least s-word with the image m, if there is one.
    pub(crate) fn factor(&self, alloc: Global, m: &Monomial) -> Result<Option<Monomial>, Memory>
        requires sound { IsSound self.now }
        requires monomial { IsMonomial (length (letters_of self.now.alphabet).degrees) m.now }
        requires standard { ¬ IsMultiple self.now.zeros.items m.now }
        requires degree { IsDecided (listing_of self.now)
            (weighted_degree (letters_of self.now.alphabet).degrees m.now) }
        ensures { IfOk result (IsFactor (letters_of self.now.alphabet) m.now) }
    {
        match self.least(alloc, m)? {
            Some(word) => {
                if self.alphabet.has_x(&word) {
                    return Ok(None);
                }
                Ok(Some(word))
            }
            None => Ok(None),
        }
    }
}
