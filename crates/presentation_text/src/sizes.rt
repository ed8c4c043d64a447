//! Which sizes of fields a call knows.
ghost use Rattle.std.specs.Prelude.{◌≡◌};
ghost use Rattle.presentation_text.specs.Sizes.{is_known};

use ext_field::PairField;
use word_field::WordField;

/// The sizes of fields that a reader knows.
#[derive(Clone, Copy)]
pub(crate) enum Sizes {
    Primes,
    All,
}

impl Sizes {
    pub fn has(self, size: u32) -> bool
        ensures { result ≡ is_known self size }
    {
        match self {
            Sizes::Primes => WordField::new(size).is_some(),
            Sizes::All => WordField::new(size).is_some() || PairField::new(size).is_some(),
        }
    }
}
