//! Letters of words.

/// A letter of a word, and its exponent.
#[derive(Drop)]
pub(crate) struct Factor {
    pub(crate) letter: usize,
    pub(crate) exponent: u16,
}
