//! How a word is made, letter by letter.
use crate::products::Split;
use monomial_order::Monomial;

/// A word, and how it splits.
#[derive(Drop)]
pub(crate) struct Step {
    pub word: Monomial,
    pub split: Split,
}

/// The words to be made, the last one first, and the word that they begin with.
#[derive(Drop)]
pub(crate) struct Path {
    pub steps: Vec<Step>,
    pub start: Monomial,
}
