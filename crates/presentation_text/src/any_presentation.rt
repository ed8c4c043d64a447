//! Presentations over fields of both kinds.
use ext_field::PairField;
use monomial_order::WeightOrder;
use poly_core::Presentation;
use word_field::WordField;

/// A presentation over a field of numbers or of pairs.
#[derive(Drop)]
pub enum AnyPresentation {
    Word(Presentation<WordField, WeightOrder>),
    Pair(Presentation<PairField, WeightOrder>),
}
