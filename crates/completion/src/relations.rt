//! Relations.

use monomial_order::Monomial;
use poly_core::Poly;
use word_field::Field;

/// A minimal reducible s-word, and the sum of irreducible s-words that has the same value modulo the ideal.
#[derive(Drop)]
pub struct Relation<F: Field> {
    pub word: Monomial,
    pub right: Poly<F>,
}
