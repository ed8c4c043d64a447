//! Terms.
use crate::Monomial;

/// A term: a coefficient at a monomial.
#[derive(Drop)]
pub struct Term<E> {
    pub at: Monomial,
    pub by: E,
}
