//! Answers to queries.
use poly_core::Poly;
use word_field::Field;

/// What is known of a query: that its degree is out of reach, a polynomial in the generators with its value, or what is
/// left of it if it is no member of the subalgebra.
#[derive(Drop)]
pub enum Reply<F: Field> {
    Beyond(u32),
    Member(Poly<F>),
    No(Poly<F>),
}
