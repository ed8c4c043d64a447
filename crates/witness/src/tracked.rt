//! Values with their witnesses.
use poly_core::Poly;
use word_field::Field;

/// A polynomial, and a polynomial in g1, g2, .. and s1, s2, .. that has this value at the generators and the elements,
/// up to a member of the ideal. The places of the elements come after those of the generators.
#[derive(Drop)]
pub struct Tracked<F: Field> {
    pub value: Poly<F>,
    pub by: Poly<F>,
}
