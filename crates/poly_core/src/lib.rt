//! Polynomials over a field, in an order of monomials, with their names, texts and presentations.
#![tactic(auto)]

mod name_table;
mod place_names;
mod polynomial;
mod presentations;
mod products;
mod sums;
mod text;
mod values;

pub use name_table::NameTable;
pub use place_names::Names;
pub use polynomial::Poly;
pub use presentations::Presentation;
pub use text::write_monomial;
