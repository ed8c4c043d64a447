//! Values with a witness: a polynomial in the generators and the elements of a basis that has this value.
#![tactic(auto)]

mod arithmetic;
mod expansion;
pub mod laws;
mod letters;
mod tracked;

pub use arithmetic::{product, reduce, scale, sum};
pub use expansion::{expand, greatest_degree};
pub use letters::{element, generator};
pub use tracked::Tracked;
