//! Finite fields of 4, 9 and 49 elements: pairs of numbers below a prime.
#![tactic(auto)]

pub mod laws;
mod pair;
mod pair_field;

pub use pair::Pair;
pub use pair_field::PairField;
