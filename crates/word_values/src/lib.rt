//! The values of words over the elements of a basis, kept from use to use.
#![tactic(auto)]

pub mod laws;
mod paths;
mod products;
mod values;
mod words;

pub use values::Values;
