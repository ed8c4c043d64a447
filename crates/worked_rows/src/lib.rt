//! What reads rows of text for the tests of the other crates: presentations, polynomials, monomials and numbers.
#![tactic(auto)]

pub mod monomials;
pub mod rings;
pub mod rows;
