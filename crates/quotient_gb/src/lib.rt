//! The ideal of a presentation to a degree: its leads, and normal forms modulo it.
#![tactic(auto)]

mod basis;
mod critical_pair;
mod degree_step;
mod later_degrees;
pub mod laws;
mod quotient;
mod remainder;
mod s_polynomial;
mod waiting_pairs;

pub use quotient::Quotient;
