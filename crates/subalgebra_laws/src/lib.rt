//! Laws of subalgebras and of their bases, as contracts of calls that do nothing.
#![tactic(auto)]

pub mod laws;
pub mod samples;
