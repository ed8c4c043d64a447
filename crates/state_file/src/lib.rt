//! States: the basis to a degree with its relations, as a text from which a completion can go on.
#![tactic(auto)]

mod writing;

pub use writing::write_state;
