//! Bases of subalgebras to a degree, and subduction by them.
#![tactic(auto)]

mod basis;
mod coefficients;
mod cutting;
mod ideal_leads;
pub mod laws;
mod new_elements;
mod settling;
mod subduction;
mod term_sum;
mod witness_words;
mod word_step;

pub use basis::Basis;
pub use settling::lower_count;
pub use subduction::{Subduced, subduce, subduce_with};
pub use witness_words::moved_word;
pub use word_values::Values;
