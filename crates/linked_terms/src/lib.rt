//! Lists of terms whose nodes are linked by index, so that sums are made in place.
#![tactic(auto)]

mod cursor_list;
mod merging;
mod term_chain;

pub use term_chain::TermChain;
