//! The texts of states: what their lines are, and writing them.
#![tactic(auto)]

mod count_line;
mod element_line;
mod line_parts;
mod relation_line;
mod version;
mod writing;

pub use count_line::read_count;
pub use element_line::read_element;
pub use relation_line::read_relation;
pub use version::Version;
pub use writing::write;

/// The first number with more than 18 digits. No list of a state is so long.
pub(crate) const COUNT_MAX: u64 = 1_000_000_000_000_000_000;
