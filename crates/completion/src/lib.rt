//! The completion of a presentation: the reduced basis of its subalgebra degree by degree, with the relations.
//!
//! The candidates of a degree are the generators and the minimal reducible s-words of this degree. Each is subducted,
//! in any order; what is left of it is a new element. At the end of the degree its elements are reduced by each other.
#![tactic(auto)]

mod candidates;
mod closing;
mod completion;
mod cutting;
mod insertion;
mod later;
pub mod laws;
mod pick;
mod relation_lines;
mod relations;
mod report;
mod right_sides;
mod running;

pub use candidates::{Candidate, Found};
pub use completion::{BOUND_MAX, Completion};
pub use pick::Pick;
pub use relation_lines::push_relations;
pub use relations::Relation;
