//! Queues and stacks of items by degree: one list of items for each degree.
#![tactic(auto)]

mod links;
mod lists;
mod queue;
mod stacks;

pub use queue::{DEGREE_MAX, DegreeQueue};
pub use stacks::DegreeStacks;
