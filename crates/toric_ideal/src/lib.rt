//! Words of leading monomials, exact to a degree, or in every degree if the rules are closed.
//!
//! The rules are the minimal reducible words, each with the least word of its image. They come degree by degree: a rule
//! for each new zero, and for each pair of rules whose normal forms differ. So a least word is a normal form. A pair
//! waits in a queue for its degree; the pairs of the rules of the last degree are made when a greater one is asked for.
#![tactic(auto)]

mod alphabet;
mod closing;
mod completion;
mod copies;
mod degree_step;
mod growing;
mod increasing;
mod index_pair;
mod last_rules;
mod leading;
mod new_zeros;
mod normal_forms;
mod queueing;
mod renaming;
mod right_sides;
mod rule;
mod settling;
mod sorting;
mod words;

pub use increasing::sorted;
pub use rule::Rule;
pub use words::Words;
