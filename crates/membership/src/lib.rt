//! Whether polynomials are in a subalgebra.
#![tactic(auto)]

mod queries;
mod reply;

pub use queries::answer;
pub use reply::Reply;
