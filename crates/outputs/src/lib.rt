//! What is printed of a presentation: it is completed to a bound, and a text is made of the completion.
#![tactic(auto)]

mod answer_lines;
mod completing;
mod relation_lines;
mod reporting;
mod summaries;

pub use answer_lines::answers;
pub use relation_lines::relations;
pub use reporting::report;
pub use summaries::summary;
