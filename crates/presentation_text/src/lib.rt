//! Presentations and query files as texts: reading them, the first fault of every other text, and writing them.
#![tactic(auto)]

mod any_presentation;
mod fixed_lines;
mod head;
pub mod laws;
mod lines;
mod numbers;
mod poly_line;
mod polys;
mod queries;
mod reading;
mod sizes;
mod text_fault;
mod text_kind;
mod tokens;
mod writing;

pub use any_presentation::AnyPresentation;
pub use polynomial_text::read_canonical;
pub use queries::read_polys;
pub use reading::{read, read_any};
pub use text_fault::TextFault;
pub use text_kind::TextKind;
pub use writing::write;

/// The most bytes of a text that is read.
pub const TEXT_MAX: u64 = 16_777_216;
