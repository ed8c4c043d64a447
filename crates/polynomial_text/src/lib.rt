//! Polynomials in texts: reading a line, its first fault, and canonical lines.
#![tactic(auto)]

mod byte_class;
mod canonical;
mod factor;
pub mod laws;
mod line_fault;
mod line_number;
mod line_parts;
mod line_reader;
mod named_place;
mod poly_line;
mod term_line;
mod term_sum;

pub use byte_class::{ByteClass, behind_blanks};
pub use canonical::read_canonical;
pub use line_fault::{LineFault, LineKind};
pub use line_number::{DIGITS_MAX, digits_value};
pub use poly_line::read_poly;
pub use term_line::DEGREE_MAX;
