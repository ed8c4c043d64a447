//! Why a line was not read.
ghost use Rattle.std.specs.Prelude.{◌≡◌};
ghost use Rattle.polynomial_text.specs.declared.line_fault.LineFault.TheVariants.{Memory};

use monomial_order::Memory;
use std::alloc::{AllocError, AllocFailed};

/// What is wrong with the line of a polynomial.
#[derive(Clone, Copy, Debug, PartialEq, Eq)]
pub enum LineKind {
    /// The line has not the form of a polynomial.
    PolySyntax,
    /// A name is none of the variables.
    UnknownName,
    /// A number has more digits than `DIGITS_MAX`.
    NumberTooLong,
    /// A factor brings the degree of its term above `DEGREE_MAX`.
    DegreeTooLarge,
}

/// Why a line was not read.
#[derive(Clone, Copy)]
pub enum LineFault<K> {
    /// Out of memory.
    Memory,
    /// The first fault of the line.
    Kind(K),
}

impl<K> From<Memory> for LineFault<K> {
    ghost from_gives = { λ _ e. e ≡ Memory };

    fn from(_memory: Memory) -> LineFault<K> {
        LineFault::Memory
    }
}

impl<K> From<AllocError> for LineFault<K> {
    ghost from_gives = { λ _ e. e ≡ Memory };

    fn from(_error: AllocError) -> LineFault<K> {
        LineFault::Memory
    }
}

impl<K, T: Drop> From<AllocFailed<T>> for LineFault<K> {
    ghost from_gives = { λ _ e. e ≡ Memory };

    fn from(_failed: AllocFailed<T>) -> LineFault<K> {
        LineFault::Memory
    }
}
