//! Why a text was not read.
ghost use Rattle.std.specs.Prelude.{◌≡◌};
ghost use Rattle.presentation_text.specs.declared.text_fault.TextFault.TheVariants.{Memory};

use crate::text_kind::TextKind;
use monomial_order::Memory;
use std::alloc::{AllocError, AllocFailed};
use thiserror::Error;

/// Why a text was not read. Lines are counted from 1.
#[derive(Debug, Drop, Error)]
pub enum TextFault {
    /// Out of memory.
    #[error("out of memory")]
    Memory,
    /// The first fault of the text.
    #[error("line {line}: {kind:?}")]
    At { kind: TextKind, line: u32 },
}

impl From<Memory> for TextFault {
    ghost from_gives = { λ _ e. e ≡ Memory };

    fn from(_memory: Memory) -> TextFault {
        TextFault::Memory
    }
}

impl From<AllocError> for TextFault {
    ghost from_gives = { λ _ e. e ≡ Memory };

    fn from(_error: AllocError) -> TextFault {
        TextFault::Memory
    }
}

impl<T: Drop> From<AllocFailed<T>> for TextFault {
    ghost from_gives = { λ _ e. e ≡ Memory };

    fn from(_failed: AllocFailed<T>) -> TextFault {
        TextFault::Memory
    }
}
