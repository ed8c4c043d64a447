//! Why a command prints nothing.
ghost use Rattle.std.specs.Prelude.{◌≡◌};
ghost use Rattle.sagbi_cli.specs.declared.stop.Stop.TheVariants.{Memory as no_memory};

use monomial_order::Memory;
use presentation_text::TextKind;
use std::alloc::AllocError;

/// A file that a command reads.
#[derive(Clone, Copy, Debug, PartialEq, Eq)]
pub enum Input {
    Presentation,
    Queries,
}

/// What stops a command before its output.
#[derive(Clone, Copy, Debug, PartialEq, Eq)]
pub enum Stop {
    Missing(Input),
    TooLong(Input),
    /// The first fault of a text, and its line.
    Fault(Input, TextKind, u32),
    Shelf,
    Memory,
}

impl Stop {
    ghost use Rattle.sagbi_cli.specs.Outcome.{stop_status};

    /// The exit status of a run that is stopped so.
    pub fn status(self) -> u8
        ensures { result ≡ stop_status self }
    {
        match self {
            Stop::Fault(Input::Presentation, _, _) => 2,
            Stop::Fault(Input::Queries, _, _) => 4,
            Stop::Shelf => 5,
            Stop::Memory => 7,
            Stop::Missing(_) => 8,
            Stop::TooLong(_) => 9,
        }
    }
}

impl From<Memory> for Stop {
    ghost from_gives = { λ _ e. e ≡ no_memory };

    fn from(_: Memory) -> Self {
        Stop::Memory
    }
}

impl From<AllocError> for Stop {
    ghost from_gives = { λ _ e. e ≡ no_memory };

    fn from(_: AllocError) -> Self {
        Stop::Memory
    }
}
