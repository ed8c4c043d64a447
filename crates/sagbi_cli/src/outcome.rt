//! How a run ends.
ghost use Rattle.std.specs.Prelude.{◌≡◌};

use crate::Stop;

/// The output was taken whole, the words are no command, the sink failed, or the command was stopped before its output.
#[derive(Clone, Copy, Debug, PartialEq, Eq)]
pub enum Outcome {
    Done,
    Usage,
    Sink,
    Stopped(Stop),
}

impl Outcome {
    ghost use Rattle.sagbi_cli.specs.Outcome.{status_of};

    /// The exit status of a run.
    pub fn status(self) -> u8
        ensures { result ≡ status_of self }
    {
        match self {
            Outcome::Done => 0,
            Outcome::Usage => 1,
            Outcome::Sink => 6,
            Outcome::Stopped(stop) => stop.status(),
        }
    }
}
