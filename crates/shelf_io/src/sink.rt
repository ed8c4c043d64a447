//! A sink for bytes, as a trait.
ghost use Rattle.std.specs.Prelude.{Option, ℕ, ◌≤◌, ◌<◌, List, length, IfOk, OnErr};
ghost use Rattle.shelf_io.specs.Counts.{HasRisen};
ghost use Rattle.shelf_io.specs.Sink.{Continues, accepted};

/// Nothing of a piece was taken.
#[derive(Clone, Copy, Debug, PartialEq, Eq)]
pub struct SinkFailed;

/// Where bytes go, in order.
pub trait Sink {
    /// All bytes taken so far, if they are known. Once they are unknown, they stay unknown.
    ghost taken: { Self → Option (List ℕ) };

    /// How often a put has failed.
    ghost faults: { Self → ℕ };

    /// Takes bytes from the front of the piece, at least one, and answers how many.
    fn put(&mut self, piece: &[u8]) -> Result<usize, SinkFailed>
        requires { 0 < length piece.now }
        ensures some { IfOk result (λ n. 0 < n) }
        ensures within { IfOk result (λ n. n ≤ length piece.now) }
        ensures taken { Continues (taken self.old) (accepted result piece.now) (taken self.new) }
        ensures counted { faults self.old ≤ faults self.new }
        ensures failed { OnErr result (HasRisen (faults self.old) (faults self.new)) };
}
