//! A sink that never fails.
ghost use Rattle.std.specs.Prelude.{◌≡◌, ◌≤◌, ◌<◌, length, IfOk, OnErr};
ghost use Rattle.shelf_io.specs.Bounded.{no_bytes};
ghost use Rattle.shelf_io.specs.Counts.{HasRisen};
ghost use Rattle.shelf_io.specs.Sink.{Continues, accepted};

use crate::bounded_bytes::BoundedBytes;
use crate::{ShelfMemory, Sink, SinkFailed};
use std::alloc::Global;

/// A sink that takes each piece whole. Its room is made at the start, and bytes that do not fit are dropped.
#[derive(Drop)]
pub struct SteadySink {
    bytes: BoundedBytes,
}

impl SteadySink {
    ghost use Rattle.shelf_io.specs.SteadySink.{steady_bytes};

    pub fn new(alloc: Global, room: usize) -> Result<SteadySink, ShelfMemory>
        ensures { IfOk result (λ s. steady_bytes s ≡ no_bytes room) }
    {
        Ok(SteadySink {
            bytes: BoundedBytes::new(alloc, room)?,
        })
    }

    /// The bytes taken within the room.
    pub fn bytes(&self) -> &[u8]
        ensures { result.now ≡ (steady_bytes self.now).in_room }
    {
        self.bytes.as_slice()
    }
}

impl Sink for SteadySink {
    ghost use Rattle.shelf_io.specs.SteadySink.{steady_bytes};
    ghost use Rattle.shelf_io.specs.Bounded.{with_bytes};

    ghost taken = { λ s. (steady_bytes s).taken };

    ghost faults = { λ _. 0 };

    fn put(&mut self, piece: &[u8]) -> Result<usize, SinkFailed>
        requires { 0 < length piece.now }
        ensures some { IfOk result (λ n. 0 < n) }
        ensures within { IfOk result (λ n. n ≤ length piece.now) }
        ensures taken { Continues (steady_bytes self.old).taken (accepted result piece.now)
            (steady_bytes self.new).taken }
        ensures counted { 0 ≤ 0 }
        ensures failed { OnErr result (HasRisen 0 0) }
        ensures whole { result ≡ Ok (length piece.now) }
        ensures after { steady_bytes self.new ≡ with_bytes (steady_bytes self.old) piece.now }
    {
        self.bytes.take(piece);
        Ok(piece.len())
    }
}
