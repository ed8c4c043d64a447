//! A sink in memory.
ghost use Rattle.std.specs.Prelude.{◌≡◌, ◌≤◌, ◌<◌, ◌↔◌, min, length, IfOk, OnOk, OnErr, IsErr, IsTrue};
ghost use Rattle.shelf_io.specs.Bounded.{no_bytes};
ghost use Rattle.shelf_io.specs.Calls.{no_calls, next_fails, with_failing};
ghost use Rattle.shelf_io.specs.Counts.{HasRisen};
ghost use Rattle.shelf_io.specs.Sink.{Continues, accepted};

use crate::bounded_bytes::BoundedBytes;
use crate::calls::Calls;
use crate::{ShelfMemory, Sink, SinkFailed};
use std::alloc::Global;

/// A sink with a room for bytes, which is made at the start. Bytes that do not fit are dropped.
#[derive(Drop)]
pub struct MemorySink {
    most: usize,
    bytes: BoundedBytes,
    calls: Calls,
    ghost some: { 0 < most },
}

impl MemorySink {
    ghost use Rattle.shelf_io.specs.MemorySink.{sink_state, with_calls};

    /// Takes at most `most` bytes a call.
    pub fn new(alloc: Global, most: usize, room: usize) -> Result<MemorySink, ShelfMemory>
        requires { 0 < most }
        ensures { IfOk result (λ s. sink_state s
            ≡ record { most = most; bytes = no_bytes room; calls = no_calls }) }
    {
        Ok(MemorySink {
            most,
            bytes: BoundedBytes::new(alloc, room)?,
            calls: Calls::new(alloc),
        })
    }

    /// The put of this number, counted from 1, fails.
    pub fn fail_at(&mut self, call: u64) -> Result<(), ShelfMemory>
        ensures ok { OnOk result (sink_state self.new
            ≡ with_calls (sink_state self.old) (with_failing (sink_state self.old).calls call)) }
        ensures err { OnErr result (sink_state self.new ≡ sink_state self.old) }
    {
        self.calls.fail_at(call)
    }

    /// The bytes taken within the room.
    pub fn bytes(&self) -> &[u8]
        ensures { result.now ≡ (sink_state self.now).bytes.in_room }
    {
        self.bytes.as_slice()
    }

    /// How often a put has failed.
    pub fn fault_count(&self) -> u64
        ensures { result ≡ (sink_state self.now).calls.faults }
    {
        self.calls.faults()
    }
}

impl Sink for MemorySink {
    ghost use Rattle.shelf_io.specs.MemorySink.{sink_state, after_put};

    ghost taken = { λ s. (sink_state s).bytes.taken };

    ghost faults = { λ s. (sink_state s).calls.faults };

    fn put(&mut self, piece: &[u8]) -> Result<usize, SinkFailed>
        requires { 0 < length piece.now }
        ensures some { IfOk result (λ n. 0 < n) }
        ensures within { IfOk result (λ n. n ≤ length piece.now) }
        ensures taken { Continues (sink_state self.old).bytes.taken (accepted result piece.now)
            (sink_state self.new).bytes.taken }
        ensures counted { (sink_state self.old).calls.faults ≤ (sink_state self.new).calls.faults }
        ensures failed { OnErr result (HasRisen (sink_state self.old).calls.faults (sink_state self.new).calls.faults) }
        ensures fails { IsErr result ↔ IsTrue (next_fails (sink_state self.old).calls) }
        ensures most { IfOk result (λ n. n ≡ min (sink_state self.old).most (length piece.now)) }
        ensures after { sink_state self.new ≡ after_put (sink_state self.old) (accepted result piece.now) }
    {
        if self.calls.begin() {
            return Err(SinkFailed);
        }
        let count = self.most.min(piece.len());
        self.bytes.take(&piece[..count]);
        Ok(count)
    }
}
