//! A sink over a stream of bytes.
ghost use Rattle.std.specs.Prelude.{◌≡◌, ◌<◌, ◌≤◌, None, length, IfOk, OnOk, OnErr};
ghost use Rattle.shelf_io.specs.Counts.{HasRisen};
ghost use Rattle.shelf_io.specs.Sink.{Continues, accepted};
ghost use Rattle.shelf_io.specs.StreamSink.{stream_of, fault_count, PutAppends};

use crate::counts::next_count;
use crate::{Sink, SinkFailed};
use std::io::Write;

/// Writes each piece through to a stream.
#[derive(Drop)]
pub struct StreamSink<W> {
    writer: W,
    faults: u64,
}

impl<W: Write> StreamSink<W> {
    pub fn new(w: W) -> StreamSink<W>
        ensures stream { stream_of result ≡ w }
        ensures faults { fault_count result ≡ 0 }
    {
        StreamSink {
            writer: w,
            faults: 0,
        }
    }
}

/// Writes a front of the piece, at least one byte, and flushes it.
fn write_through<W: Write>(writer: &mut W, piece: &[u8]) -> Result<usize, SinkFailed>
    ensures some { IfOk result (λ n. 0 < n) }
    ensures within { IfOk result (λ n. n ≤ length piece.now) }
    ensures appends { PutAppends (W.contents writer.old) (W.contents writer.new) result piece.now }
{
    match writer.write(piece) {
        Ok(n) if n > 0 && writer.flush().is_ok() => Ok(n),
        _ => Err(SinkFailed),
    }
}

impl<W: Write> Sink for StreamSink<W> {
    ghost taken = { λ _. None };

    ghost faults = { fault_count };

    /// A piece is flushed before the answer, so that no buffer of the stream can lose it.
    fn put(&mut self, piece: &[u8]) -> Result<usize, SinkFailed>
        requires { 0 < length piece.now }
        ensures some { IfOk result (λ n. 0 < n) }
        ensures within { IfOk result (λ n. n ≤ length piece.now) }
        ensures taken { Continues None (accepted result piece.now) None }
        ensures counted { fault_count self.old ≤ fault_count self.new }
        ensures failed { OnErr result (HasRisen (fault_count self.old) (fault_count self.new)) }
        ensures only_failed { OnOk result (fault_count self.new ≡ fault_count self.old) }
        ensures appends { PutAppends (W.contents (stream_of self.old)) (W.contents (stream_of self.new)) result
            piece.now }
    {
        let answer = write_through(&mut self.writer, piece);
        if answer.is_err() {
            self.faults = next_count(self.faults);
        }
        answer
    }
}
