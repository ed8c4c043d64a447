//! Puts whole texts into a sink.
ghost use Rattle.std.specs.Prelude.{◌≤◌};
ghost use Rattle.sagbi_cli.specs.SinkChange.{change, Takes};

use shelf_io::{Sink, SinkFailed};

/// Puts the text until the sink has taken it whole, or fails.
pub fn put_all<K: Sink>(sink: &mut K, text: &[u8]) -> Result<(), SinkFailed>
    ensures takes { Takes result text.now (change K.taken K.faults sink.old sink.new) }
    ensures counted { K.faults sink.old ≤ K.faults sink.new }
{
    let mut rest = text;
    while !rest.is_empty() {
        let n = sink.put(rest)?;
        rest = &rest[n..];
    }
    Ok(())
}
