//! The line that a run puts on `note`.
ghost use Rattle.std.specs.Prelude.{◌≡◌, ◌≤◌};
ghost use Rattle.sagbi_cli.specs.Command.{name_of as name_in};
ghost use Rattle.sagbi_cli.specs.Message.{fault_line, input_line, input_name, line_of, named_line, stop_line};
ghost use Rattle.sagbi_cli.specs.SinkChange.{change, Takes};

use crate::put::put_all;
use crate::{Input, Outcome, Stop, WordList};
use itoa::Buffer;
use presentation_text::TextKind;
use shelf_io::{Sink, SinkFailed};

/// Puts the line of the outcome of these words.
pub fn put_line<N: Sink>(note: &mut N, words: &WordList, outcome: Outcome) -> Result<(), SinkFailed>
    ensures takes { Takes result (line_of words.now outcome) (change N.taken N.faults note.old note.new) }
    ensures counted { N.faults note.old ≤ N.faults note.new }
{
    match outcome {
        Outcome::Done => Ok(()),
        Outcome::Usage => put_all(note, b"error: usage\n"),
        Outcome::Sink => put_all(note, b"error: sink\n"),
        Outcome::Stopped(stop) => put_stop(note, words, stop),
    }
}

/// Puts the line of what stopped a command.
fn put_stop<N: Sink>(note: &mut N, words: &WordList, stop: Stop) -> Result<(), SinkFailed>
    ensures takes { Takes result (stop_line words.now stop) (change N.taken N.faults note.old note.new) }
    ensures counted { N.faults note.old ≤ N.faults note.new }
{
    match stop {
        Stop::Missing(input) => put_named(note, b"error: missing ", name_of(words, input)),
        Stop::TooLong(input) => put_named(note, b"error: too long ", name_of(words, input)),
        Stop::Fault(input, kind, line) => put_fault(note, input, kind, line),
        Stop::Shelf => put_all(note, b"error: shelf\n"),
        Stop::Memory => put_all(note, b"error: memory\n"),
    }
}

/// The name of a file among the words.
fn name_of(words: &WordList, input: Input) -> &[u8]
    ensures { result.now ≡ name_in words.now input }
{
    let index = match input {
        Input::Presentation => 1,
        Input::Queries => 3,
    };
    if index < words.len() {
        words.get(index).as_bytes()
    } else {
        b""
    }
}

/// What a file is called.
fn called(input: Input) -> &'static [u8]
    ensures { result.now ≡ input_name input }
{
    match input {
        Input::Presentation => b"presentation",
        Input::Queries => b"query",
    }
}

/// Puts a message with a name at its end.
fn put_named<N: Sink>(note: &mut N, message: &[u8], name: &[u8]) -> Result<(), SinkFailed>
    ensures takes { Takes result (named_line message.now name.now) (change N.taken N.faults note.old note.new) }
    ensures counted { N.faults note.old ≤ N.faults note.new }
{
    put_all(note, message)?;
    put_all(note, name)?;
    put_all(note, b"\n")
}

/// Puts the line of a fault behind the name of its file.
fn put_place<N: Sink>(note: &mut N, kind: TextKind, line: u32) -> Result<(), SinkFailed>
    ensures takes { Takes result (fault_line kind line) (change N.taken N.faults note.old note.new) }
    ensures counted { N.faults note.old ≤ N.faults note.new }
{
    let mut digits = Buffer::new();
    put_all(note, b" line ")?;
    put_all(note, digits.format(line).as_bytes())?;
    put_named(note, b": ", kind.name().as_bytes())
}

fn put_fault<N: Sink>(
    note: &mut N,
    input: Input,
    kind: TextKind,
    line: u32,
) -> Result<(), SinkFailed>
    ensures takes { Takes result (input_line input kind line) (change N.taken N.faults note.old note.new) }
    ensures counted { N.faults note.old ≤ N.faults note.new }
{
    put_all(note, b"error: ")?;
    put_all(note, called(input))?;
    put_place(note, kind, line)
}
