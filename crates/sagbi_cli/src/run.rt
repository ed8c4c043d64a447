//! The run of the program.
ghost use Rattle.std.specs.Prelude.{◌≡◌, ◌≢◌, Some};
ghost use Rattle.shelf_io.specs.Counts.{HasRisen};
ghost use Rattle.shelf_io.specs.Shelf.{Files};
ghost use Rattle.sagbi_cli.specs.declared.command.Command.{Command};
ghost use Rattle.sagbi_cli.specs.Command.{AreInRange, IsCommand, IsNoCommand};
ghost use Rattle.sagbi_cli.specs.Ending.{Ends, EndsOver, Prints, TakesOnlyOutput};
ghost use Rattle.sagbi_cli.specs.SinkChange.{change};

use crate::command::asked;
use crate::message::put_line;
use crate::output::output;
use crate::put::put_all;
use crate::{Command, Outcome, Stop, WordList};
use shelf_io::{Shelf, Sink};
use std::alloc::Global;

/// Prints a text.
fn print<K: Sink>(out: &mut K, text: &[u8]) -> Outcome
    ensures prints { Prints text.now result (change K.taken K.faults out.old out.new) }
{
    match put_all(out, text) {
        Ok(()) => Outcome::Done,
        Err(_) => Outcome::Sink,
    }
}

/// Does what a command asks for.
fn obey<H: Shelf, K: Sink>(
    alloc: Global,
    command: &Command<'_>,
    shelf: &mut H,
    out: &mut K,
) -> Outcome
    requires numbers { AreInRange command.now }
    ensures over { (files : Files) → H.holds shelf.old ≡ Some files →
        EndsOver files command.now result (change K.taken K.faults out.old out.new) }
    ensures only_output { TakesOnlyOutput result (change K.taken K.faults out.old out.new) }
    ensures never_usage { result ≢ Outcome.Usage }
    ensures map { H.holds shelf.new ≡ H.holds shelf.old }
    ensures shelf { result ≡ Outcome.Stopped Stop.Shelf → HasRisen (H.faults shelf.old) (H.faults shelf.new) }
{
    match output(alloc, command, shelf) {
        Ok(text) => print(out, text.as_slice()),
        Err(stop) => Outcome::Stopped(stop),
    }
}

/// Does what the words after the program's name ask for, and answers the exit status.
pub fn run<H: Shelf, K: Sink, N: Sink>(
    alloc: Global,
    words: &WordList,
    shelf: &mut H,
    out: &mut K,
    note: &mut N,
) -> u8
    ensures ends { Ends words.now (H.holds shelf.old) result
        (change K.taken K.faults out.old out.new) (change N.taken N.faults note.old note.new) }

    // whatever the shelf and the sinks are
    ensures no_command { result ≡ 1 → IsNoCommand words.now }
    ensures command { result ≢ 1 → (command : Command) × IsCommand words.now command }
    ensures map { H.holds shelf.new ≡ H.holds shelf.old }
    ensures shelf { result ≡ 5 → HasRisen (H.faults shelf.old) (H.faults shelf.new) }
    ensures sink { result ≡ 6 → HasRisen (K.faults out.old) (K.faults out.new) }
{
    match asked(words) {
        Some(command) => {
            let outcome = obey(alloc, &command, shelf, out);
            let _ = put_line(note, words, outcome);
            outcome.status()
        }
        None => {
            let _ = put_line(note, words, Outcome::Usage);
            Outcome::Usage.status()
        }
    }
}
