//! The lines of a text, one after the other. Blank lines and comments are passed over.
ghost use Rattle.std.specs.Prelude.{◌≡◌, ◌≢◌, ◌<◌, ◌≤◌, [], ◌∷◌, length, IfOk, IfErr};
ghost use Rattle.polynomial_text.specs.Bytes.{is_skipped};
ghost use Rattle.presentation_text.specs.Giving.{fault_at, located};
ghost use Rattle.presentation_text.specs.Lines.{lines};
ghost use Rattle.presentation_text.specs.Meaning.{text_max};
ghost use Rattle.presentation_text.specs.Pending.{pending};

use crate::text_fault::TextFault;
use crate::text_kind::TextKind;
use polynomial_text::{ByteClass, LineFault, behind_blanks};
use std::marker::Model;

/// A line without its line feed.
#[derive(Clone, Copy)]
pub(crate) struct Line<'a> {
    pub number: u32,
    pub bytes: &'a [u8],
}

/// The lines of a text that were not taken yet.
#[derive(Drop)]
pub(crate) struct Lines<'a> {
    rest: &'a [u8],
    number: u32,
}

impl<'a> Model for Lines<'a> {
    ghost use Rattle.std.specs.Prelude.{ℕ, ◌+◌, ◌<◌, ◌^◌, length};
    ghost use Rattle.presentation_text.specs.Pending.{Pending, pending};

    ghost Value = { Pending };

    ghost view = { λ a. pending a.number a.rest.now };

    ghost invariant = { λ a. a.number + length a.rest.now < 2 ^ 32 };
}

impl<'a> Lines<'a> {
    /// All lines of a text.
    pub fn new(text: &'a [u8]) -> Lines<'a>
        requires { length text.now ≤ text_max }
        ensures { result ≡ pending 1 text.now }
    {
        Lines {
            rest: text,
            number: 1,
        }
    }

    /// The next line, or the number that it would have.
    pub fn next_line(&mut self) -> Result<Line<'a>, u32>
        ensures missing { self.new.missing ≡ self.old.missing }
        ensures line { IfOk result (λ line. self.old.left ≡ (line.number, line.bytes.now) ∷ self.new.left) }
        ensures none { IfErr result (λ number. (self.old.left ≡ []) × (number ≡ self.old.missing)) }
    {
        while !self.rest.is_empty() {
            let number = self.number;
            let (line, behind) = first_line(self.rest);
            self.rest = behind;
            self.number = number + 1;
            if !is_skipped(line) {
                return Ok(Line {
                    number,
                    bytes: line,
                });
            }
        }
        Err(self.number)
    }

    /// The next line, which may not be missing.
    pub fn needed_line(&mut self) -> Result<Line<'a>, TextFault>
        ensures missing { self.new.missing ≡ self.old.missing }
        ensures line { IfOk result (λ line. self.old.left ≡ (line.number, line.bytes.now) ∷ self.new.left) }
        ensures none { IfErr result
            (λ e. (self.old.left ≡ []) × (e ≡ TextFault.At TextKind.Truncated self.old.missing)) }
    {
        match self.next_line() {
            Ok(line) => Ok(line),
            Err(line) => Err(TextFault::At {
                kind: TextKind::Truncated,
                line,
            }),
        }
    }
}

/// The first line, and the bytes behind its line feed.
fn first_line(bytes: &[u8]) -> (&[u8], &[u8])
    requires { bytes.now ≢ [] }
    ensures lines { lines bytes.now ≡ result.0.now ∷ lines result.1.now }
    ensures shorter { length result.1.now < length bytes.now }
{
    let (line, behind) = ByteClass::Line.split(bytes);
    match behind {
        [_, rest @ ..] => (line, rest),
        [] => (line, behind),
    }
}

fn is_skipped(line: &[u8]) -> bool
    ensures { result ≡ is_skipped line.now }
{
    match behind_blanks(line) {
        [first, ..] => *first == b'#',
        [] => true,
    }
}

/// The fault of the line with that number.
pub(crate) fn fault_at(line: u32, fault: LineFault<TextKind>) -> TextFault
    ensures { result ≡ fault_at line fault }
{
    match fault {
        LineFault::Memory => TextFault::Memory,
        LineFault::Kind(kind) => TextFault::At { kind, line },
    }
}

/// What was made of the line with that number.
pub(crate) fn located<T>(line: u32, made: Result<T, LineFault<TextKind>>) -> Result<T, TextFault>
    ensures { result ≡ located line made }
{
    match made {
        Ok(value) => Ok(value),
        Err(fault) => Err(fault_at(line, fault)),
    }
}
