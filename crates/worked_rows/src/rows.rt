//! Rows of a table: parts with ` | ` between them.
ghost use Rattle.std.specs.Prelude.{IfOk, IsTrue};

use std::alloc::Global;
use std::test::Fail;

/// The part of a row at an index, and an empty one if the row ends before.
pub fn part(row: &str, index: usize) -> &str {
    row.split(" | ").nth(index).unwrap_or("")
}

/// A number.
pub fn number(word: &str) -> Result<u32, Fail> {
    Ok(word.parse::<u32>()?)
}

/// The numbers of a part, with blanks between them.
pub fn numbers(alloc: Global, part: &str) -> Result<Vec<u32>, Fail> {
    let mut numbers = Vec::new(alloc);
    for word in part.split_whitespace() {
        numbers.push(number(word)?)?;
    }
    Ok(numbers)
}

/// Compares the answer to a row with the row's last part.
pub fn judge(row: &str, answer: &str) -> Result<(), Fail> {
    if row.rsplit(" | ").next() == Some(answer) {
        return Ok(());
    }
    Err(Fail::new(format_args!("{row}: the answer is {answer}")))
}

/// Fails with the message, such as a row, unless the condition holds.
pub fn ensure(holds: bool, message: &str) -> Result<(), Fail>
    ensures { IfOk result (λ _. IsTrue holds) }
{
    if holds {
        return Ok(());
    }
    Err(Fail::new(message))
}
