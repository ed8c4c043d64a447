//! Numbers and exponents in a line.
ghost use Rattle.std.specs.Prelude.{◌≡◌, ◌≤◌, length, true};
ghost use Rattle.std.specs.List.{list_all};
ghost use Rattle.std.specs.Str.Parse.{digits_value};
ghost use Rattle.polynomial_text.specs.Bytes.{digits_max, is_digit};
ghost use Rattle.polynomial_text.specs.PolyLine.{number_at, exponent_at};
ghost use Rattle.polynomial_text.specs.LineReading.{Gives};

use crate::byte_class::{ByteClass, behind_blanks};
use crate::line_fault::{LineFault, LineKind};

/// The most digits of a number.
pub const DIGITS_MAX: usize = 18;

/// The number that the digits are.
pub fn digits_value(digits: &[u8]) -> u64
    requires digits { list_all is_digit digits.now ≡ true }
    requires short { length digits.now ≤ digits_max }
    ensures { result ≡ digits_value 10 digits.now }
{
    let mut value = 0;
    for d in digits {
        value = value * 10 + u64::from(*d - b'0');
    }
    value
}

/// The number at the front, and what is behind it.
#[tactic(auto, unfolding(crate::specs::PolyLine::number_at))]
pub(crate) fn number_at(bytes: &[u8]) -> Result<(u64, &[u8]), LineFault<LineKind>>
    ensures { Gives (λ x. (x.0, x.1.now)) result (number_at bytes.now) }
{
    let (digits, rest) = ByteClass::Digit.split(bytes);
    match digits.len() {
        0 => Err(LineFault::Kind(LineKind::PolySyntax)),
        1..=DIGITS_MAX => Ok((digits_value(digits), rest)),
        _ => Err(LineFault::Kind(LineKind::NumberTooLong)),
    }
}

/// The exponent behind a name, and what is behind it.
#[tactic(auto, unfolding(crate::specs::PolyLine::exponent_at))]
pub(crate) fn exponent_at(bytes: &[u8]) -> Result<(u64, &[u8]), LineFault<LineKind>>
    ensures { Gives (λ x. (x.0, x.1.now)) result (exponent_at bytes.now) }
{
    let rest = behind_blanks(bytes);
    match rest {
        [b'^', raised @ ..] => number_at(behind_blanks(raised)),
        _ => Ok((1, rest)),
    }
}
