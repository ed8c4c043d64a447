//! Lines with a key and a number.
ghost use Rattle.std.specs.Prelude.{◌≡◌, ◌<◌, ◌≤◌, ◌↔◌, ℕ, length, slice_index, true, IsTrue, IfSome, IsNone};
ghost use Rattle.std.specs.Fmt.{decimal};
ghost use Rattle.std.specs.List.{list_all};
ghost use Rattle.polynomial_text.specs.Bytes.{is_digit};
ghost use Rattle.state_text.specs.Limits.{count_max};
ghost use Rattle.state_text.specs.LineReadings.{IsCountReading};

use polynomial_text::{ByteClass, DIGITS_MAX, digits_value};

/// Whether no zero leads other digits.
fn is_plain(digits: &[u8]) -> bool
    ensures { IsTrue result ↔ (slice_index digits.now 0 ≡ 48 → length digits.now ≡ 1) }
{
    match digits {
        [b'0', _, ..] => false,
        _ => true,
    }
}

/// The number of at most 18 digits whose decimal these are.
fn number(digits: &[u8]) -> Option<u64>
    ensures some { IfSome result (λ n. n < count_max) }
    ensures is { IfSome result (λ n. digits.now ≡ decimal n) }
    ensures none { IsNone result → (n : ℕ) → n < count_max → digits.now ≡ decimal n → ⊥ }
{
    if !ByteClass::Digit.has_all(digits) || !is_plain(digits) {
        return None;
    }
    match digits.len() {
        1..=DIGITS_MAX => Some(digits_value(digits)),
        _ => None,
    }
}

/// The number behind the key, in decimal without leading zeros, if it has at most 18 digits.
pub fn read_count(key: &[u8], line: &[u8]) -> Option<u64>
    ensures { IsCountReading key.now line.now result }
{
    number(line.strip_prefix(key)?)
}
