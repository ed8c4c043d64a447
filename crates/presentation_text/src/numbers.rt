//! Numbers in lines.
ghost use Rattle.std.specs.Prelude.{◌≡◌};
ghost use Rattle.presentation_text.specs.Numbers.{is_number, number_of, number_within};

use polynomial_text::{ByteClass, DIGITS_MAX, digits_value};

fn is_number(token: &[u8]) -> bool
    ensures { result ≡ is_number token.now }
{
    match token.len() {
        1..=DIGITS_MAX => ByteClass::Digit.has_all(token),
        _ => false,
    }
}

#[tactic(auto, unfolding(crate::specs::Numbers::number_of))]
pub(crate) fn number(token: &[u8]) -> Option<u64>
    ensures { result ≡ number_of token.now }
{
    if !is_number(token) {
        return None;
    }
    Some(digits_value(token))
}

#[tactic(auto, unfolding(crate::specs::Numbers::number_within))]
pub(crate) fn number_within(low: u32, high: u32, token: &[u8]) -> Option<u32>
    ensures { result ≡ number_within low high token.now }
{
    match number(token) {
        Some(n) if u64::from(low) <= n && n <= u64::from(high) => Some(n as u32),
        _ => None,
    }
}
