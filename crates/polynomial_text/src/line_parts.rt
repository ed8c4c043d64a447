//! Parts of a line: terms between signs, and factors between `*`.
ghost use Rattle.std.specs.Prelude.{◌≡◌, ◌<◌, ◌∷◌, Bool, false, length, IfSome};
ghost use Rattle.std.specs.Option.{option_map, option_copied};
ghost use Rattle.polynomial_text.specs.PolyLine.{signed_parts, behind_sign};
ghost use Rattle.polynomial_text.specs.LineReading.{factor_parts, factor_parts_left, signed_parts_left};

use crate::byte_class::ByteClass;

/// Bytes behind a sign, or at the start of a line.
#[derive(Clone, Copy)]
pub(crate) struct SignedText<'a> {
    pub(crate) minus: bool,
    pub(crate) text: &'a [u8],
}

/// The part before the first `*`, and what is behind that `*`.
pub(crate) fn factor_part(text: &[u8]) -> (&[u8], Option<&[u8]>)
    ensures parts { factor_parts text.now ≡ result.0.now ∷ factor_parts_left (option_copied result.1) }
    ensures shorter { IfSome result.1 (λ rest. length rest.now < length text.now) }
{
    let (part, behind) = ByteClass::Factor.split(text);
    match behind {
        [_, rest @ ..] => (part, Some(rest)),
        [] => (part, None),
    }
}

/// The part before the first sign, and the bytes behind that sign.
pub(crate) fn signed_part(text: &[u8]) -> (&[u8], Option<SignedText<'_>>)
    ensures parts { (minus : Bool) → signed_parts minus text.now
        ≡ (minus, result.0.now) ∷ signed_parts_left (option_map (λ x. (x.minus, x.text.now)) result.1) }
    ensures shorter { IfSome result.1 (λ rest. length rest.text.now < length text.now) }
{
    let (part, behind) = ByteClass::Term.split(text);
    match behind {
        [sign, rest @ ..] => {
            let rest = SignedText {
                minus: *sign == b'-',
                text: rest,
            };
            (part, Some(rest))
        }
        [] => (part, None),
    }
}

/// The line without the sign that may be before its first term.
pub(crate) fn first_text(line: &[u8]) -> SignedText<'_>
    ensures { behind_sign (signed_parts false line.now) ≡ signed_parts result.minus result.text.now }
{
    let whole = SignedText {
        minus: false,
        text: line,
    };
    let (front, behind) = signed_part(line);
    match behind {
        Some(rest) if ByteClass::Blank.has_all(front) => rest,
        _ => whole,
    }
}
