//! Factors in a line.
ghost use Rattle.std.specs.Prelude.{◌≡◌, IfOk};
ghost use Rattle.word_field.specs.Field.{IsValue};
ghost use Rattle.polynomial_text.specs.Canonical.{AreDifferent};
ghost use Rattle.polynomial_text.specs.PolyLine.{factor_at, power_at};
ghost use Rattle.polynomial_text.specs.LineReading.{Gives, constant_at, factor_term, IsFactor};

use crate::byte_class::ByteClass;
use crate::line_fault::{LineFault, LineKind};
use crate::line_number::{exponent_at, number_at};
use crate::line_reader::LineReader;
use crate::named_place::place;
use monomial_order::Order;
use word_field::Field;

/// An element of the field times a power of the variable at a place.
#[derive(Clone, Copy)]
pub(crate) struct Factor<E> {
    pub(crate) by: E,
    pub(crate) place: usize,
    pub(crate) exponent: u64,
}

/// A power of a variable at the front, and what is behind it.
#[tactic(auto, unfolding(crate::specs::PolyLine::power_at))]
fn power_at<'a, F: Field, O: Order>(
    reader: &LineReader<F, O>,
    bytes: &'a [u8],
) -> Result<(Factor<F::Elem>, &'a [u8]), LineFault<LineKind>>
    requires { AreDifferent (O.order reader.now.order.now).places reader.now.names.now }
    ensures read { Gives (λ x. (factor_term x.0, x.1.now)) result
        (power_at (F.ops reader.now.field.now) (O.order reader.now.order.now) reader.now.names.now bytes.now) }
    ensures factor { IfOk result (λ x. IsFactor (F.ops reader.now.field.now) (O.order reader.now.order.now) x.0) }
{
    let (name, rest) = ByteClass::Name.split(bytes);
    let place = place(reader.names, reader.order.places(), name).ok_or(LineFault::Kind(
        LineKind::UnknownName,
    ))?;
    let (exponent, rest) = exponent_at(rest)?;
    let factor = Factor {
        by: reader.field.one(),
        place,
        exponent,
    };
    Ok((factor, rest))
}

/// An element of the field at the front, and what is behind it.
fn constant_at<'a, F: Field, O>(
    reader: &LineReader<F, O>,
    bytes: &'a [u8],
) -> Result<(Factor<F::Elem>, &'a [u8]), LineFault<LineKind>>
    ensures read { Gives (λ x. (factor_term x.0, x.1.now)) result (constant_at (F.ops reader.now.field.now) bytes.now) }
    ensures value { IfOk result (λ x. IsValue (F.ops reader.now.field.now) x.0.by) }
    ensures place { IfOk result (λ x. x.0.exponent ≡ 0) }
{
    let (number, rest) = number_at(bytes)?;
    let factor = Factor {
        by: reader.field.from_word(number),
        place: 0,
        exponent: 0,
    };
    Ok((factor, rest))
}

/// The factor at the front, and what is behind it.
#[tactic(auto, unfolding(crate::specs::PolyLine::factor_at))]
pub(crate) fn factor_at<'a, F: Field, O: Order>(
    reader: &LineReader<F, O>,
    bytes: &'a [u8],
) -> Result<(Factor<F::Elem>, &'a [u8]), LineFault<LineKind>>
    requires { AreDifferent (O.order reader.now.order.now).places reader.now.names.now }
    ensures read { Gives (λ x. (factor_term x.0, x.1.now)) result
        (factor_at (F.ops reader.now.field.now) (O.order reader.now.order.now) reader.now.names.now bytes.now) }
    ensures factor { IfOk result (λ x. IsFactor (F.ops reader.now.field.now) (O.order reader.now.order.now) x.0) }
{
    match bytes.first() {
        Some(b) if ByteClass::Digit.has(*b) => constant_at(reader, bytes),
        Some(b) if ByteClass::Letter.has(*b) => power_at(reader, bytes),
        _ => Err(LineFault::Kind(LineKind::PolySyntax)),
    }
}
