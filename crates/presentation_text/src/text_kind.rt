//! The kinds of faults in texts.
ghost use Rattle.std.specs.Prelude.{◌≡◌};
ghost use Rattle.presentation_text.specs.Kinds.{fault_of, kind_name, kind_of};

use polynomial_text::{LineFault, LineKind};

/// What is wrong with a line. Blank lines and comments are passed over.
#[derive(Clone, Copy, Debug, PartialEq, Eq)]
pub enum TextKind {
    /// The first line is not `subalgebra 1`.
    Header,
    /// The second line is not `field` and a size of which there is a field.
    FieldUnknown,
    /// The third line is not `vars` and 1 to 32 names.
    VarsLine,
    /// Two names are equal.
    DuplicateName,
    /// The fourth line is not `weights` and a number from 1 to 64 for each name.
    WeightsLine,
    /// The fifth line is not `order`, at most 4 rows, and `lex` or `revlex`.
    OrderLine,
    /// A line with the number of polynomials, or the line `end`, has another form.
    CountLine,
    /// The line is no polynomial.
    PolySyntax,
    /// A name in a polynomial is none of the variables.
    UnknownName,
    /// A number in a polynomial has more than 18 digits.
    NumberTooLong,
    /// A factor brings the degree of its term above 30000.
    DegreeTooLarge,
    /// The polynomial has monomials of different degrees.
    NotHomogeneous,
    /// The polynomial is a constant other than zero, and a generator of the ideal.
    UnitIdeal,
    /// The polynomial is a constant other than zero, and a generator of the subalgebra.
    ConstantGenerator,
    /// A line is missing.
    Truncated,
    /// A line is behind `end`.
    TextAfterEnd,
}

impl TextKind {
    pub fn name(self) -> &'static str
        ensures { result.now ≡ kind_name self }
    {
        match self {
            TextKind::Header => "Header",
            TextKind::FieldUnknown => "FieldUnknown",
            TextKind::VarsLine => "VarsLine",
            TextKind::DuplicateName => "DuplicateName",
            TextKind::WeightsLine => "WeightsLine",
            TextKind::OrderLine => "OrderLine",
            TextKind::CountLine => "CountLine",
            TextKind::PolySyntax => "PolySyntax",
            TextKind::UnknownName => "UnknownName",
            TextKind::NumberTooLong => "NumberTooLong",
            TextKind::DegreeTooLarge => "DegreeTooLarge",
            TextKind::NotHomogeneous => "NotHomogeneous",
            TextKind::UnitIdeal => "UnitIdeal",
            TextKind::ConstantGenerator => "ConstantGenerator",
            TextKind::Truncated => "Truncated",
            TextKind::TextAfterEnd => "TextAfterEnd",
        }
    }
}

impl From<LineKind> for TextKind {
    ghost from_gives = { λ kind text. text ≡ kind_of kind };

    fn from(kind: LineKind) -> TextKind {
        match kind {
            LineKind::PolySyntax => TextKind::PolySyntax,
            LineKind::UnknownName => TextKind::UnknownName,
            LineKind::NumberTooLong => TextKind::NumberTooLong,
            LineKind::DegreeTooLarge => TextKind::DegreeTooLarge,
        }
    }
}

/// The fault of the line of a polynomial, by its kind in texts.
pub(crate) fn fault_of(fault: LineFault<LineKind>) -> LineFault<TextKind>
    ensures { result ≡ fault_of fault }
{
    match fault {
        LineFault::Memory => LineFault::Memory,
        LineFault::Kind(kind) => LineFault::Kind(TextKind::from(kind)),
    }
}
