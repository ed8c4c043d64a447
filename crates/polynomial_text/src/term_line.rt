//! Terms in a line.
ghost use Rattle.std.specs.Prelude.{◌≡◌, ◌≤◌, ◌<◌, ◌+◌, ◌*◌, ◌&&◌, ℕ, [], nat_le, if◌then◌else◌, IfOk};
ghost use Rattle.word_field.specs.Field.{IsValue};
ghost use Rattle.monomial_order.specs.Monomial.{IsMonomial, product};
ghost use Rattle.polynomials.specs.Polynomial.{term_times};
ghost use Rattle.polynomial_text.specs.Canonical.{AreDifferent};
ghost use Rattle.monomial_order.specs.Limits.{degree_max};
ghost use Rattle.polynomial_text.specs.PolyLine.{power, with_factor, term_at};
ghost use Rattle.polynomial_text.specs.LineReading.{Gives, factor_term, bounded, low};
ghost use Rattle.polynomial_text.specs.LineReading.{IsFactor, IsSmallMonomial, IsSmallTerm};

use crate::byte_class::{ByteClass, behind_blanks};
use crate::factor::{Factor, factor_at};
use crate::line_fault::{LineFault, LineKind};
use crate::line_parts::factor_part;
use crate::line_reader::LineReader;
use monomial_order::{Memory, Monomial, Order, Term};
use std::alloc::Global;
use word_field::Field;

/// The greatest degree of a term.
pub const DEGREE_MAX: u64 = 30000;

/// The power of the variable at a place.
fn power(alloc: Global, place: usize, exponent: u16) -> Result<Monomial, Memory>
    ensures { IfOk result (λ m. m ≡ power place exponent) }
{
    let mut exponents = Vec::new(alloc);
    exponents.resize(place, 0)?;
    exponents.push(exponent)?;
    Monomial::from_places(alloc, &exponents)
}

/// Whether the product of a monomial with a power of the variable at a place has a degree of at most `DEGREE_MAX`.
fn is_low<O: Order>(
    alloc: Global,
    o: &O,
    m: &Monomial,
    place: usize,
    exponent: u64,
) -> Result<bool, Memory>
    requires monomial { IsSmallMonomial (O.order o.now) m.now }
    requires place { place < (O.order o.now).places }
    ensures { IfOk result (λ b. b ≡ nat_le ((O.order o.now).degree (product m.now (power place exponent))) degree_max) }
{
    if exponent > DEGREE_MAX {
        return Ok(false);
    }
    let variable = power(alloc, place, 1)?;
    let raised = exponent * u64::from(o.degree(&variable));
    Ok(u64::from(o.degree(m)) + raised <= DEGREE_MAX)
}

/// The product with a power of the variable at a place.
#[tactic(auto, unfolding(crate::specs::LineReading::low))]
fn times_power<O: Order>(
    alloc: Global,
    o: &O,
    m: Monomial,
    place: usize,
    exponent: u64,
) -> Result<Monomial, LineFault<LineKind>>
    requires monomial { IsSmallMonomial (O.order o.now) m }
    requires place { 1 ≤ exponent → place < (O.order o.now).places }
    ensures read { Gives (λ x. x) result (low (O.order o.now) (product m (power place exponent))) }
    ensures small { IfOk result (IsSmallMonomial (O.order o.now)) }
{
    if exponent == 0 {
        return Ok(m);
    }
    if !is_low(alloc, o, &m, place, exponent)? {
        return Err(LineFault::Kind(LineKind::DegreeTooLarge));
    }
    let raised = power(alloc, place, exponent as u16)?;
    Ok(m.times(alloc, &raised)?)
}

/// The product with a factor.
#[tactic(auto, unfolding(crate::specs::LineReading::low, crate::specs::LineReading::bounded))]
fn times_factor<F: Field, O: Order>(
    alloc: Global,
    f: &F,
    o: &O,
    t: Term<F::Elem>,
    x: Factor<F::Elem>,
) -> Result<Term<F::Elem>, LineFault<LineKind>>
    requires term { IsSmallTerm (F.ops f.now) (O.order o.now) t }
    requires factor { IsFactor (F.ops f.now) (O.order o.now) x }
    ensures read { Gives (λ u. u) result (bounded (O.order o.now) (term_times (F.ops f.now) t (factor_term x))) }
    ensures small { IfOk result (IsSmallTerm (F.ops f.now) (O.order o.now)) }
{
    let by = f.mul(t.by, x.by);
    let at = times_power(alloc, o, t.at, x.place, x.exponent)?;
    Ok(Term { at, by })
}

/// The product of a term and the factor that a part is.
#[tactic(auto, unfolding(crate::specs::LineReading::bounded, crate::specs::PolyLine::with_factor))]
fn with_factor<F: Field, O: Order>(
    reader: &LineReader<F, O>,
    t: Term<F::Elem>,
    part: &[u8],
) -> Result<Term<F::Elem>, LineFault<LineKind>>
    requires names { AreDifferent (O.order reader.now.order.now).places reader.now.names.now }
    requires term { IsSmallTerm (F.ops reader.now.field.now) (O.order reader.now.order.now) t }
    ensures read { Gives (λ u. u) result
        (with_factor (F.ops reader.now.field.now) (O.order reader.now.order.now) reader.now.names.now t part.now) }
    ensures small { IfOk result (IsSmallTerm (F.ops reader.now.field.now) (O.order reader.now.order.now)) }
{
    let (factor, rest) = factor_at(reader, behind_blanks(part))?;
    let t = times_factor(reader.alloc, reader.field, reader.order, t, factor)?;
    if !ByteClass::Blank.has_all(rest) {
        return Err(LineFault::Kind(LineKind::PolySyntax));
    }
    Ok(t)
}

/// One, or minus one.
fn sign<F: Field>(alloc: Global, f: &F, minus: bool) -> Term<F::Elem>
    ensures at { result.at ≡ [] }
    ensures by { result.by ≡ (if minus then (F.ops f.now).negate (F.ops f.now).one else (F.ops f.now).one) }
{
    let by = if minus { f.neg(f.one()) } else { f.one() };
    Term {
        at: Monomial::one(alloc),
        by,
    }
}

/// The product of the factors of a part, with its sign.
pub(crate) fn term_at<F: Field, O: Order>(
    reader: &LineReader<F, O>,
    minus: bool,
    text: &[u8],
) -> Result<Term<F::Elem>, LineFault<LineKind>>
    requires { AreDifferent (O.order reader.now.order.now).places reader.now.names.now }
    ensures read { Gives (λ u. u) result
        (term_at (F.ops reader.now.field.now) (O.order reader.now.order.now) reader.now.names.now (minus, text.now)) }
    ensures small { IfOk result (IsSmallTerm (F.ops reader.now.field.now) (O.order reader.now.order.now)) }
{
    let mut t = sign(reader.alloc, reader.field, minus);
    let mut rest = Some(text);
    while let Some(text) = rest {
        let (part, behind) = factor_part(text);
        t = with_factor(reader, t, part)?;
        rest = behind;
    }
    Ok(t)
}
