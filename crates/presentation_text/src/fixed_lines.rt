//! The lines of a presentation other than polynomials.
ghost use Rattle.std.specs.Prelude.{◌≡◌, true, [], ◌∷◌, ◌++◌, length, Some, None, Ok, Err};
ghost use Rattle.std.specs.Prelude.{IfOk, IfErr, OnOk, if◌then◌else◌};
ghost use Rattle.std.specs.List.{list_all, IsDistinct};
ghost use Rattle.std.specs.Option.{option_map};
ghost use Rattle.std.specs.Str.{bytes_eq};
ghost use Rattle.poly_core.specs.Names.{has_name_form};
ghost use Rattle.polynomial_text.specs.Canonical.{IsLineFaultOf};
ghost use Rattle.polynomial_text.specs.LineReading.{Gives};
ghost use Rattle.presentation_text.specs.Heading.{header, size, is_name, names_of, are_different, behind_key};
ghost use Rattle.presentation_text.specs.Heading.{number_first, numbers_first, row_at, rows_max, rows_of};
ghost use Rattle.presentation_text.specs.Heading.{tie_of, tie_alone, count_of, closing};
ghost use Rattle.presentation_text.specs.Heading.{header_line, field_line, vars_line, weights_line, order_line};
ghost use Rattle.presentation_text.specs.Heading.{count_line, closing_line};
ghost use Rattle.presentation_text.specs.Kinds.{or_fault};
ghost use Rattle.presentation_text.specs.Lines.{tokens};
ghost use Rattle.presentation_text.specs.Sizes.{is_known};
ghost use Rattle.presentation_text.specs.Taking.{are_names, with_front, IsRepeated};

use crate::numbers::{number, number_within};
use crate::sizes::Sizes;
use crate::text_kind::TextKind;
use crate::tokens::Tokens;
use monomial_order::{Row, Tie};
use poly_core::NameTable;
use polynomial_text::{ByteClass, LineFault};
use std::alloc::Global;

/// The greatest size of a field.
const SIZE_MAX: u64 = 65521;

/// The most bytes of a name.
const NAME_MAX: usize = 16;

/// The most names.
const NAMES_MAX: usize = 32;

const WEIGHT_MAX: u32 = 64;

const ENTRY_MAX: u32 = 1000;

/// The most rows of an order.
const ROWS_MAX: usize = 4;

/// The most polynomials of a list.
const COUNT_MAX: u32 = 256;

/// `subalgebra 1`
#[tactic(auto, unfolding(crate::specs::Heading::header))]
fn header(line: &[u8]) -> Option<()>
    ensures { option_map (λ _. []) result ≡ header (tokens line.now) }
{
    let mut tokens = Tokens::new(line);
    tokens.behind(b"subalgebra")?;
    tokens.behind(b"1")?;
    tokens.end()
}

pub(crate) fn header_line(line: &[u8]) -> Result<(), LineFault<TextKind>>
    ensures { Gives (λ _. []) result (header_line line.now) }
{
    header(line).ok_or(LineFault::Kind(TextKind::Header))
}

/// A size that is known.
fn known_size(known: Sizes, size: u64) -> Option<u32>
    ensures { result ≡ (if is_known known size then Some size else None) }
{
    if size <= SIZE_MAX && known.has(size as u32) {
        return Some(size as u32);
    }
    None
}

/// `field` and a size.
#[tactic(auto, unfolding(crate::specs::Heading::size))]
fn field(known: Sizes, line: &[u8]) -> Option<u32>
    ensures { result ≡ size (is_known known) (tokens line.now) }
{
    let mut tokens = Tokens::new(line);
    tokens.behind(b"field")?;
    let token = tokens.only()?;
    let size = number(token)?;
    known_size(known, size)
}

pub(crate) fn field_line(known: Sizes, line: &[u8]) -> Result<u32, LineFault<TextKind>>
    ensures { Gives (λ q. q) result (field_line (is_known known) line.now) }
{
    field(known, line).ok_or(LineFault::Kind(TextKind::FieldUnknown))
}

fn has_name_form(token: &[u8]) -> bool
    ensures { result ≡ has_name_form token.now }
{
    match token {
        [first, rest @ ..] => ByteClass::Letter.has(*first) && ByteClass::Name.has_all(rest),
        [] => false,
    }
}

fn is_name(token: &[u8]) -> bool
    ensures { result ≡ is_name token.now }
{
    token.len() <= NAME_MAX && has_name_form(token)
}

/// Whether 1 to `NAMES_MAX` tokens are left, each a name.
fn are_names(line: &Tokens) -> bool
    ensures { result ≡ are_names 0 line.now }
{
    let mut tokens = line.copy();
    let mut count: usize = 0;
    while let Some(token) = tokens.next() {
        if count >= NAMES_MAX {
            return false;
        }
        if !is_name(token) {
            return false;
        }
        count += 1;
    }
    count > 0
}

/// Puts a name at the end, if it is a new one.
fn push_name(names: &mut NameTable, token: &[u8]) -> Result<(), LineFault<TextKind>>
    requires { is_name token.now ≡ true }
    ensures pushed { OnOk result (names.new ≡ names.old ++ (token.now ∷ [])) }
    ensures distinct { OnOk result (IsDistinct bytes_eq names.new) }
    ensures repeated { IfErr result (IsRepeated names.old token.now) }
{
    match str::from_utf8(token) {
        Ok(name) => match names.push(name) {
            Ok(true) => Ok(()),
            Ok(false) => Err(LineFault::Kind(TextKind::DuplicateName)),
            Err(_) => Err(LineFault::Memory),
        },
        Err(_) => unreachable!(),
    }
}

/// The tokens as names, all different.
fn name_table(alloc: Global, line: &Tokens) -> Result<NameTable, LineFault<TextKind>>
    requires { list_all is_name line.now ≡ true }
    ensures { Gives (λ t. t) result (if are_different line.now then Ok line.now else Err TextKind.DuplicateName) }
{
    let mut tokens = line.copy();
    let mut names = NameTable::new(alloc);
    while let Some(token) = tokens.next() {
        push_name(&mut names, token)?;
    }
    Ok(names)
}

/// The tokens behind `vars`, if they have the form of names.
#[tactic(auto, unfolding(crate::specs::Heading::names_of))]
fn vars(line: &[u8]) -> Option<Tokens>
    ensures { option_map (λ w. w) result ≡ names_of (tokens line.now) }
{
    let mut tokens = Tokens::new(line);
    tokens.behind(b"vars")?;
    if !are_names(&tokens) {
        return None;
    }
    Some(tokens)
}

#[tactic(auto, unfolding(crate::specs::Heading::vars_line))]
pub(crate) fn vars_line(alloc: Global, line: &[u8]) -> Result<NameTable, LineFault<TextKind>>
    ensures { Gives (λ t. t) result (vars_line line.now) }
{
    let names = vars(line).ok_or(LineFault::Kind(TextKind::VarsLine))?;
    name_table(alloc, &names)
}

/// Takes the key at the front.
fn take_key(tokens: &mut Tokens, key: &[u8], kind: TextKind) -> Result<(), LineFault<TextKind>>
    ensures { Gives (λ _. tokens.new) result (or_fault kind (behind_key key.now tokens.old)) }
{
    tokens.behind(key).ok_or(LineFault::Kind(kind))
}

#[tactic(auto, unfolding(crate::specs::Heading::number_first))]
fn number_first(tokens: &mut Tokens, low: u32, high: u32) -> Option<u32>
    ensures { option_map (λ n. (n, tokens.new)) result ≡ number_first low high tokens.old }
{
    let token = tokens.next()?;
    number_within(low, high, token)
}

/// Numbers of a line: how many, from which to which, and the kind of fault of a line without them.
#[derive(Clone, Copy)]
struct Wanted {
    count: usize,
    low: u32,
    high: u32,
    kind: TextKind,
}

/// Takes the numbers at the front.
fn numbers(
    alloc: Global,
    tokens: &mut Tokens,
    wanted: Wanted,
) -> Result<Vec<u32>, LineFault<TextKind>>
    ensures { Gives (λ v. (v.items, tokens.new)) result
        (or_fault wanted.kind (numbers_first wanted.low wanted.high wanted.count tokens.old)) }
{
    let mut numbers = Vec::new(alloc);
    for _ in 0..wanted.count {
        let Some(n) = number_first(tokens, wanted.low, wanted.high) else {
            return Err(LineFault::Kind(wanted.kind));
        };
        numbers.push(n)?;
    }
    Ok(numbers)
}

/// `weights` and so many of them.
#[tactic(auto, unfolding(crate::specs::Heading::weights_of))]
pub(crate) fn weights_line(
    alloc: Global,
    count: usize,
    line: &[u8],
) -> Result<Vec<u32>, LineFault<TextKind>>
    ensures { Gives (λ v. v.items) result (weights_line count line.now) }
{
    let kind = TextKind::WeightsLine;
    let mut tokens = Tokens::new(line);
    take_key(&mut tokens, b"weights", kind)?;
    let wanted = Wanted {
        count,
        low: 1,
        high: WEIGHT_MAX,
        kind,
    };
    let weights = numbers(alloc, &mut tokens, wanted)?;
    if !tokens.is_empty() {
        return Err(LineFault::Kind(kind));
    }
    Ok(weights)
}

/// Takes a row and the `;` behind it.
#[tactic(auto, unfolding(crate::specs::Heading::row_at))]
fn row(alloc: Global, tokens: &mut Tokens, count: usize) -> Result<Row, LineFault<TextKind>>
    ensures { Gives (λ r. (r, tokens.new)) result (or_fault TextKind.OrderLine (row_at count tokens.old)) }
{
    let kind = TextKind::OrderLine;
    let wanted = Wanted {
        count,
        low: 0,
        high: ENTRY_MAX,
        kind,
    };
    let entries = numbers(alloc, tokens, wanted)?;
    take_key(tokens, b";", kind)?;
    let row = Row::new(alloc, &entries)?;
    Ok(row)
}

#[tactic(auto, unfolding(crate::specs::Heading::tie_of))]
fn tie_of(token: &[u8]) -> Option<Tie>
    ensures { result ≡ tie_of token.now }
{
    if token == b"lex".as_slice() {
        return Some(Tie::Lex);
    }
    if token == b"revlex".as_slice() {
        return Some(Tie::RevLex);
    }
    None
}

/// The one token that is left, as the tie.
fn tie_alone(tokens: &mut Tokens) -> Option<Tie>
    ensures { option_map (λ tie. ([], tie)) result ≡ tie_alone tokens.old }
{
    let token = tokens.only()?;
    tie_of(token)
}

/// Takes rows, at most `ROWS_MAX`, up to the tie.
fn rows(alloc: Global, tokens: &mut Tokens, count: usize) -> Result<Vec<Row>, LineFault<TextKind>>
    ensures read { IfOk result
        (λ rows. rows_of count rows_max tokens.old ≡ with_front rows.items (tie_alone tokens.new)) }
    ensures fault { IfErr result (IsLineFaultOf (or_fault TextKind.OrderLine (rows_of count rows_max tokens.old))) }
{
    let mut rows = Vec::new(alloc);
    for _ in 0..ROWS_MAX {
        if tokens.is_single() {
            return Ok(rows);
        }
        let row = row(alloc, tokens, count)?;
        rows.push(row)?;
    }
    Ok(rows)
}

/// `order`, rows of so many entries, and the tie.
#[tactic(auto, unfolding(crate::specs::Heading::order_of))]
pub(crate) fn order_line(
    alloc: Global,
    count: usize,
    line: &[u8],
) -> Result<(Vec<Row>, Tie), LineFault<TextKind>>
    ensures { Gives (λ x. (x.0.items, x.1)) result (order_line count line.now) }
{
    let mut tokens = Tokens::new(line);
    take_key(&mut tokens, b"order", TextKind::OrderLine)?;
    let rows = rows(alloc, &mut tokens, count)?;
    let tie = tie_alone(&mut tokens).ok_or(LineFault::Kind(TextKind::OrderLine))?;
    Ok((rows, tie))
}

/// The key and a number of at most `COUNT_MAX`.
#[tactic(auto, unfolding(crate::specs::Heading::count_of))]
fn count(key: &[u8], line: &[u8]) -> Option<u32>
    ensures { result ≡ count_of key.now (tokens line.now) }
{
    let mut tokens = Tokens::new(line);
    tokens.behind(key)?;
    let token = tokens.only()?;
    number_within(0, COUNT_MAX, token)
}

pub(crate) fn count_line(key: &[u8], line: &[u8]) -> Result<u32, LineFault<TextKind>>
    ensures { Gives (λ n. n) result (count_line key.now line.now) }
{
    count(key, line).ok_or(LineFault::Kind(TextKind::CountLine))
}

/// `end`
#[tactic(auto, unfolding(crate::specs::Heading::closing))]
fn closing(line: &[u8]) -> Option<()>
    ensures { option_map (λ _. []) result ≡ closing (tokens line.now) }
{
    let mut tokens = Tokens::new(line);
    tokens.behind(b"end")?;
    tokens.end()
}

pub(crate) fn closing_line(line: &[u8]) -> Result<(), LineFault<TextKind>>
    ensures { Gives (λ _. []) result (closing_line line.now) }
{
    closing(line).ok_or(LineFault::Kind(TextKind::CountLine))
}
