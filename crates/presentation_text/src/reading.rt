//! Reading presentations.
ghost use Rattle.std.specs.Prelude.{◌≡◌, ◌≤◌, [], length, map, Ok, IfOk, IfErr};
ghost use Rattle.word_field.specs.Residues.{is_listed};
ghost use Rattle.poly_core.specs.Names.{AreNames};
ghost use Rattle.poly_core.specs.Presentation.{IsCanonicalGenerator, AreCanonicalGenerators, generator_degree};
ghost use Rattle.monomial_order.specs.Limits.{degree_max};
ghost use Rattle.presentation_text.specs.Giving.{Gives, order_in, head_of};
ghost use Rattle.presentation_text.specs.Heading.{closing_line};
ghost use Rattle.presentation_text.specs.Meaning.{text_max, IsRead, IsAnyRead, IsReadIn, IsFaultOf};
ghost use Rattle.presentation_text.specs.PolySums.{AreListsIn, IsMadeOf, lists};
ghost use Rattle.presentation_text.specs.Reading.{next, ended, reading, reading_over, reading_with};

use crate::any_presentation::AnyPresentation;
use crate::fixed_lines::closing_line;
use crate::head::{Head, read_head};
use crate::lines::{Lines, located};
use crate::polys::counted;
use crate::sizes::Sizes;
use crate::text_fault::TextFault;
use crate::text_kind::TextKind;
use ext_field::PairField;
use monomial_order::{Memory, Order, WeightOrder, WordOrder};
use poly_core::{Poly, Presentation};
use std::alloc::Global;
use word_field::{Field, WordField};

#[tactic(auto, unfolding(crate::specs::Reading::next, crate::specs::Reading::at_line))]
fn closing(lines: &mut Lines) -> Result<(), TextFault>
    ensures missing { lines.new.missing ≡ lines.old.missing }
    ensures read { Gives (λ _. ([], lines.new.left)) result (next lines.old.missing closing_line lines.old.left) }
{
    let line = lines.needed_line()?;
    located(line.number, closing_line(line.bytes))
}

/// The last line.
#[tactic(auto, unfolding(crate::specs::Reading::ended))]
fn ended(lines: &mut Lines) -> Result<(), TextFault>
    ensures { Gives (λ _. []) result (ended lines.old.missing lines.old.left) }
{
    closing(lines)?;
    match lines.next_line() {
        Ok(line) => Err(TextFault::At {
            kind: TextKind::TextAfterEnd,
            line: line.number,
        }),
        Err(_) => Ok(()),
    }
}

/// The degree of the letter of a generator.
fn generator_degree<F: Field>(f: &F, h: &Head, p: &Poly<F>) -> u32
    requires { IsCanonicalGenerator (F.ops f.now) (order_in h.now) p.now }
    ensures degree { result ≡ generator_degree (order_in h.now) p.now }
    ensures positive { 1 ≤ result }
    ensures small { result ≤ degree_max }
{
    match p.lead() {
        Some(first) => h.order.degree(&first.at),
        None => 1,
    }
}

/// The order of the tokens in the generators.
fn gen_order<F: Field>(
    alloc: Global,
    f: &F,
    h: &Head,
    generators: &[Poly<F>],
) -> Result<WordOrder, Memory>
    requires { AreCanonicalGenerators (F.ops f.now) (order_in h.now) generators.now }
    ensures x { IfOk result (λ o. o.x_degrees.items ≡ []) }
    ensures s { IfOk result (λ o. o.s_degrees.items ≡ map (generator_degree (order_in h.now)) generators.now) }
{
    let mut order = WordOrder::new(alloc, &[])?;
    for p in generators {
        order.push_place(generator_degree(f, h, p))?;
    }
    Ok(order)
}

/// The ideal and the generators, up to the end.
fn lists<F: Field>(
    alloc: Global,
    f: &F,
    h: &Head,
    lines: &mut Lines,
) -> Result<(Vec<Poly<F>>, Vec<Poly<F>>), TextFault>
    requires { AreNames (length h.now.order.weights.items) h.now.names }
    ensures read { IfOk result (λ x. AreListsIn (F.ops f.now) (order_in h.now)
        (λ sums. lists (F.ops f.now) lines.old.missing (head_of h.now) lines.old.left ≡ Ok sums) x.0.items x.1.items) }
    ensures fault { IfErr result
        (IsFaultOf (lists (F.ops f.now) lines.old.missing (head_of h.now) lines.old.left)) }
{
    let ideal = counted(alloc, f, h, b"ideal", TextKind::UnitIdeal, lines)?;
    let generators = counted(
        alloc,
        f,
        h,
        b"generators",
        TextKind::ConstantGenerator,
        lines,
    )?;
    ended(lines)?;
    Ok((ideal, generators))
}

/// The presentation of what was read.
fn presentation<F: Field>(
    alloc: Global,
    field: F,
    head: Head,
    ideal: Vec<Poly<F>>,
    generators: Vec<Poly<F>>,
) -> Result<Presentation<F, WeightOrder>, Memory>
    requires { AreCanonicalGenerators (F.ops field) (order_in head) generators.items }
    ensures { IfOk result (IsMadeOf field head ideal.items generators.items) }
{
    let gen_order = gen_order(alloc, &field, &head, generators.as_slice())?;
    Ok(Presentation {
        field,
        order: head.order,
        names: head.names,
        ideal,
        generators,
        gen_order,
    })
}

/// The presentation over a field whose size the head has, of the lines behind the head.
fn read_over<F: Field>(
    alloc: Global,
    field: F,
    head: Head,
    lines: &mut Lines,
) -> Result<Presentation<F, WeightOrder>, TextFault>
    requires named { AreNames (length head.order.weights.items) head.names }
    requires size { (F.ops field).size ≡ head.size }
    ensures read { IfOk result (IsReadIn F.ops
        (λ r. reading_over (F.ops field) lines.old.missing (head_of head) lines.old.left ≡ Ok r)) }
    ensures fault { IfErr result
        (IsFaultOf (reading_over (F.ops field) lines.old.missing (head_of head) lines.old.left)) }
{
    let (ideal, generators) = lists(alloc, &field, &head, lines)?;
    Ok(presentation(alloc, field, head, ideal, generators)?)
}

/// The presentation of a text, or the first fault of the text. A field of pairs is not known here.
pub fn read(alloc: Global, bytes: &[u8]) -> Result<Presentation<WordField, WeightOrder>, TextFault>
    requires { length bytes.now ≤ text_max }
    ensures accepted { IfOk result (IsRead bytes.now) }
    ensures refused { IfErr result (IsFaultOf (reading_with is_listed bytes.now)) }
{
    let mut lines = Lines::new(bytes);
    let head = read_head(alloc, Sizes::Primes, &mut lines)?;
    match WordField::new(head.size) {
        Some(field) => read_over(alloc, field, head, &mut lines),
        None => unreachable!(),
    }
}

/// The presentation of a text over a field of either kind, or the first fault of the text.
pub fn read_any(alloc: Global, bytes: &[u8]) -> Result<AnyPresentation, TextFault>
    requires { length bytes.now ≤ text_max }
    ensures accepted { IfOk result (IsAnyRead bytes.now) }
    ensures refused { IfErr result (IsFaultOf (reading bytes.now)) }
{
    let mut lines = Lines::new(bytes);
    let head = read_head(alloc, Sizes::All, &mut lines)?;
    if let Some(field) = PairField::new(head.size) {
        return Ok(AnyPresentation::Pair(read_over(alloc, field, head, &mut lines)?));
    }
    match WordField::new(head.size) {
        Some(field) => Ok(AnyPresentation::Word(read_over(alloc, field, head, &mut lines)?)),
        None => unreachable!(),
    }
}
