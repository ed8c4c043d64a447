//! Writing states.
ghost use Rattle.std.specs.Prelude.{◌≡◌, ℕ, ◌<◌, ◌≤◌, [], ◌++◌, length, codes, string_bytes, All, IfOk, OnOk};
ghost use Rattle.std.specs.Fmt.{decimal};
ghost use Rattle.poly_core.specs.Presentation.{presented, weight_order_of, IsValid};
ghost use Rattle.presentation_text.specs.PresentationText.{HasText};
ghost use Rattle.completion.specs.LetterNames.{witness_names};
ghost use Rattle.witness.specs.Tracking.{values_of};
ghost use Rattle.state_text.specs.Limits.{bound_max, count_max};
ghost use Rattle.state_text.specs.Parts.{whole, AreDueElements, IsDueRelation};
ghost use Rattle.state_text.specs.StateText.{element_line, element_lines, IsStateText};
ghost use Rattle.state_text.specs.Writing.{IsHeading, IsPrintableElement};
ghost use Rattle.state_text.specs.declared.version.Version.TheVariants.{Two};

use crate::COUNT_MAX;
use completion::{Relation, push_relations};
use monomial_order::{Memory, Order, WeightOrder};
use poly_core::{Names, Poly, Presentation};
use std::alloc::{AllocError, Global};
use witness::Tracked;
use word_field::Field;

/// A longer list has no room in memory.
fn fits(count: usize) -> Result<(), Memory>
    ensures { OnOk result (count < count_max) }
{
    if (count as u64) < COUNT_MAX {
        Ok(())
    } else {
        Err(Memory)
    }
}

fn counts(alloc: Global, degree: u32, count: usize) -> Result<String, AllocError>
    ensures { IfOk result (λ s. string_bytes s ≡ codes "degree "
        ++ (decimal degree ++ (codes "\nelements " ++ (decimal count ++ codes "\n")))) }
{
    format!(in alloc; "degree {degree}\nelements {count}\n")
}

/// Appends the line of an element.
fn push_element<F: Field>(
    alloc: Global,
    text: &mut Vec<u8>,
    f: &F,
    names: &Names,
    letters: &Names,
    t: &Tracked<F>,
) -> Result<(), Memory>
    requires printable { IsPrintableElement (F.ops f.now) names.now letters.now t.now }
    ensures { OnOk result
        (text.new.items ≡ text.old.items ++ element_line (F.ops f.now) names.now letters.now t.now) }
{
    let value = Poly::write(alloc, f, &t.value, names)?;
    let witness = Poly::write(alloc, f, &t.by, letters)?;
    text.extend_from_slice(&value)?;
    text.extend_from_slice(b" : ")?;
    text.extend_from_slice(&witness)?;
    text.extend_from_slice(b"\n")?;
    Ok(())
}

/// Appends the lines of the elements.
fn push_elements<F: Field>(
    alloc: Global,
    text: &mut Vec<u8>,
    f: &F,
    names: &Names,
    letters: &Names,
    elements: &[Tracked<F>],
) -> Result<(), Memory>
    requires printable { All (IsPrintableElement (F.ops f.now) names.now letters.now) elements.now }
    ensures { OnOk result
        (text.new.items ≡ text.old.items ++ element_lines (F.ops f.now) names.now letters.now elements.now) }
{
    'lines: for t in elements {
        push_element(alloc, text, f, names, letters, t)?;
    }
    Ok(())
}

/// The letters of witnesses in these generators and in elements.
fn letters_behind<F: Field>(generators: &[Poly<F>]) -> Names
    ensures { result ≡ witness_names (length generators.now) }
{
    Names::Paired {
        first: b'g',
        count: generators.len(),
        second: b's',
    }
}

/// What is in front of the elements.
fn heading<F: Field>(
    alloc: Global,
    p: &Presentation<F, WeightOrder>,
    degree: u32,
    count: usize,
) -> Result<Vec<u8>, Memory>
    requires valid { IsValid F.ops weight_order_of p.now }
    ensures { IfOk result (λ text. IsHeading F.ops p.now degree count text.items) }
{
    let presentation = presentation_text::write(alloc, p)?;
    let counts = counts(alloc, degree, count)?;
    let mut text = Vec::from_slice(alloc, b"sagbi-state 2\n")?;
    text.extend_from_slice(&presentation)?;
    text.extend_from_slice(counts.as_bytes())?;
    Ok(text)
}

/// The state of a presentation to a degree, with these elements and relations.
pub fn write<F: Field>(
    alloc: Global,
    p: &Presentation<F, WeightOrder>,
    degree: u32,
    elements: &[Tracked<F>],
    relations: &[Relation<F>],
) -> Result<Vec<u8>, Memory>
    requires valid { IsValid F.ops weight_order_of p.now }
    requires some { 1 ≤ degree }
    requires small { degree ≤ bound_max }
    requires elements { AreDueElements (presented F.ops weight_order_of p.now) Two degree [] elements.now }
    requires relations { let P = presented F.ops weight_order_of p.now in
        All (IsDueRelation P (values_of elements.now) degree) relations.now }
    ensures { IfOk result
        (λ text. IsStateText F.ops p.now text.items (whole Two degree elements.now relations.now)) }
{
    fits(elements.len())?;
    fits(relations.len())?;
    let letters = letters_behind(&p.generators);
    let mut text = heading(alloc, p, degree, elements.len())?;
    push_elements(alloc, &mut text, &p.field, &p.names, &letters, elements)?;
    push_relations(alloc, &mut text, &p.field, p.order.places(), relations)?;
    text.extend_from_slice(b"end\n")?;
    Ok(text)
}
