//! The lines of the relations.
ghost use Rattle.std.specs.Prelude.{◌≡◌, ◌++◌, codes, string_bytes, All, IfOk, OnOk};
ghost use Rattle.std.specs.Fmt.{decimal};
ghost use Rattle.completion.specs.LetterNames.{element_names};
ghost use Rattle.completion.specs.RelationLines.{relation_line, relation_lines, relations_text, IsPrintable};

use crate::Relation;
use monomial_order::Memory;
use poly_core::{Names, Poly, write_monomial};
use std::alloc::{AllocError, Global};
use word_field::Field;

fn head(alloc: Global, count: usize) -> Result<String, AllocError>
    ensures { IfOk result (λ s. string_bytes s ≡ codes "relations " ++ (decimal count ++ codes "\n")) }
{
    format!(in alloc; "relations {count}\n")
}

/// Appends the line of a relation.
fn push_line<F: Field>(
    alloc: Global,
    text: &mut Vec<u8>,
    f: &F,
    names: &Names,
    relation: &Relation<F>,
) -> Result<(), Memory>
    requires printable { IsPrintable (F.ops f.now) names.now relation.now }
    ensures { OnOk result (text.new.items ≡ text.old.items ++ relation_line (F.ops f.now) names.now relation.now) }
{
    let word = write_monomial(alloc, &relation.word, names)?;
    let right = Poly::write(alloc, f, &relation.right, names)?;
    text.extend_from_slice(&word)?;
    text.extend_from_slice(b" = ")?;
    text.extend_from_slice(&right)?;
    text.extend_from_slice(b"\n")?;
    Ok(())
}

/// Appends the lines of the relations.
fn push_lines<F: Field>(
    alloc: Global,
    text: &mut Vec<u8>,
    f: &F,
    names: &Names,
    relations: &[Relation<F>],
) -> Result<(), Memory>
    requires printable { All (IsPrintable (F.ops f.now) names.now) relations.now }
    ensures { OnOk result
        (text.new.items ≡ text.old.items ++ relation_lines (F.ops f.now) names.now relations.now) }
{
    'lines: for relation in relations {
        push_line(alloc, text, f, names, relation)?;
    }
    Ok(())
}

/// The names of elements behind so many variables.
fn names_behind(places: usize) -> Names
    ensures { result ≡ element_names places }
{
    Names::Numbered {
        prefix: b's',
        skip: places,
    }
}

/// Appends the number of relations, and a line for each. In their words the letters of elements are behind so many
/// variables.
pub fn push_relations<F: Field>(
    alloc: Global,
    text: &mut Vec<u8>,
    f: &F,
    places: usize,
    relations: &[Relation<F>],
) -> Result<(), Memory>
    requires printable { All (IsPrintable (F.ops f.now) (element_names places)) relations.now }
    ensures { OnOk result
        (text.new.items ≡ text.old.items ++ relations_text (F.ops f.now) (element_names places) relations.now) }
{
    let head = head(alloc, relations.len())?;
    text.extend_from_slice(head.as_bytes())?;
    push_lines(alloc, text, f, &names_behind(places), relations)
}
