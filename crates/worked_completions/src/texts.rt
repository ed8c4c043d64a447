//! Texts of what a completion has and of what is answered.
ghost use Rattle.std.specs.Prelude.{All};
ghost use Rattle.word_field.specs.Residues.{residues};
ghost use Rattle.poly_core.specs.Presentation.{weight_order_of};
ghost use Rattle.poly_core.specs.Text.{AreValues};
ghost use Rattle.witness.specs.Tracking.{by_order};
ghost use Rattle.membership.specs.Answer.{IsCanonicalReply};
ghost use Rattle.worked_rows.specs.Rings.{IsIn, IsRing};

use completion::Relation;
use membership::Reply;
use monomial_order::{Monomial, Order};
use poly_core::{Names, Poly, write_monomial};
use std::alloc::Global;
use std::test::Fail;
use subduction::Subduced;
use witness::Tracked;
use word_field::WordField;
use worked_rows::rings::{Ring, text_of};

/// The elements, each after ` / `.
pub(crate) fn elements_text(
    alloc: Global,
    p: &Ring,
    elements: &[Tracked<WordField>],
) -> Result<String, Fail>
    requires valid { IsRing p.now }
    requires canonical { All (λ t. IsIn p.now t.value) elements.now }
{
    let mut text = String::new(alloc);
    'elements: for t in elements {
        text.push_str(" / ")?;
        text.push_str(text_of(alloc, p, &t.value)?.as_str())?;
    }
    Ok(text)
}

/// The text of a word: as many letters of the first name as are counted, and then s1, s2, ..
fn word_text(alloc: Global, w: &Monomial, first: u8, count: usize) -> Result<String, Fail> {
    let names = Names::Paired {
        first,
        count,
        second: b's',
    };
    Ok(String::from_utf8(write_monomial(alloc, w, &names)?)?)
}

/// The text of a sum of such words.
fn sum_text(
    alloc: Global,
    p: &Ring,
    e: &Poly<WordField>,
    first: u8,
    count: usize,
) -> Result<String, Fail>
    requires { AreValues (residues p.now.field.modulus) e.now }
{
    let names = Names::Paired {
        first,
        count,
        second: b's',
    };
    Ok(String::from_utf8(Poly::write(alloc, &p.field, e, &names)?)?)
}

/// The text of a relation.
fn relation_text(alloc: Global, p: &Ring, r: &Relation<WordField>) -> Result<String, Fail>
    requires { AreValues (residues p.now.field.modulus) r.now.right }
{
    let count = p.order.places();
    let word = word_text(alloc, &r.word, b'x', count)?;
    let right = sum_text(alloc, p, &r.right, b'x', count)?;
    Ok(format!(in alloc; "{word} = {right}")?)
}

/// The relations, each after ` / `.
pub(crate) fn relations_text(
    alloc: Global,
    p: &Ring,
    relations: &[Relation<WordField>],
) -> Result<String, Fail>
    requires { All (λ r. AreValues (residues p.now.field.modulus) r.right) relations.now }
{
    let mut text = String::new(alloc);
    'relations: for r in relations {
        text.push_str(" / ")?;
        text.push_str(relation_text(alloc, p, r)?.as_str())?;
    }
    Ok(text)
}

/// The text of a sum of words and of the rest.
pub(crate) fn subduced_text(
    alloc: Global,
    p: &Ring,
    s: &Subduced<WordField>,
) -> Result<String, Fail>
    requires valid { IsRing p.now }
    requires word_sum { AreValues (residues p.now.field.modulus) s.now.word_sum }
    requires rest { IsIn p.now s.now.rest.value }
{
    let word_sum = sum_text(alloc, p, &s.word_sum, b'x', p.order.places())?;
    let rest = text_of(alloc, p, &s.rest.value)?;
    Ok(format!(in alloc; "{word_sum}; {rest}")?)
}

/// The text of an answer.
pub(crate) fn reply_text(alloc: Global, p: &Ring, reply: &Reply<WordField>) -> Result<String, Fail>
    requires valid { IsRing p.now }
    requires canonical { IsCanonicalReply (residues p.now.field.modulus) (weight_order_of p.now.order)
        (by_order p.now.gen_order) reply.now }
{
    match reply {
        Reply::Beyond(d) => Ok(format!(in alloc; "beyond {d}")?),
        Reply::Member(h) => {
            let text = sum_text(alloc, p, h, b'g', p.generators.len())?;
            Ok(format!(in alloc; "member {text}")?)
        }
        Reply::No(r) => {
            let text = text_of(alloc, p, r)?;
            Ok(format!(in alloc; "no {text}")?)
        }
    }
}

/// The lines of a text, with ` / ` between them.
pub(crate) fn joined(alloc: Global, text: Vec<u8>) -> Result<String, Fail> {
    let text = String::from_utf8(text)?;
    let mut line = String::new(alloc);
    'lines: for part in text.as_str().lines() {
        line.push_str(if line.is_empty() { "" } else { " / " })?;
        line.push_str(part)?;
    }
    Ok(line)
}

/// The lines of a report but the first and the last, with ` / ` between them.
pub(crate) fn on_one_line(alloc: Global, report: Vec<u8>) -> Result<String, Fail> {
    let line = joined(alloc, report)?;
    let inner = line
        .as_str()
        .strip_prefix("report 1 / ")
        .ok_or("no report")?;
    let inner = inner.strip_suffix(" / end").ok_or("no end")?;
    Ok(format!(in alloc; "{inner}")?)
}
