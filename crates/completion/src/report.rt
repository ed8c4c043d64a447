//! The text of a report.
ghost use Rattle.std.specs.Prelude.{◌≡◌, ◌++◌, codes, string_bytes, IfOk, OnOk};
ghost use Rattle.std.specs.Fmt.{decimal};
ghost use Rattle.poly_core.specs.Presentation.{presented, IsValid};
ghost use Rattle.witness.specs.Tracking.{values_of};
ghost use Rattle.word_values.specs.Values.{AreHomogeneousElements, IsHomogeneousElement};
ghost use Rattle.completion.specs.Report.{element_line, element_lines, mark_text, report_text};

use monomial_order::{Memory, Order};
use poly_core::{Poly, Presentation, write_monomial};
use std::alloc::{AllocError, Global};
use witness::Tracked;
use word_field::Field;

fn head(alloc: Global, degree: u32, count: usize) -> Result<String, AllocError>
    ensures { IfOk result (λ s. string_bytes s ≡ codes "report 1\nbound "
        ++ (decimal degree ++ (codes "\nbasis " ++ (decimal count ++ codes "\n")))) }
{
    format!(in alloc; "report 1\nbound {degree}\nbasis {count}\n")
}

fn numbers(alloc: Global, index: usize, degree: u32) -> Result<String, AllocError>
    ensures { IfOk result (λ s. string_bytes s ≡ decimal index ++ (codes " " ++ (decimal degree ++ codes " "))) }
{
    format!(in alloc; "{index} {degree} ")
}

fn end(complete: bool) -> &'static [u8]
    ensures { result.now ≡ codes "mark " ++ (mark_text complete ++ codes "\nend\n") }
{
    if complete {
        b"mark complete\nend\n"
    } else {
        b"mark open\nend\n"
    }
}

/// Appends the line of an element.
fn push_line<F: Field, O: Order>(
    alloc: Global,
    text: &mut Vec<u8>,
    p: &Presentation<F, O>,
    index: usize,
    element: &Poly<F>,
) -> Result<(), Memory>
    requires presentation { IsValid F.ops O.order p.now }
    requires element { IsHomogeneousElement (presented F.ops O.order p.now) element.now }
    ensures { let P = presented F.ops O.order p.now in
        OnOk result (text.new.items ≡ text.old.items ++ element_line P p.now.names index element.now) }
{
    let Some(first) = element.lead() else {
        unreachable!()
    };
    let numbers = numbers(alloc, index, p.order.degree(&first.at))?;
    let lead = write_monomial(alloc, &first.at, &p.names)?;
    let value = Poly::write(alloc, &p.field, element, &p.names)?;
    text.extend_from_slice(numbers.as_bytes())?;
    text.extend_from_slice(&lead)?;
    text.extend_from_slice(b" : ")?;
    text.extend_from_slice(&value)?;
    text.extend_from_slice(b"\n")?;
    Ok(())
}

/// Appends the lines of the elements.
fn push_lines<F: Field, O: Order>(
    alloc: Global,
    text: &mut Vec<u8>,
    p: &Presentation<F, O>,
    elements: &[Tracked<F>],
) -> Result<(), Memory>
    requires presentation { IsValid F.ops O.order p.now }
    requires elements { AreHomogeneousElements (presented F.ops O.order p.now) (values_of elements.now) }
    ensures { let P = presented F.ops O.order p.now in OnOk result
        (text.new.items ≡ text.old.items ++ element_lines P p.now.names 1 (values_of elements.now)) }
{
    for (i, element) in elements.iter().enumerate() {
        push_line(alloc, text, p, i + 1, &element.value)?;
    }
    Ok(())
}

/// The report on the elements of a basis to a degree.
pub(crate) fn report_on<F: Field, O: Order>(
    alloc: Global,
    p: &Presentation<F, O>,
    degree: u32,
    elements: &[Tracked<F>],
    complete: bool,
) -> Result<Vec<u8>, Memory>
    requires presentation { IsValid F.ops O.order p.now }
    requires elements { AreHomogeneousElements (presented F.ops O.order p.now) (values_of elements.now) }
    ensures { let P = presented F.ops O.order p.now in IfOk result
        (λ v. v.items ≡ report_text P p.now.names degree (values_of elements.now) (mark_text complete)) }
{
    let head = head(alloc, degree, elements.len())?;
    let mut text = Vec::from_slice(alloc, head.as_bytes())?;
    push_lines(alloc, &mut text, p, elements)?;
    text.extend_from_slice(end(complete))?;
    Ok(text)
}
