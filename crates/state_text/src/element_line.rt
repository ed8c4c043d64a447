//! Lines of elements.
ghost use Rattle.std.specs.Prelude.{◌≡◌, ◌≤◌, ◌↔◌, [], List, length, IsTrue, IsNone, IfSome, IfOk};
ghost use Rattle.monomial_order.specs.MonomialOrder.{MonomialOrder};
ghost use Rattle.polynomial_text.specs.Canonical.{AreDifferent};
ghost use Rattle.polynomials.specs.Polynomial.{Polynomial, degree_of, IsCanonical, IsHomogeneous};
ghost use Rattle.poly_core.specs.Presentation.{presented, weight_order_of, IsValid};
ghost use Rattle.witness.specs.Tracking.{by_order, IsWitnessOrder};
ghost use Rattle.state_text.specs.Limits.{bound_max};
ghost use Rattle.state_text.specs.LineReadings.{IsDueValue, IsElementReading, IsReadingWith};
ghost use Rattle.state_text.specs.Parts.{usable, IsDueWitness};
ghost use Rattle.state_text.specs.StateText.{letters_of};

use crate::Version;
use crate::line_parts::parts;
use monomial_order::{Memory, Order, WeightOrder, WordOrder};
use poly_core::{Names, Poly, Presentation};
use polynomial_text::laws::has_short_words;
use polynomial_text::read_canonical;
use std::alloc::Global;
use witness::{Tracked, greatest_degree};
use word_field::Field;

/// The degree of a polynomial that may be the value of an element, and None if it may not.
fn due_degree<F: Field>(p: &Presentation<F, WeightOrder>, c: u32, a: &Poly<F>) -> Option<u32>
    requires { IsCanonical (F.ops p.now.field) (weight_order_of p.now.order) a.now }
    ensures degree { IfSome result (λ d. d ≡ degree_of (weight_order_of p.now.order) a.now) }
    ensures some { IfSome result (λ _. IsDueValue (F.ops p.now.field) (weight_order_of p.now.order) c a.now) }
    ensures none { IsNone result → ¬ IsDueValue (F.ops p.now.field) (weight_order_of p.now.order) c a.now }
{
    let degree = Poly::degree(&p.order, a)?;
    if degree < 1 || c < degree || !Poly::is_homogeneous(&p.order, a) {
        return None;
    }
    Some(degree)
}

/// Whether h is homogeneous of this degree.
pub(crate) fn has_degree<F: Field>(_f: &F, w: &WordOrder, degree: u32, h: &Poly<F>) -> bool
    requires { IsCanonical (F.ops _f.now) (by_order w.now) h.now }
    ensures { IsTrue result ↔ IsHomogeneous (F.ops _f.now) (by_order w.now) degree h.now }
{
    match Poly::degree(w, h) {
        Some(greatest) => greatest == degree && Poly::is_homogeneous(w, h),
        None => false,
    }
}

/// Whether h may be the witness of an element of this degree.
fn is_due_witness<F: Field>(
    p: &Presentation<F, WeightOrder>,
    w: &WordOrder,
    degree: u32,
    h: &Poly<F>,
) -> bool
    requires positive { 1 ≤ degree }
    requires witness { IsCanonical (F.ops p.now.field) (by_order w.now) h.now }
    requires x { w.now.x_degrees.items ≡ [] }
    ensures { let P = presented F.ops weight_order_of p.now in (S : List (Polynomial F.Elem)) →
        IsWitnessOrder P S w.now → (IsTrue result ↔ IsDueWitness P S degree h.now) }
{
    has_degree(&p.field, w, degree, h) && greatest_degree(w, p.generators.len(), h) < degree
}

/// A letter of witnesses for each place.
fn letters(version: Version, count: usize, w: &WordOrder) -> Names
    ensures is { result ≡ letters_of version count }
    ensures different { let W = by_order w.now in AreDifferent W.places result }
{
    let _places = w.places();
    match version {
        Version::One => Names::Numbered {
            prefix: b'g',
            skip: 0,
        },
        Version::Two => Names::Paired {
            first: b'g',
            count,
            second: b's',
        },
    }
}

/// The witness whose text this is, if it is one of an element of this degree.
fn read_witness<F: Field>(
    alloc: Global,
    p: &Presentation<F, WeightOrder>,
    version: Version,
    w: &WordOrder,
    degree: u32,
    text: &[u8],
) -> Result<Option<Poly<F>>, Memory>
    requires positive { 1 ≤ degree }
    requires x { w.now.x_degrees.items ≡ [] }
    ensures { let P = presented F.ops weight_order_of p.now in (S : List (Polynomial F.Elem)) →
        IsWitnessOrder P S w.now → IfOk result (IsReadingWith P.field (by_order w.now)
        (letters_of version (length P.generators)) (IsDueWitness P S degree) text.now) }
{
    has_short_words(&p.field);
    let letters = letters(version, p.generators.len(), w);
    let Some(witness) = read_canonical(alloc, &p.field, w, &letters, text)? else {
        return Ok(None);
    };
    if is_due_witness(p, w, degree, &witness) {
        Ok(Some(witness))
    } else {
        Ok(None)
    }
}

/// The element of a line that comes without its line feed, if it is the line of one that is due behind elements with
/// the letters of w.
pub fn read_element<F: Field>(
    alloc: Global,
    p: &Presentation<F, WeightOrder>,
    version: Version,
    c: u32,
    w: &WordOrder,
    line: &[u8],
) -> Result<Option<Tracked<F>>, Memory>
    requires valid { IsValid F.ops weight_order_of p.now }
    requires bound { c ≤ bound_max }
    requires x { w.now.x_degrees.items ≡ [] }
    ensures { let P = presented F.ops weight_order_of p.now in (S : List (Polynomial F.Elem)) →
        IsWitnessOrder P (usable version S) w.now →
        IfOk result (IsElementReading P p.now.names version c S line.now) }
{
    has_short_words(&p.field);
    let Some((value, witness)) = parts(b':', line) else {
        return Ok(None);
    };
    let Some(value) = read_canonical(alloc, &p.field, &p.order, &p.names, value)? else {
        return Ok(None);
    };
    let Some(degree) = due_degree(p, c, &value) else {
        return Ok(None);
    };
    let Some(by) = read_witness(alloc, p, version, w, degree, witness)? else {
        return Ok(None);
    };
    Ok(Some(Tracked { value, by }))
}
