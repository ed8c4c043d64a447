//! Values of words over elements, worked out by hand.
ghost use Rattle.std.specs.Prelude.{◌≡◌, ◌≤◌, ◌<◌, ◌+◌, [], true, length, get_or, IfOk};
ghost use Rattle.polynomials.specs.Polynomial.{lead_monomial};
ghost use Rattle.quotient_gb.specs.Quotient.{IsQuotientOf};
ghost use Rattle.witness.specs.Tracking.{values_of};
ghost use Rattle.word_values.specs.Values.{AreHomogeneousElements, AreValues, IsHomogeneousElement};
ghost use Rattle.worked_rows.specs.Rings.{IsRing};
ghost use Rattle.worked_bases.specs.Rings.{of_ring};
ghost use Rattle.worked_bases.specs.WordsTo.{IsWordTo};

use monomial_order::{Monomial, Order, WeightOrder};
use poly_core::Poly;
use quotient_gb::Quotient;
use std::alloc::Global;
use std::test::Fail;
use witness::Tracked;
use word_field::WordField;
use word_values::Values;
use worked_rows::rings::{Ring, X_AND_Y, polynomial, ring, text_of};
use worked_rows::rows::{ensure, judge, part};

/// As `X_AND_Y`, modulo x^2 - y^2.
const LINES: &str =
    "subalgebra 1\nfield 101\nvars x y\nweights 1 1\norder lex\nideal 1\nx^2 - y^2\ngenerators 0\nend\n";

/// A quotient that is known to be closed.
fn closed_quotient(alloc: Global, p: &Ring) -> Result<Quotient<WordField, WeightOrder>, Fail>
    requires { IsRing p.now }
    ensures quotient { IfOk result (IsQuotientOf (of_ring p.now)) }
    ensures closed { IfOk result (λ q. q.closed ≡ true) }
{
    let mut quotient = Quotient::new(alloc, p)?;
    quotient.extend_to(alloc, p, 4)?;
    let closed = quotient.closed(alloc, p)?;
    ensure(closed, "not closed")?;
    Ok(quotient)
}

/// The element of a text: the normal form of the polynomial, which has to be homogeneous of positive degree.
fn element(
    alloc: Global,
    p: &Ring,
    quotient: &Quotient<WordField, WeightOrder>,
    text: &str,
) -> Result<Tracked<WordField>, Fail>
    requires valid { IsRing p.now }
    requires quotient { IsQuotientOf (of_ring p.now) quotient.now }
    requires closed { quotient.now.closed ≡ true }
    ensures { IfOk result (λ t. IsHomogeneousElement (of_ring p.now) t.value) }
{
    let a = polynomial(alloc, p, text)?;
    let value = quotient.normal_form(alloc, p, &a)?;
    ensure(Poly::is_homogeneous(&p.order, &value), text)?;
    let Some(first) = value.lead() else {
        return Err(Fail::new("zero"));
    };
    ensure(p.order.degree(&first.at) >= 1, text)?;
    Ok(Tracked {
        value,
        by: Poly::zero(alloc),
    })
}

/// The elements of a part.
fn elements(
    alloc: Global,
    p: &Ring,
    quotient: &Quotient<WordField, WeightOrder>,
    list: &str,
) -> Result<Vec<Tracked<WordField>>, Fail>
    requires valid { IsRing p.now }
    requires quotient { IsQuotientOf (of_ring p.now) quotient.now }
    requires closed { quotient.now.closed ≡ true }
    ensures { let P = of_ring p.now in
        IfOk result (λ r. AreHomogeneousElements P (values_of r.items)) }
{
    let mut elements = Vec::new(alloc);
    'texts: for text in list.split(", ") {
        let t = element(alloc, p, quotient, text)?;
        elements.push(t)?;
    }
    Ok(elements)
}

/// A word, and a bound of its degree.
#[derive(Drop)]
struct LowWord {
    word: Monomial,
    bound: u32,
}

/// The degree of an element.
fn letter_degree(p: &Ring, elements: &[Tracked<WordField>], letter: usize) -> Result<u32, Fail>
    requires elements { AreHomogeneousElements (of_ring p.now) (values_of elements.now) }
    requires letter { letter < length elements.now }
    ensures { IfOk result (λ d. d ≡
        (of_ring p.now).order.degree (lead_monomial (get_or (values_of elements.now) letter []))) }
{
    let Some(degree) = Poly::degree(&p.order, &elements[letter].value) else {
        return Err(Fail::new("zero"));
    };
    Ok(degree)
}

/// A word with one more letter, which has this degree.
fn longer(
    alloc: Global,
    p: &Ring,
    _elements: &[Tracked<WordField>],
    word: &Monomial,
    _bound: u32,
    letter: usize,
    _degree: u32,
) -> Result<Monomial, Fail>
    requires valid { IsRing p.now }
    requires elements { AreHomogeneousElements (of_ring p.now) (values_of _elements.now) }
    requires letter { letter < length _elements.now }
    requires degree { let S = values_of _elements.now in
        _degree ≡ (of_ring p.now).order.degree (lead_monomial (get_or S letter [])) }
    requires word { IsWordTo (of_ring p.now) (values_of _elements.now) _bound word.now }
    requires small { _bound + _degree ≤ 60000 }
    ensures { let P = of_ring p.now in
        IfOk result (IsWordTo P (values_of _elements.now) (_bound + _degree)) }
{
    let variable = Monomial::variable(alloc, p.order.places() + letter)?;
    Ok(variable.times(alloc, word)?)
}

/// Adds the letter of a number, which is counted from 0.
fn add_letter(
    alloc: Global,
    p: &Ring,
    elements: &[Tracked<WordField>],
    w: &mut LowWord,
    number: &str,
) -> Result<(), Fail>
    requires valid { IsRing p.now }
    requires elements { AreHomogeneousElements (of_ring p.now) (values_of elements.now) }
    requires word { IsWordTo (of_ring p.now) (values_of elements.now) w.old.bound w.old.word }
    ensures { let P = of_ring p.now in
        IfOk result (λ _. IsWordTo P (values_of elements.now) w.new.bound w.new.word) }
{
    let letter = number.parse::<usize>()?;
    ensure(letter < elements.len(), number)?;
    let degree = letter_degree(p, elements, letter)?;
    ensure(w.bound <= 30_000 && degree <= 30_000, number)?;
    w.word = longer(alloc, p, elements, &w.word, w.bound, letter, degree)?;
    w.bound += degree;
    Ok(())
}

/// The word of letters, which are counted from 0.
pub(crate) fn word_of(
    alloc: Global,
    p: &Ring,
    elements: &[Tracked<WordField>],
    list: &str,
) -> Result<Monomial, Fail>
    requires valid { IsRing p.now }
    requires elements { AreHomogeneousElements (of_ring p.now) (values_of elements.now) }
    ensures { let P = of_ring p.now in
        IfOk result (IsWordTo P (values_of elements.now) 60000) }
{
    let mut w = LowWord {
        word: Monomial::one(alloc),
        bound: 0,
    };
    'letters: for number in list.split_whitespace() {
        add_letter(alloc, p, elements, &mut w, number)?;
    }
    ensure(w.bound <= 60_000, list)?;
    Ok(w.word)
}

/// The canonical text of the value of a word.
fn value_of(
    alloc: Global,
    values: &mut Values<WordField>,
    p: &Ring,
    quotient: &Quotient<WordField, WeightOrder>,
    elements: &[Tracked<WordField>],
    list: &str,
) -> Result<String, Fail>
    requires valid { IsRing p.now }
    requires quotient { IsQuotientOf (of_ring p.now) quotient.now }
    requires closed { quotient.now.closed ≡ true }
    requires elements { AreHomogeneousElements (of_ring p.now) (values_of elements.now) }
    requires values { AreValues (of_ring p.now) (values_of elements.now) values.old }
    ensures { AreValues (of_ring p.now) (values_of elements.now) values.new }
{
    let word = word_of(alloc, p, elements, list)?;
    match values.prepare(alloc, p, quotient, elements, &word)? {
        Some(value) => text_of(alloc, p, &value),
        None => text_of(alloc, p, values.get(p, elements, &word).ok_or("no value")?),
    }
}

/// The canonical texts of the values of words.
fn values_of_words(
    alloc: Global,
    p: &Ring,
    quotient: &Quotient<WordField, WeightOrder>,
    elements: &[Tracked<WordField>],
    words: &str,
    limit: u32,
) -> Result<String, Fail>
    requires valid { IsRing p.now }
    requires quotient { IsQuotientOf (of_ring p.now) quotient.now }
    requires closed { quotient.now.closed ≡ true }
    requires elements { AreHomogeneousElements (of_ring p.now) (values_of elements.now) }
{
    let mut values = Values::new(alloc, limit);
    let mut text = String::new(alloc);
    'words: for word in words.split(", ") {
        let value = value_of(alloc, &mut values, p, quotient, elements, word)?;
        text.push_str(value.as_str())?;
        text.push_str("; ")?;
    }
    Ok(text)
}

/// The canonical texts of the values of a row.
fn answer(alloc: Global, presentation: &str, row: &str, limit: u32) -> Result<String, Fail> {
    let p = ring(alloc, presentation)?;
    let quotient = closed_quotient(alloc, &p)?;
    let elements = elements(alloc, &p, &quotient, part(row, 0))?;
    values_of_words(
        alloc,
        &p,
        &quotient,
        elements.as_slice(),
        part(row, 1),
        limit,
    )
}

#[test]
fn values_of_few_words(rt: HostRuntime) -> Result<(), Fail> {
    // elements, words as indices of letters, and their values; asked twice they give the same
    for row in [
        "x + y, x*y | 0 0, 0 1, 0 0 | x^2 + 2*x*y + y^2; x^2*y + x*y^2; x^2 + 2*x*y + y^2; ",
        "x + y, x*y | 0, 1, 0 0 0, 1 1 | x + y; x*y; x^3 + 3*x^2*y + 3*x*y^2 + y^3; x^2*y^2; ",
    ] {
        judge(row, answer(rt.alloc(), X_AND_Y, row, 0)?.as_str())?;
        judge(row, answer(rt.alloc(), X_AND_Y, row, 60)?.as_str())?;
    }
    Ok(())
}

#[test]
fn values_modulo_an_ideal(rt: HostRuntime) -> Result<(), Fail> {
    let row = "x + y | 0 0, 0 0 | 2*x*y + 2*y^2; 2*x*y + 2*y^2; ";
    judge(row, answer(rt.alloc(), LINES, row, 0)?.as_str())?;
    judge(row, answer(rt.alloc(), LINES, row, 60)?.as_str())
}
