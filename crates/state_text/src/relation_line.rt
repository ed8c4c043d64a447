//! Lines of relations.
ghost use Rattle.std.specs.Prelude.{◌≡◌, ◌≤◌, ◌↔◌, [], ◌∷◌, List, IsTrue, IsNone, IfSome, IfOk};
ghost use Rattle.monomial_order.specs.Monomial.{Exponents};
ghost use Rattle.monomial_order.specs.MonomialOrder.{MonomialOrder};
ghost use Rattle.polynomial_text.specs.Canonical.{AreDifferent};
ghost use Rattle.polynomials.specs.Polynomial.{Polynomial, term_of, IsCanonical};
ghost use Rattle.poly_core.specs.Presentation.{presented, weight_order_of, IsValid};
ghost use Rattle.witness.specs.Tracking.{by_order, IsGraded};
ghost use Rattle.completion.specs.LetterNames.{element_names};
ghost use Rattle.state_text.specs.Limits.{bound_max};
ghost use Rattle.state_text.specs.LineReadings.{IsLetterOrder, IsReadingWith, IsRelationReading, IsWordReading};

use crate::element_line::has_degree;
use crate::line_parts::parts;
use completion::Relation;
use monomial_order::{Memory, Monomial, Order, WeightOrder, WordOrder};
use poly_core::{Names, Poly, Presentation};
use polynomial_text::laws::has_short_words;
use polynomial_text::read_canonical;
use std::alloc::Global;
use word_field::Field;

/// The letters of elements behind so many variables.
fn letters(places: usize, w: &WordOrder) -> Names
    ensures is { result ≡ element_names places }
    ensures different { let W = by_order w.now in AreDifferent W.places result }
{
    let _places = w.places();
    Names::Numbered {
        prefix: b's',
        skip: places,
    }
}

/// The monomial of a polynomial that has one term, with the coefficient 1.
fn single<F: Field>(alloc: Global, f: &F, a: &Poly<F>) -> Result<Option<Monomial>, Memory>
    ensures some { IfOk result (λ x. IfSome x (λ m. a.now ≡ term_of m (F.ops f.now).one ∷ [])) }
    ensures none { IfOk result (λ x. IsNone x → (m : Exponents) → a.now ≡ term_of m (F.ops f.now).one ∷ [] → ⊥) }
{
    let [t] = a.terms() else {
        return Ok(None);
    };
    if t.by == f.one() {
        Ok(Some(t.at.copy(alloc)?))
    } else {
        Ok(None)
    }
}

/// The word whose text this is, if it is one of a relation.
fn read_word<F: Field>(
    alloc: Global,
    f: &F,
    w: &WordOrder,
    letters: &Names,
    c: u32,
    text: &[u8],
) -> Result<Option<Monomial>, Memory>
    requires different { let W = by_order w.now in AreDifferent W.places letters.now }
    requires bound { c ≤ bound_max }
    ensures { IfOk result (IsWordReading (by_order w.now) letters.now c text.now) }
{
    has_short_words(f);
    let Some(found) = read_canonical(alloc, f, w, letters, text)? else {
        return Ok(None);
    };
    let Some(word) = single(alloc, f, &found)? else {
        return Ok(None);
    };
    if word.places() == 0 || c < w.degree(&word) {
        return Ok(None);
    }
    Ok(Some(word))
}

/// Whether all monomials have this degree.
fn is_graded<F: Field>(f: &F, w: &WordOrder, degree: u32, a: &Poly<F>) -> bool
    requires { IsCanonical (F.ops f.now) (by_order w.now) a.now }
    ensures { IsTrue result ↔ IsGraded (F.ops f.now) (by_order w.now) degree a.now }
{
    match a.lead() {
        Some(_) => has_degree(f, w, degree, a),
        None => true,
    }
}

/// The right side whose text this is, if it is one of a relation of this degree.
fn read_right<F: Field>(
    alloc: Global,
    f: &F,
    w: &WordOrder,
    letters: &Names,
    degree: u32,
    text: &[u8],
) -> Result<Option<Poly<F>>, Memory>
    requires different { let W = by_order w.now in AreDifferent W.places letters.now }
    ensures { let K = F.ops f.now in IfOk result
        (IsReadingWith K (by_order w.now) letters.now (IsGraded K (by_order w.now) degree) text.now) }
{
    has_short_words(f);
    let Some(right) = read_canonical(alloc, f, w, letters, text)? else {
        return Ok(None);
    };
    if is_graded(f, w, degree, &right) {
        Ok(Some(right))
    } else {
        Ok(None)
    }
}

/// The relation of a line that comes without its line feed, if it is the line of one that is due with elements with the
/// letters of w.
pub fn read_relation<F: Field>(
    alloc: Global,
    p: &Presentation<F, WeightOrder>,
    w: &WordOrder,
    c: u32,
    line: &[u8],
) -> Result<Option<Relation<F>>, Memory>
    requires valid { IsValid F.ops weight_order_of p.now }
    requires bound { c ≤ bound_max }
    ensures { let P = presented F.ops weight_order_of p.now in (S : List (Polynomial F.Elem)) →
        IsLetterOrder P S w.now → IfOk result (IsRelationReading P c S line.now) }
{
    has_short_words(&p.field);
    let letters = letters(p.order.places(), w);
    let Some((word, right)) = parts(b'=', line) else {
        return Ok(None);
    };
    let Some(word) = read_word(alloc, &p.field, w, &letters, c, word)? else {
        return Ok(None);
    };
    let degree = w.degree(&word);
    let Some(right) = read_right(alloc, &p.field, w, &letters, degree, right)? else {
        return Ok(None);
    };
    Ok(Some(Relation { word, right }))
}
