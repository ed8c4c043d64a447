//! Witnesses in the generators alone.
ghost use Rattle.std.specs.Prelude.{◌≡◌, ℕ, ◌+◌, ◌-◌, ◌≤◌, ◌<◌, ◌↔◌, [], IfOk, length, get_or};
ghost use Rattle.monomial_order.specs.Limits.{degree_max};
ghost use Rattle.monomial_order.specs.Monomial.{IsMonomial};
ghost use Rattle.monomial_order.specs.MonomialOrder.{MonomialOrder};
ghost use Rattle.polynomials.specs.Polynomial.{AllAt, IsCanonical};
ghost use Rattle.poly_core.specs.Presentation.{IsValid, presented};
ghost use Rattle.witness.specs.Expansion.{IsReplaced, IsReplacement, UsesUpTo};
ghost use Rattle.witness.specs.Tracking.{by_order, letter_poly, values_of, Expands, AreTrackedElements, HasDegreesUpTo, IsGraded, IsWitnessOrder};

use crate::Tracked;
use crate::letters::letter;
use monomial_order::{Memory, Monomial, Order, WordOrder};
use poly_core::{Poly, Presentation};
use std::alloc::Global;
use subalgebra_laws::laws;
use word_field::Field;

/// A polynomial in the generators alone that has the value of h at the generators and elements, up to a member of the
/// ideal.
pub fn expand<F: Field, O: Order>(
    alloc: Global,
    p: &Presentation<F, O>,
    w: &WordOrder,
    s: &[Tracked<F>],
    h: &Poly<F>,
) -> Result<Poly<F>, Memory>
    requires valid { IsValid F.ops O.order p.now }
    requires order { IsWitnessOrder (presented F.ops O.order p.now) (values_of s.now) w.now }
    requires elements { AreTrackedElements (presented F.ops O.order p.now) (by_order w.now) s.now }
    requires canonical { IsCanonical (F.ops p.now.field) (by_order w.now) h.now }
    requires small { HasDegreesUpTo (F.ops p.now.field) (by_order w.now) degree_max h.now }
    ensures canonical { IfOk result (IsCanonical (F.ops p.now.field) (by_order p.now.gen_order)) }
    ensures value { IfOk result (Expands (presented F.ops O.order p.now) (values_of s.now) h.now) }
    ensures degrees { IfOk result (λ e. (d : ℕ) →
        HasDegreesUpTo (F.ops p.now.field) (by_order w.now) d h.now →
        HasDegreesUpTo (F.ops p.now.field) (by_order p.now.gen_order) d e) }
    ensures graded { IfOk result (λ e. (d : ℕ) →
        IsGraded (F.ops p.now.field) (by_order w.now) d h.now →
        IsGraded (F.ops p.now.field) (by_order p.now.gen_order) d e) }
{
    let k = p.generators.len();
    let mut e = h.copy(alloc)?;
    let mut degree = greatest_degree(w, k, &e);
    'degrees: while degree > 0 {
        let next = replace_degree(alloc, p, w, s, &e, degree)?;
        degree = greatest_degree(w, k, &next);
        e = next;
    }
    Ok(e)
}

/// e with the letters of elements of this degree replaced by their witnesses.
fn replace_degree<F: Field, O: Order>(
    alloc: Global,
    p: &Presentation<F, O>,
    w: &WordOrder,
    s: &[Tracked<F>],
    e: &Poly<F>,
    degree: u32,
) -> Result<Poly<F>, Memory>
    requires valid { IsValid F.ops O.order p.now }
    requires order { IsWitnessOrder (presented F.ops O.order p.now) (values_of s.now) w.now }
    requires elements { AreTrackedElements (presented F.ops O.order p.now) (by_order w.now) s.now }
    requires canonical { IsCanonical (F.ops p.now.field) (by_order w.now) e.now }
    requires small { HasDegreesUpTo (F.ops p.now.field) (by_order w.now) degree_max e.now }
    requires positive { 1 ≤ degree }
    requires greatest { AllAt (UsesUpTo (length p.now.generators.items) w.now.s_degrees.items degree) e.now }
    ensures replaced { IfOk result
        (IsReplaced (presented F.ops O.order p.now) (by_order w.now) (values_of s.now) e.now) }
    ensures lower { IfOk result
        (AllAt (UsesUpTo (length p.now.generators.items) w.now.s_degrees.items (degree - 1))) }
{
    laws::compositions::<F>();
    let at = replacements(alloc, p, w, s, degree)?;
    let replaced = Poly::evaluate(alloc, &p.field, w, e, at.as_slice())?;
    Ok(replaced)
}

/// The letters, and the witnesses in place of those of the elements of this degree.
fn replacements<F: Field, O: Order>(
    alloc: Global,
    p: &Presentation<F, O>,
    w: &WordOrder,
    s: &[Tracked<F>],
    degree: u32,
) -> Result<Vec<Poly<F>>, Memory>
    requires valid { IsValid F.ops O.order p.now }
    requires order { IsWitnessOrder (presented F.ops O.order p.now) (values_of s.now) w.now }
    requires elements { AreTrackedElements (presented F.ops O.order p.now) (by_order w.now) s.now }
    requires positive { 1 ≤ degree }
    ensures length { IfOk result (λ at. length at.items ≡ length p.now.generators.items + length s.now) }
    ensures each { let P = presented F.ops O.order p.now in IfOk result (λ at. (i : ℕ) → i < length at.items →
        IsReplacement P (by_order w.now) (values_of s.now) w.now.s_degrees.items degree i (get_or at.items i [])) }
{
    let mut at = generator_letters(alloc, p)?;
    'elements: for i in 0..s.len() {
        at.push(replacement(alloc, p, w, s, i, degree)?)?;
    }
    Ok(at)
}

/// The letters of the generators.
fn generator_letters<F: Field, O: Order>(
    alloc: Global,
    p: &Presentation<F, O>,
) -> Result<Vec<Poly<F>>, Memory>
    ensures length { IfOk result (λ at. length at.items ≡ length p.now.generators.items) }
    ensures each { IfOk result (λ at. (i : ℕ) → i < length at.items →
        get_or at.items i [] ≡ letter_poly (F.ops p.now.field) i) }
{
    let mut at = Vec::new(alloc);
    'letters: for i in 0..p.generators.len() {
        at.push(letter(alloc, &p.field, i)?)?;
    }
    Ok(at)
}

/// The letter of an element, counted from 0, or its witness if it has this degree.
fn replacement<F: Field, O: Order>(
    alloc: Global,
    p: &Presentation<F, O>,
    w: &WordOrder,
    s: &[Tracked<F>],
    i: usize,
    degree: u32,
) -> Result<Poly<F>, Memory>
    requires valid { IsValid F.ops O.order p.now }
    requires order { IsWitnessOrder (presented F.ops O.order p.now) (values_of s.now) w.now }
    requires elements { AreTrackedElements (presented F.ops O.order p.now) (by_order w.now) s.now }
    requires element { i < length s.now }
    requires positive { 1 ≤ degree }
    ensures { let P = presented F.ops O.order p.now in
        IfOk result (IsReplacement P (by_order w.now) (values_of s.now) w.now.s_degrees.items degree
        (length p.now.generators.items + i)) }
{
    let place = p.generators.len() + i;
    if w.s_degrees[place] == degree {
        s[i].by.copy(alloc)
    } else {
        letter(alloc, &p.field, place)
    }
}

/// The greatest degree of a letter in e after the first k letters, and 0 if there is none.
pub fn greatest_degree<F: Field>(w: &WordOrder, k: usize, e: &Poly<F>) -> u32
    requires { AllAt (IsMonomial (length w.now.s_degrees.items)) e.now }
    ensures { (b : ℕ) → result ≤ b ↔ AllAt (UsesUpTo k w.now.s_degrees.items b) e.now }
{
    let mut greatest = 0;
    'terms: for t in e.terms() {
        greatest = greatest.max(greatest_letter(w, k, &t.at));
    }
    greatest
}

/// The same for a monomial.
fn greatest_letter(w: &WordOrder, k: usize, m: &Monomial) -> u32
    requires { IsMonomial (length w.now.s_degrees.items) m.now }
    ensures { (b : ℕ) → result ≤ b ↔ UsesUpTo k w.now.s_degrees.items b m.now }
{
    let mut greatest = 0;
    'places: for place in k..m.places() {
        if m.exponent(place) > 0 {
            greatest = greatest.max(w.s_degrees[place]);
        }
    }
    greatest
}
