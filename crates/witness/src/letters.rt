//! The generators and the elements, each with its letter as the witness.
ghost use Rattle.std.specs.Prelude.{◌≡◌, ℕ, ◌+◌, ◌-◌, ◌≤◌, ◌<◌, ◌^◌, List, [], ◌∷◌, length, get_or, IfOk};
ghost use Rattle.monomial_order.specs.declared.word_order.WordOrder.{WordOrder};
ghost use Rattle.polynomials.specs.Polynomial.{Polynomial, degree_of, IsCanonical};
ghost use Rattle.poly_core.specs.Presentation.{generator_degree, presented, IsValid};
ghost use Rattle.witness.specs.Tracking.{by_order, letter_poly, HasPlaces, IsCanonicalPair, IsGraded, IsGradedPair, IsWitnessOrder, Tracks};

use crate::Tracked;
use monomial_order::{Memory, Monomial, Order};
use poly_core::{Poly, Presentation};
use std::alloc::Global;
use word_field::Field;

/// The letter at a place, as a polynomial.
pub(crate) fn letter<F: Field>(alloc: Global, f: &F, place: usize) -> Result<Poly<F>, Memory>
    requires { place + 1 < 2 ^ 64 }
    ensures letter { IfOk result (λ r. r ≡ letter_poly (F.ops f.now) place) }
{
    Poly::term(alloc, f, Monomial::variable(alloc, place)?, f.one())
}

/// The generator of a number, counted from 1.
pub fn generator<F: Field, O: Order>(
    alloc: Global,
    p: &Presentation<F, O>,
    i: usize,
) -> Result<Tracked<F>, Memory>
    requires first { 1 ≤ i }
    requires last { i ≤ length p.now.generators.items }
    ensures value { IfOk result (λ t. t.value ≡ get_or p.now.generators.items (i - 1) []) }
    ensures by { IfOk result (λ t. t.by ≡ letter_poly (F.ops p.now.field) (i - 1)) }
    ensures tracks { let P = presented F.ops O.order p.now in
        IfOk result (λ t. (S : List (Polynomial F.Elem)) → Tracks P S t) }
    ensures canonical { IfOk result (λ t. (w : WordOrder) → IsValid F.ops O.order p.now → HasPlaces i w →
        IsCanonicalPair (F.ops p.now.field) (O.order p.now.order) (by_order w) t) }
    ensures graded { let P = presented F.ops O.order p.now in
        IfOk result (λ t. (S : List (Polynomial F.Elem)) (w : WordOrder) →
        IsValid F.ops O.order p.now → IsWitnessOrder P S w →
        IsGradedPair P.field P.order (by_order w) (generator_degree P.order (get_or P.generators (i - 1) [])) t) }
{
    Ok(Tracked {
        value: p.generators[i - 1].copy(alloc)?,
        by: letter(alloc, &p.field, i - 1)?,
    })
}

/// The element of a number, counted from 1, which has this value.
pub fn element<F: Field, O: Order>(
    alloc: Global,
    p: &Presentation<F, O>,
    value: &Poly<F>,
    i: usize,
) -> Result<Tracked<F>, Memory>
    requires first { 1 ≤ i }
    requires few { length p.now.generators.items + i < 2 ^ 64 }
    ensures value { IfOk result (λ t. t.value ≡ value.now) }
    ensures by { IfOk result (λ t. t.by ≡ letter_poly (F.ops p.now.field) (length p.now.generators.items + (i - 1))) }
    ensures tracks { let P = presented F.ops O.order p.now in IfOk result (λ t. (S : List (Polynomial F.Elem)) →
        i ≤ length S → get_or S (i - 1) [] ≡ value.now → Tracks P S t) }
    ensures canonical { IfOk result (λ t. (w : WordOrder) →
        IsCanonical (F.ops p.now.field) (O.order p.now.order) value.now →
        HasPlaces (length p.now.generators.items + i) w →
        IsCanonicalPair (F.ops p.now.field) (O.order p.now.order) (by_order w) t) }
    ensures graded { let P = presented F.ops O.order p.now in
        IfOk result (λ t. (S : List (Polynomial F.Elem)) (w : WordOrder) →
        IsWitnessOrder P S w → i ≤ length S → get_or S (i - 1) [] ≡ value.now →
        IsGraded P.field P.order (degree_of P.order value.now) value.now →
        IsGradedPair P.field P.order (by_order w) (degree_of P.order value.now) t) }
{
    Ok(Tracked {
        value: value.copy(alloc)?,
        by: letter(alloc, &p.field, p.generators.len() + (i - 1))?,
    })
}
