//! Sums, products and multiples of values with their witnesses.
ghost use Rattle.std.specs.Prelude.{◌≡◌, ℕ, ◌+◌, ◌++◌, List, IfOk};
ghost use Rattle.monomial_order.specs.Monomial.{Exponents};
ghost use Rattle.monomial_order.specs.MonomialOrder.{MonomialOrder};
ghost use Rattle.word_field.specs.Field.{IsValue};
ghost use Rattle.polynomials.specs.Polynomial.{Polynomial, coefficient, times, Same, IsCanonical, IsSmall};
ghost use Rattle.polynomials.specs.Ideal.{Congruent};
ghost use Rattle.polynomials.specs.Subalgebra.{IsPresentation};
ghost use Rattle.poly_core.specs.Presentation.{presented};
ghost use Rattle.witness.specs.Tracking.{by_order, Tracks, IsCanonicalPair, IsGradedPair};

use crate::Tracked;
use monomial_order::{Memory, Order, WordOrder};
use poly_core::{Poly, Presentation};
use std::alloc::Global;
use word_field::Field;

/// The sum of both parts.
pub fn sum<F: Field, O: Order>(
    alloc: Global,
    p: &Presentation<F, O>,
    w: &WordOrder,
    a: &Tracked<F>,
    b: &Tracked<F>,
) -> Result<Tracked<F>, Memory>
    requires a { IsCanonicalPair (F.ops p.now.field) (O.order p.now.order) (by_order w.now) a.now }
    requires b { IsCanonicalPair (F.ops p.now.field) (O.order p.now.order) (by_order w.now) b.now }
    ensures canonical { IfOk result (IsCanonicalPair (F.ops p.now.field) (O.order p.now.order) (by_order w.now)) }
    ensures value { IfOk result (λ t. Same (F.ops p.now.field) t.value (a.now.value ++ b.now.value)) }
    ensures by { IfOk result (λ t. Same (F.ops p.now.field) t.by (a.now.by ++ b.now.by)) }
    ensures tracks { let P = presented F.ops O.order p.now in IfOk result (λ t. (S : List (Polynomial F.Elem)) →
        Tracks P S a.now → Tracks P S b.now → Tracks P S t) }
    ensures graded { IfOk result (λ t. (d : ℕ) →
        IsGradedPair (F.ops p.now.field) (O.order p.now.order) (by_order w.now) d a.now →
        IsGradedPair (F.ops p.now.field) (O.order p.now.order) (by_order w.now) d b.now →
        IsGradedPair (F.ops p.now.field) (O.order p.now.order) (by_order w.now) d t) }
{
    Ok(Tracked {
        value: Poly::add(alloc, &p.field, &p.order, &a.value, &b.value)?,
        by: Poly::add(alloc, &p.field, w, &a.by, &b.by)?,
    })
}

/// The product of both parts.
pub fn product<F: Field, O: Order>(
    alloc: Global,
    p: &Presentation<F, O>,
    w: &WordOrder,
    a: &Tracked<F>,
    b: &Tracked<F>,
) -> Result<Tracked<F>, Memory>
    requires presentation { IsPresentation (presented F.ops O.order p.now) }
    requires a { IsCanonicalPair (F.ops p.now.field) (O.order p.now.order) (by_order w.now) a.now }
    requires b { IsCanonicalPair (F.ops p.now.field) (O.order p.now.order) (by_order w.now) b.now }
    requires small { IsSmall (O.order p.now.order) (times (F.ops p.now.field) a.now.value b.now.value) }
    requires small_by { IsSmall (by_order w.now) (times (F.ops p.now.field) a.now.by b.now.by) }
    ensures canonical { IfOk result (IsCanonicalPair (F.ops p.now.field) (O.order p.now.order) (by_order w.now)) }
    ensures value { IfOk result (λ t. let K = F.ops p.now.field in Same K t.value (times K a.now.value b.now.value)) }
    ensures by { IfOk result (λ t. let K = F.ops p.now.field in Same K t.by (times K a.now.by b.now.by)) }
    ensures tracks { let P = presented F.ops O.order p.now in IfOk result (λ t. (S : List (Polynomial F.Elem)) →
        Tracks P S a.now → Tracks P S b.now → Tracks P S t) }
    ensures graded { IfOk result (λ t. (d e : ℕ) →
        IsGradedPair (F.ops p.now.field) (O.order p.now.order) (by_order w.now) d a.now →
        IsGradedPair (F.ops p.now.field) (O.order p.now.order) (by_order w.now) e b.now →
        IsGradedPair (F.ops p.now.field) (O.order p.now.order) (by_order w.now) (d + e) t) }
{
    Ok(Tracked {
        value: Poly::mul(alloc, &p.field, &p.order, &a.value, &b.value)?,
        by: Poly::mul(alloc, &p.field, w, &a.by, &b.by)?,
    })
}

/// Both parts times c.
pub fn scale<F: Field, O: Order>(
    alloc: Global,
    p: &Presentation<F, O>,
    a: &Tracked<F>,
    c: F::Elem,
) -> Result<Tracked<F>, Memory>
    requires a { (W : MonomialOrder) × IsCanonicalPair (F.ops p.now.field) (O.order p.now.order) W a.now }
    requires factor { IsValue (F.ops p.now.field) c }
    ensures canonical { IfOk result (λ t. (W : MonomialOrder) →
        IsCanonicalPair (F.ops p.now.field) (O.order p.now.order) W a.now →
        IsCanonicalPair (F.ops p.now.field) (O.order p.now.order) W t) }
    ensures value { IfOk result (λ t. (m : Exponents) → let K = F.ops p.now.field in
        coefficient K t.value m ≡ K.times c (coefficient K a.now.value m)) }
    ensures by { IfOk result (λ t. (m : Exponents) → let K = F.ops p.now.field in
        coefficient K t.by m ≡ K.times c (coefficient K a.now.by m)) }
    ensures tracks { let P = presented F.ops O.order p.now in
        IfOk result (λ t. (S : List (Polynomial F.Elem)) → Tracks P S a.now → Tracks P S t) }
    ensures graded { IfOk result (λ t. (W : MonomialOrder) (d : ℕ) →
        IsGradedPair (F.ops p.now.field) (O.order p.now.order) W d a.now →
        IsGradedPair (F.ops p.now.field) (O.order p.now.order) W d t) }
{
    Ok(Tracked {
        value: Poly::scale(alloc, &p.field, &a.value, c)?,
        by: Poly::scale(alloc, &p.field, &a.by, c)?,
    })
}

/// The normal form in place of the value. It takes no memory.
pub fn reduce<F: Field, O: Order>(
    _p: &Presentation<F, O>,
    a: Tracked<F>,
    normal_form: Poly<F>,
) -> Tracked<F>
    requires { let P = presented F.ops O.order _p.now in
        Congruent P.field P.order.places P.ideal a.value normal_form }
    ensures value { result.value ≡ normal_form }
    ensures by { result.by ≡ a.by }
    ensures tracks { let P = presented F.ops O.order _p.now in
        (S : List (Polynomial F.Elem)) → Tracks P S a → Tracks P S result }
{
    Tracked {
        value: normal_form,
        by: a.by,
    }
}
