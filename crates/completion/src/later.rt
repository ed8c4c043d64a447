//! Whether anything new comes after a degree.
ghost use Rattle.std.specs.Prelude.{◌≡◌, ℕ, ◌≤◌, ◌<◌, true, false, Contains, IfOk};
ghost use Rattle.monomial_order.specs.Monomial.{Exponents};
ghost use Rattle.poly_core.specs.Presentation.{presented, AreCanonicalGenerators, IsCanonicalGenerator, IsValid};
ghost use Rattle.polynomials.specs.Polynomial.{Polynomial, IsHomogeneous};
ghost use Rattle.polynomials.specs.Subalgebra.{HasDegreesTo};
ghost use Rattle.quotient_gb.specs.Quotient.{closing_max};
ghost use Rattle.toric_ideal.specs.declared.rule.Rule.{Rule};
ghost use Rattle.subalgebra_laws.specs.Bases.{IsClosedAt};
ghost use Rattle.witness.specs.Tracking.{values_of};
ghost use Rattle.word_values.specs.Values.{word_degree};
ghost use Rattle.subduction.specs.Basis.{IsBasisOf, IsKnownClosed};
ghost use Rattle.completion.specs.Closed.{HasHigher, HasLater, HasNewLead, HasNewWord, HasNoneAbove};

use monomial_order::{Memory, Order};
use poly_core::{Poly, Presentation};
use std::alloc::Global;
use subduction::Basis;
use word_field::Field;

/// Whether a generator has a degree above c.
fn is_above<F: Field, O: Order>(p: &Presentation<F, O>, f: &Poly<F>, c: u32) -> bool
    requires { IsCanonicalGenerator (F.ops p.now.field) (O.order p.now.order) f.now }
    ensures yes { result ≡ true → (d : ℕ) × IsHomogeneous (F.ops p.now.field) (O.order p.now.order) d f.now × (c < d) }
    ensures no { result ≡ false → HasDegreesTo (presented F.ops O.order p.now) c f.now }
{
    match Poly::degree(&p.order, f) {
        Some(degree) => degree > c,
        None => false,
    }
}

/// Whether a polynomial of the list has a degree above c.
fn has_higher<F: Field, O: Order>(p: &Presentation<F, O>, list: &[Poly<F>], c: u32) -> bool
    requires { AreCanonicalGenerators (F.ops p.now.field) (O.order p.now.order) list.now }
    ensures yes { result ≡ true → HasHigher (presented F.ops O.order p.now) c list.now }
    ensures no { result ≡ false → (f : Polynomial F.Elem) → Contains list.now f →
        HasDegreesTo (presented F.ops O.order p.now) c f }
{
    'list: for f in list {
        if is_above(p, f, c) {
            return true;
        }
    }
    false
}

/// Whether a lead of the quotient has a degree above c: the last one tells.
fn has_new_lead<F: Field, O: Order>(p: &Presentation<F, O>, basis: &Basis<F, O>, c: u32) -> bool
    requires presentation { IsValid F.ops O.order p.now }
    requires basis { IsBasisOf (presented F.ops O.order p.now) basis.now }
    ensures yes { result ≡ true → HasNewLead (presented F.ops O.order p.now) c }
    ensures no { result ≡ false → (m : Exponents) → Contains basis.now.quotient.leads m →
        (O.order p.now.order).degree m ≤ c }
{
    match basis.quotient().leads().last() {
        Some(last) => p.order.degree(last) > c,
        None => false,
    }
}

/// Whether a rule has a degree above c: the last one tells.
fn has_new_word<F: Field, O: Order>(p: &Presentation<F, O>, basis: &Basis<F, O>, c: u32) -> bool
    requires presentation { IsValid F.ops O.order p.now }
    requires basis { IsBasisOf (presented F.ops O.order p.now) basis.now }
    ensures yes { result ≡ true → HasNewWord (presented F.ops O.order p.now) c (values_of basis.now.elements) }
    ensures no { let P = presented F.ops O.order p.now in result ≡ false →
        (r : Rule) → Contains basis.now.words.rules r → word_degree P (values_of basis.now.elements) r.word ≤ c }
{
    subalgebra_laws::laws::decisions::<F>();
    match basis.words().rules().last() {
        Some(last) => basis.words().order().degree(&last.word) > c,
        None => false,
    }
}

/// Whether a generator, a lead of the quotient or a rule has a degree above c.
fn has_later<F: Field, O: Order>(p: &Presentation<F, O>, basis: &Basis<F, O>, c: u32) -> bool
    requires presentation { IsValid F.ops O.order p.now }
    requires basis { IsBasisOf (presented F.ops O.order p.now) basis.now }
    ensures yes { result ≡ true → HasLater (presented F.ops O.order p.now) c (values_of basis.now.elements) }
    ensures no { result ≡ false → HasNoneAbove (presented F.ops O.order p.now) c basis.now }
{
    if has_higher(p, p.generators.as_slice(), c) {
        return true;
    }
    if has_higher(p, p.ideal.as_slice(), c) {
        return true;
    }
    if has_new_lead(p, basis, c) {
        return true;
    }
    has_new_word(p, basis, c)
}

/// Whether nothing new comes after the degree c.
pub(crate) fn has_nothing_later<F: Field, O: Order>(
    alloc: Global,
    p: &Presentation<F, O>,
    basis: &mut Basis<F, O>,
    c: u32,
) -> Result<bool, Memory>
    requires presentation { IsValid F.ops O.order p.now }
    requires basis { IsBasisOf (presented F.ops O.order p.now) basis.old }
    requires degree { c ≤ basis.old.words.degree }
    requires small { basis.old.quotient.degree ≤ closing_max }
    ensures basis { IsBasisOf (presented F.ops O.order p.now) basis.new }
    ensures yes { let P = presented F.ops O.order p.now in
        IfOk result (λ r. r ≡ true → IsClosedAt P c (values_of basis.old.elements)) }
    ensures known { IfOk result (λ r. r ≡ true → IsKnownClosed basis.new) }
    ensures no { let P = presented F.ops O.order p.now in
        IfOk result (λ r. r ≡ false → HasLater P c (values_of basis.old.elements)) }
    ensures elements { basis.new.elements ≡ basis.old.elements }
    ensures quotient { basis.new.quotient.degree ≡ basis.old.quotient.degree }
    ensures words { basis.new.words.degree ≡ basis.old.words.degree }
{
    subalgebra_laws::laws::decisions::<F>();
    if has_later(p, basis, c) {
        return Ok(false);
    }
    let closed = basis.closed(alloc, p)?;
    Ok(closed)
}
