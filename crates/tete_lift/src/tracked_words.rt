//! Words with their values.
ghost use Rattle.std.specs.Prelude.{◌≡◌, ℕ, ◌≤◌, ◌∷◌, [], length, IfOk};
ghost use Rattle.poly_core.specs.Presentation.{presented, IsValid};
ghost use Rattle.polynomials.specs.Polynomial.{term_of};
ghost use Rattle.witness.specs.Tracking.{values_of};
ghost use Rattle.word_values.specs.Values.{word_degree, AreValues, AreWordsTo, IsWordValue};
ghost use Rattle.subduction.specs.Basis.{IsBasisOf};
ghost use Rattle.subduction.specs.Subduced.{witness_word};
ghost use Rattle.tete_lift.specs.Lifting.{CanLift, IsTrackedWord};

use monomial_order::{Memory, Monomial, Order};
use poly_core::{Poly, Presentation};
use std::alloc::Global;
use subduction::{Basis, moved_word};
use witness::Tracked;
use word_field::Field;
use word_values::Values;

/// The normal form of the value of a word.
fn value_of_word<F: Field, O: Order>(
    alloc: Global,
    p: &Presentation<F, O>,
    b: &Basis<F, O>,
    values: &mut Values<F>,
    u: &Monomial,
) -> Result<Poly<F>, Memory>
    requires presentation { IsValid F.ops O.order p.now }
    requires basis { IsBasisOf (presented F.ops O.order p.now) b.now }
    requires values { AreValues (presented F.ops O.order p.now) (values_of b.now.elements) values.old }
    requires can { CanLift (presented F.ops O.order p.now) b.now u.now }
    ensures values { AreValues (presented F.ops O.order p.now) (values_of b.now.elements) values.new }
    ensures words { let P = presented F.ops O.order p.now in let S = values_of b.now.elements in (d : ℕ) →
        word_degree P S u.now ≤ d → AreWordsTo P S d values.old → AreWordsTo P S d values.new }
    ensures value { let P = presented F.ops O.order p.now in
        IfOk result (IsWordValue P (values_of b.now.elements) u.now) }
{
    match values.prepare(alloc, p, b.quotient(), b.elements(), u)? {
        Some(value) => Ok(value),
        None => {
            let Some(value) = values.get(p, b.elements(), u) else {
                unreachable!()
            };
            value.copy(alloc)
        }
    }
}

/// The word as a witness.
fn witness_of_word<F: Field, O: Order>(
    alloc: Global,
    p: &Presentation<F, O>,
    u: &Monomial,
) -> Result<Poly<F>, Memory>
    ensures { let P = presented F.ops O.order p.now in
        IfOk result (λ r. r ≡ term_of (witness_word P.order.places (length P.generators) u.now) P.field.one ∷ []) }
{
    let word = moved_word(alloc, p.order.places(), p.generators.len(), u)?;
    Poly::term(alloc, &p.field, word, p.field.one())
}

/// The value of a word, with the word as its witness.
pub(crate) fn tracked_word<F: Field, O: Order>(
    alloc: Global,
    p: &Presentation<F, O>,
    b: &Basis<F, O>,
    values: &mut Values<F>,
    u: &Monomial,
) -> Result<Tracked<F>, Memory>
    requires presentation { IsValid F.ops O.order p.now }
    requires basis { IsBasisOf (presented F.ops O.order p.now) b.now }
    requires values { AreValues (presented F.ops O.order p.now) (values_of b.now.elements) values.old }
    requires can { CanLift (presented F.ops O.order p.now) b.now u.now }
    ensures values { AreValues (presented F.ops O.order p.now) (values_of b.now.elements) values.new }
    ensures words { let P = presented F.ops O.order p.now in let S = values_of b.now.elements in (d : ℕ) →
        word_degree P S u.now ≤ d → AreWordsTo P S d values.old → AreWordsTo P S d values.new }
    ensures tracked { IfOk result (IsTrackedWord (presented F.ops O.order p.now) b.now u.now) }
{
    let value = value_of_word(alloc, p, b, values, u)?;
    let by = witness_of_word(alloc, p, u)?;
    Ok(Tracked { value, by })
}
