//! The end of a degree.
ghost use Rattle.std.specs.Prelude.{◌≡◌, ℕ, ◌≤◌, ◌⊎◌, ◌++◌, ◌+◌, [], false, length, unwrap_or, vec_capacity, All, IfOk, OnOk, OnErr, List};
ghost use Rattle.poly_core.specs.Presentation.{presented, IsValid};
ghost use Rattle.witness.specs.declared.tracked.Tracked.{Tracked};
ghost use Rattle.witness.specs.Tracking.{values_of};
ghost use Rattle.word_values.specs.Values.{AreValues, AreWordsTo};
ghost use Rattle.subduction.specs.Basis.{AreInParts, IsBasisOf};
ghost use Rattle.completion.specs.Closing.{relations_of, AreSides, CanRelate, ClosingLaws, IsSettledBasis};
ghost use Rattle.tete_lift.specs.Lifting.{IsRightSide};

use crate::completion::BOUND_MAX;
use crate::{Found, Relation};
use monomial_order::{Memory, Order};
use poly_core::{Poly, Presentation};
use std::alloc::Global;
use subduction::{Basis, Values};
use tete_lift::{Lifted, lift_with};
use word_field::Field;

/// Whether there is an element of the degree of the basis.
fn has_last<F: Field, O: Order>(p: &Presentation<F, O>, basis: &Basis<F, O>) -> bool
    requires presentation { IsValid F.ops O.order p.now }
    requires basis { IsBasisOf (presented F.ops O.order p.now) basis.now }
    ensures { result ≡ false → (lower last : List (Tracked F F.Elem)) →
        AreInParts (presented F.ops O.order p.now) basis.now.words.degree basis.now.elements lower last → last ≡ [] }
{
    let leads = basis.words().leads();
    if leads.is_empty() {
        return false;
    }
    p.order.degree(&leads[leads.len() - 1]) == basis.words().degree()
}

/// No values, if words above the degree d may be among those that are kept. It takes no memory.
fn forget_above<F: Field>(alloc: Global, values: &mut Values<F>, kept: u32, d: u32)
    ensures { ((values.new ≡ values.old) × (kept ≤ d)) ⊎ (values.new ≡ []) }
{
    if d < kept {
        *values = Values::new(alloc, BOUND_MAX);
    }
}

/// Settles the elements of the degree of the basis. The words that are kept then have at most this degree, if there are
/// such elements.
pub(crate) fn settle_last<F: Field, O: Order>(
    alloc: Global,
    p: &Presentation<F, O>,
    basis: &mut Basis<F, O>,
    values: &mut Values<F>,
    kept: &mut u32,
) -> Result<(), Memory>
    requires presentation { IsValid F.ops O.order p.now }
    requires basis { IsBasisOf (presented F.ops O.order p.now) basis.old }
    requires values { AreValues (presented F.ops O.order p.now) (values_of basis.old.elements) values.old }
    requires kept { AreWordsTo (presented F.ops O.order p.now) (values_of basis.old.elements) kept.old values.old }
    ensures values { AreValues (presented F.ops O.order p.now) (values_of basis.new.elements) values.new }
    ensures kept { AreWordsTo (presented F.ops O.order p.now) (values_of basis.new.elements) kept.new values.new }
    ensures settled { OnOk result (IsSettledBasis (presented F.ops O.order p.now) basis.old basis.new) }
    ensures bound { OnOk result (basis.old.words.degree ≤ kept.new) }
    ensures memory { OnErr result (basis.new ≡ basis.old) }
{
    word_values::laws::exchanging::<F>();
    let d = basis.words().degree();
    if !has_last(p, basis) {
        *kept = d.max(*kept);
        return Ok(());
    }
    forget_above(alloc, values, *kept, d);
    *kept = d;
    basis.settle(alloc, p)?;
    Ok(())
}

/// The laws that the end of a degree stands on.
pub(crate) fn closing_laws<F: Field>()
    ensures { ClosingLaws F.Elem }
{
    subalgebra_laws::laws::combining::<F>();
    subalgebra_laws::laws::growing::<F>();
}

/// The right side of a word that has none, and zero for another word.
fn made_side<F: Field, O: Order>(
    alloc: Global,
    p: &Presentation<F, O>,
    basis: &Basis<F, O>,
    values: &mut Values<F>,
    f: &Found<F>,
) -> Result<Poly<F>, Memory>
    requires presentation { IsValid F.ops O.order p.now }
    requires basis { IsBasisOf (presented F.ops O.order p.now) basis.now }
    requires values { AreValues (presented F.ops O.order p.now) (values_of basis.now.elements) values.old }
    requires word { CanRelate (presented F.ops O.order p.now) (values_of basis.now.elements)
        basis.now.words.degree f.now }
    ensures values { AreValues (presented F.ops O.order p.now) (values_of basis.now.elements) values.new }
    ensures words { let P = presented F.ops O.order p.now in let S = values_of basis.now.elements in (d : ℕ) →
        basis.now.words.degree ≤ d → AreWordsTo P S d values.old → AreWordsTo P S d values.new }
    ensures side { let P = presented F.ops O.order p.now in IfOk result (λ e.
        IsRightSide P (values_of basis.now.elements) f.now.word (unwrap_or f.now.right e)) }
{
    if f.right.is_some() {
        return Ok(Poly::zero(alloc));
    }
    match lift_with(alloc, p, basis, values, &f.word)? {
        Lifted::Relation(side) => Ok(side),
        Lifted::Fresh(_) => unreachable!(),
    }
}

/// The right sides of the words that have none.
pub(crate) fn made_sides<F: Field, O: Order>(
    alloc: Global,
    p: &Presentation<F, O>,
    basis: &Basis<F, O>,
    values: &mut Values<F>,
    found: &[Found<F>],
) -> Result<Vec<Poly<F>>, Memory>
    requires presentation { IsValid F.ops O.order p.now }
    requires basis { IsBasisOf (presented F.ops O.order p.now) basis.now }
    requires values { AreValues (presented F.ops O.order p.now) (values_of basis.now.elements) values.old }
    requires words { All (CanRelate (presented F.ops O.order p.now) (values_of basis.now.elements)
        basis.now.words.degree) found.now }
    ensures values { AreValues (presented F.ops O.order p.now) (values_of basis.now.elements) values.new }
    ensures words { let P = presented F.ops O.order p.now in let S = values_of basis.now.elements in (d : ℕ) →
        basis.now.words.degree ≤ d → AreWordsTo P S d values.old → AreWordsTo P S d values.new }
    ensures sides { let P = presented F.ops O.order p.now in
        IfOk result (λ v. AreSides P (values_of basis.now.elements) found.now v.items) }
{
    let mut sides = Vec::new(alloc);
    'words: for f in found {
        sides.push(made_side(alloc, p, basis, values, f)?)?;
    }
    Ok(sides)
}

/// The relation of a word with its right side, or with the given one if it has none.
fn relation<F: Field>(f: Found<F>, side: Poly<F>) -> Relation<F>
    ensures word { result.word ≡ f.word }
    ensures right { result.right ≡ unwrap_or f.right side }
{
    let Found { word, right } = f;
    Relation {
        word,
        right: right.unwrap_or(side),
    }
}

/// Puts the relations of words behind others. It takes no memory.
pub(crate) fn push_relations<F: Field>(
    relations: &mut Vec<Relation<F>>,
    found: Vec<Found<F>>,
    sides: Vec<Poly<F>>,
)
    requires { length relations.old.items + length found.items ≤ vec_capacity relations.old }
    ensures { relations.new.items ≡ relations.old.items ++ relations_of found.items sides.items }
{
    let mut words = found;
    words.reverse();
    let mut rights = sides;
    rights.reverse();
    'words: while let Some(f) = words.pop() {
        match rights.pop() {
            Some(side) => relations.push_reserved(relation(f, side)),
            None => return,
        }
    }
}
