//! A candidate is subducted, and what is left of it becomes an element.
ghost use Rattle.std.specs.Prelude.{◌≡◌, ℕ, List, [], ◌≤◌, length, get_or, OnOk, OnErr, IfOk, IfSome};
ghost use Rattle.word_laws.specs.Words.{IsWord};
ghost use Rattle.poly_core.specs.Presentation.{presented, IsValid};
ghost use Rattle.polynomials.specs.Polynomial.{Polynomial, minus, IsPoly};
ghost use Rattle.polynomials.specs.Subalgebra.{HasDegreesTo};
ghost use Rattle.subalgebra_laws.specs.Words.{letters, word_value, IsCombination, IsMinimalWord};
ghost use Rattle.witness.specs.declared.tracked.Tracked.{Tracked};
ghost use Rattle.witness.specs.Tracking.{values_of, IsShort};
ghost use Rattle.word_values.specs.Values.{word_degree, AreValues, AreWordsTo, Table};
ghost use Rattle.subduction.specs.Basis.{AreInParts, IsBasisOf, IsNewElement};
ghost use Rattle.completion.specs.Candidates.{IsGeneratorAt};
ghost use Rattle.completion.specs.Insertion.{IsInserted, IsRestOf};
ghost use Rattle.tete_lift.specs.Lifting.{IsRightSide};

use crate::Found;
use crate::right_sides::lower_right_side;
use monomial_order::{Memory, Monomial, Order};
use poly_core::{Poly, Presentation};
use std::alloc::Global;
use subduction::{Basis, Subduced, Values, subduce_with};
use tete_lift::{Lifted, lift_with};
use witness::{Tracked, generator};
use word_field::Field;

/// Adds a new element. To its degree, what differs from it by a combination is one now.
fn push_rest<F: Field, O: Order>(
    alloc: Global,
    p: &Presentation<F, O>,
    basis: &mut Basis<F, O>,
    rest: Tracked<F>,
) -> Result<(), Memory>
    requires presentation { IsValid F.ops O.order p.now }
    requires basis { IsBasisOf (presented F.ops O.order p.now) basis.old }
    requires new { IsNewElement (presented F.ops O.order p.now) basis.old rest }
    ensures inserted { let P = presented F.ops O.order p.now in (kept : Table F.Elem) →
        AreValues P (values_of basis.old.elements) kept → IsShort P.field (length P.generators) rest.by →
        IsInserted P basis.old kept basis.new kept }
    ensures combinations { let P = presented F.ops O.order p.now in OnOk result ((a : Polynomial F.Elem) →
        IsPoly P.field P.order.places a → HasDegreesTo P basis.old.words.degree a →
        IsCombination P (values_of basis.old.elements) (minus P.field a rest.value) →
        IsCombination P (values_of basis.new.elements) a) }
    ensures memory { OnErr result (basis.new ≡ basis.old) }
{
    subalgebra_laws::laws::growing::<F>();
    subalgebra_laws::laws::combining::<F>();
    word_values::laws::growing::<F>();
    basis.push(alloc, p, rest)?;
    Ok(())
}

/// What is left of the generator at an index, of the degree of the basis, when it is subducted.
fn rest_of_generator<F: Field, O: Order>(
    alloc: Global,
    p: &Presentation<F, O>,
    basis: &Basis<F, O>,
    values: &mut Values<F>,
    i: usize,
) -> Result<Tracked<F>, Memory>
    requires presentation { IsValid F.ops O.order p.now }
    requires basis { IsBasisOf (presented F.ops O.order p.now) basis.now }
    requires values { AreValues (presented F.ops O.order p.now) (values_of basis.now.elements) values.old }
    requires generator { IsGeneratorAt (presented F.ops O.order p.now) basis.now.words.degree i }
    ensures values { AreValues (presented F.ops O.order p.now) (values_of basis.now.elements) values.new }
    ensures words { let P = presented F.ops O.order p.now in let S = values_of basis.now.elements in (d : ℕ) →
        basis.now.words.degree ≤ d → AreWordsTo P S d values.old → AreWordsTo P S d values.new }
    ensures rest { let P = presented F.ops O.order p.now in
        IfOk result (IsRestOf P basis.now (get_or P.generators i [])) }
{
    let t = generator(alloc, p, i + 1)?;
    let Subduced {
        rest,
        word_sum: _sum,
    } = subduce_with(alloc, p, basis, values, &t)?;
    Ok(rest)
}

/// Makes the generator at an index, of the degree of the basis, a combination: what is left of it becomes an element.
pub(crate) fn insert_generator<F: Field, O: Order>(
    alloc: Global,
    p: &Presentation<F, O>,
    basis: &mut Basis<F, O>,
    values: &mut Values<F>,
    i: usize,
) -> Result<(), Memory>
    requires presentation { IsValid F.ops O.order p.now }
    requires basis { IsBasisOf (presented F.ops O.order p.now) basis.old }
    requires values { AreValues (presented F.ops O.order p.now) (values_of basis.old.elements) values.old }
    requires generator { IsGeneratorAt (presented F.ops O.order p.now) basis.old.words.degree i }
    ensures inserted { IsInserted (presented F.ops O.order p.now) basis.old values.old basis.new values.new }
    ensures combination { let P = presented F.ops O.order p.now in
        OnOk result (IsCombination P (values_of basis.new.elements) (get_or P.generators i [])) }
    ensures memory { OnErr result (basis.new ≡ basis.old) }
{
    let rest = rest_of_generator(alloc, p, basis, values, i)?;
    if rest.value.lead().is_none() {
        return Ok(());
    }
    push_rest(alloc, p, basis, rest)
}

/// Makes the value of an s-word of the degree of the basis a combination: what is left of it becomes an element. If it
/// was one already, the answer is its right side.
pub(crate) fn insert_word<F: Field, O: Order>(
    alloc: Global,
    p: &Presentation<F, O>,
    basis: &mut Basis<F, O>,
    values: &mut Values<F>,
    u: &Monomial,
) -> Result<Option<Poly<F>>, Memory>
    requires presentation { IsValid F.ops O.order p.now }
    requires basis { IsBasisOf (presented F.ops O.order p.now) basis.old }
    requires values { AreValues (presented F.ops O.order p.now) (values_of basis.old.elements) values.old }
    requires word { IsMinimalWord (presented F.ops O.order p.now) (values_of basis.old.elements) u.now }
    requires same_degree { word_degree (presented F.ops O.order p.now) (values_of basis.old.elements) u.now
        ≡ basis.old.words.degree }
    ensures inserted { IsInserted (presented F.ops O.order p.now) basis.old values.old basis.new values.new }
    ensures combination { let P = presented F.ops O.order p.now in OnOk result
        (IsCombination P (values_of basis.new.elements) (word_value P (values_of basis.old.elements) u.now)) }
    ensures right { let P = presented F.ops O.order p.now in IfOk result (λ r. IfSome r (λ e.
        (basis.new ≡ basis.old) × IsRightSide P (values_of basis.old.elements) u.now e)) }
    ensures memory { OnErr result (basis.new ≡ basis.old) }
{
    tete_lift::laws::fresh_is_new::<F>();
    match lift_with(alloc, p, basis, values, u)? {
        Lifted::Relation(right) => Ok(Some(right)),
        Lifted::Fresh(rest) => {
            push_rest(alloc, p, basis, rest)?;
            Ok(None)
        }
    }
}

/// Makes the value of a word that was found a combination. Its right side is kept if it has no letter of the last
/// degree.
pub(crate) fn insert_found<F: Field, O: Order>(
    alloc: Global,
    p: &Presentation<F, O>,
    basis: &mut Basis<F, O>,
    values: &mut Values<F>,
    found: &mut Found<F>,
) -> Result<(), Memory>
    requires presentation { IsValid F.ops O.order p.now }
    requires basis { IsBasisOf (presented F.ops O.order p.now) basis.old }
    requires values { AreValues (presented F.ops O.order p.now) (values_of basis.old.elements) values.old }
    requires word { IsMinimalWord (presented F.ops O.order p.now) (values_of basis.old.elements) found.old.word }
    requires same_degree { word_degree (presented F.ops O.order p.now) (values_of basis.old.elements) found.old.word
        ≡ basis.old.words.degree }
    ensures inserted { IsInserted (presented F.ops O.order p.now) basis.old values.old basis.new values.new }
    ensures combination { let P = presented F.ops O.order p.now in OnOk result (IsCombination P
        (values_of basis.new.elements) (word_value P (values_of basis.old.elements) found.old.word)) }
    ensures word { found.new.word ≡ found.old.word }
    ensures right { let P = presented F.ops O.order p.now in (lower last : List (Tracked F F.Elem)) →
        AreInParts P basis.old.words.degree basis.old.elements lower last →
        IsWord (letters P (values_of lower)) found.old.word →
        IfSome found.old.right (IsRightSide P (values_of lower) found.old.word) →
        IfSome found.new.right (IsRightSide P (values_of lower) found.new.word) }
    ensures memory { OnErr result (basis.new ≡ basis.old) }
{
    subalgebra_laws::laws::growing::<F>();
    let right = insert_word(alloc, p, basis, values, &found.word)?;
    found.right = lower_right_side(p, basis, right);
    Ok(())
}
