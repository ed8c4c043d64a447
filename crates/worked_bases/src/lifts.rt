//! Lifts of words over bases of generators, worked out by hand.
ghost use Rattle.std.specs.Prelude.{◌≡◌};
ghost use Rattle.witness.specs.Tracking.{values_of};
ghost use Rattle.word_values.specs.Values.{AreHomogeneousElements};
ghost use Rattle.tete_lift.specs.Lifting.{CanLift};
ghost use Rattle.worked_rows.specs.Rings.{IsIn, IsRing};
ghost use Rattle.worked_bases.specs.LowBases.{IsCase, IsLowBasis};
ghost use Rattle.worked_bases.specs.Rings.{of_ring};

use crate::subductions::{Case, case_of, words_text};
use crate::values::word_of;
use monomial_order::{Monomial, Order, WeightOrder};
use std::alloc::Global;
use std::test::Fail;
use subduction::Basis;
use tete_lift::{Lifted, lift};
use witness::Tracked;
use word_field::WordField;
use worked_rows::rings::{Ring, text_of};
use worked_rows::rows::{ensure, judge, part};

/// The generators x + y, x*y and x*y^2.
const THREE: &str =
    "subalgebra 1\nfield 101\nvars x y\nweights 1 1\norder lex\nideal 0\ngenerators 3\nx + y\nx*y\nx*y^2\nend\n";

/// And x*y^3, which is a polynomial in them.
const FOUR: &str =
    "subalgebra 1\nfield 101\nvars x y\nweights 1 1\norder lex\nideal 0\ngenerators 4\nx + y\nx*y\nx*y^2\nx*y^3\nend\n";

/// The text of the value that a word leaves.
fn fresh_text(alloc: Global, p: &Ring, t: &Tracked<WordField>) -> Result<String, Fail>
    requires valid { IsRing p.now }
    requires canonical { IsIn p.now t.now.value }
{
    let value = text_of(alloc, p, &t.value)?;
    Ok(format!(in alloc; "fresh {value}")?)
}

/// The text of what the lift of a word gives.
fn lift_text(
    alloc: Global,
    p: &Ring,
    b: &Basis<WordField, WeightOrder>,
    word: &Monomial,
) -> Result<String, Fail>
    requires valid { IsRing p.now }
    requires basis { IsLowBasis p.now b.now }
    requires can { CanLift (of_ring p.now) b.now word.now }
{
    match lift(alloc, p, b, word)? {
        Lifted::Relation(right) => words_text(alloc, p, &right),
        Lifted::Fresh(t) => fresh_text(alloc, p, &t),
    }
}

/// The same for the word of these letters.
fn lifted(
    alloc: Global,
    p: &Ring,
    b: &Basis<WordField, WeightOrder>,
    list: &str,
) -> Result<String, Fail>
    requires valid { IsRing p.now }
    requires basis { IsLowBasis p.now b.now }
{
    let word = word_of(alloc, p, b.elements(), list)?;
    ensure(
        b.words().order().degree(&word) <= b.words().degree(),
        "out of reach",
    )?;
    lift_text(alloc, p, b, &word)
}

/// Fails unless the word of a row has the lift of its last part in this case.
fn see_lift(alloc: Global, case: &Case, row: &str) -> Result<(), Fail>
    requires { IsCase case.now.ring case.now.basis }
{
    let text = lifted(alloc, &case.ring, &case.basis, part(row, 2))?;
    judge(row, text.as_str())
}

/// Fails unless the word of a row has the lift of its last part, over the generators to the degree of its first part,
/// in a basis to the degree of its second.
fn check(alloc: Global, presentation: &str, row: &str) -> Result<(), Fail> {
    let case = case_of(alloc, presentation, row)?;
    see_lift(alloc, &case, row)
}

#[test]
fn lifts(rt: HostRuntime) -> Result<(), Fail> {
    // the degree of the generators, that of the basis, the letters of the word | its right side, or what is left of it
    check(rt.alloc(), THREE, "3 | 4 | 0 2 | fresh x*y^3")?;
    check(rt.alloc(), THREE, "3 | 4 | 1 1 | s2^2")?;
    check(rt.alloc(), FOUR, "4 | 4 | 0 2 | s2^2 + s4")
}
