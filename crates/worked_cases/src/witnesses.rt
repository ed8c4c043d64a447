//! Values with their witnesses, over the generators x^2 + y^2 and x*y.
ghost use Rattle.std.specs.Prelude.{◌≤◌, IfOk};
ghost use Rattle.monomial_order.specs.declared.word_order.WordOrder.{WordOrder};
ghost use Rattle.worked_rows.specs.Rings.{IsRing};
ghost use Rattle.worked_cases.specs.Witnesses.{HasRoom, IsLowPair, IsLowPairIn, IsPairIn};

use monomial_order::WordOrder;
use poly_core::{Names, Poly};
use std::alloc::Global;
use std::test::Fail;
use witness::{Tracked, element, generator, product, reduce, scale, sum};
use word_field::{Field, WordField};
use worked_rows::rings::{Ring, polynomial, ring, text_of};
use worked_rows::rows::{ensure, judge, number, part};

/// The generators x^2 + y^2 and x*y over the field of 101 elements.
const SQUARES_AND_PRODUCT: &str =
    "subalgebra 1\nfield 101\nvars x y\nweights 1 1\norder lex\nideal 0\ngenerators 2\nx^2 + y^2\nx*y\nend\n";

/// The generator of a number.
fn generator_of(alloc: Global, p: &Ring, i: usize) -> Result<Tracked<WordField>, Fail>
    requires valid { IsRing p.now }
    requires first { 1 ≤ i }
    ensures { IfOk result (IsLowPair p.now) }
{
    ensure(i <= p.generators.len(), "no such generator")?;
    Ok(generator(alloc, p, i)?)
}

/// The element s1, which has the value x*y.
fn product_element(alloc: Global, p: &Ring) -> Result<Tracked<WordField>, Fail>
    requires { IsRing p.now }
    ensures { IfOk result (IsLowPair p.now) }
{
    let value = polynomial(alloc, p, "x*y")?;
    Ok(element(alloc, p, &value, 1)?)
}

/// The generator or the element of a name.
fn named(alloc: Global, p: &Ring, name: &str) -> Result<Tracked<WordField>, Fail>
    requires { IsRing p.now }
    ensures { IfOk result (IsLowPair p.now) }
{
    match name {
        "g1" => generator_of(alloc, p, 1),
        "g2" => generator_of(alloc, p, 2),
        "s1" => product_element(alloc, p),
        _ => Err(Fail::new("no such name")),
    }
}

/// What the operation makes of two values.
fn of_two(
    alloc: Global,
    p: &Ring,
    w: &WordOrder,
    a: &Tracked<WordField>,
    operation: &str,
    b: &Tracked<WordField>,
) -> Result<Tracked<WordField>, Fail>
    requires valid { IsRing p.now }
    requires a { IsLowPairIn p.now w.now a.now }
    requires b { IsLowPairIn p.now w.now b.now }
    ensures { IfOk result (IsPairIn p.now w.now) }
{
    match operation {
        "plus" => Ok(sum(alloc, p, w, a, b)?),
        "times" => Ok(product(alloc, p, w, a, b)?),
        _ => Err(Fail::new("no operation")),
    }
}

/// What the operation of a row makes.
fn made_of(alloc: Global, p: &Ring, w: &WordOrder, row: &str) -> Result<Tracked<WordField>, Fail>
    requires valid { IsRing p.now }
    requires room { HasRoom p.now w.now }
    ensures { IfOk result (IsPairIn p.now w.now) }
{
    let a = named(alloc, p, part(row, 0))?;
    match part(row, 1) {
        // without an ideal a polynomial is its own normal form
        "reduced" => {
            let normal_form = a.value.copy(alloc)?;
            Ok(reduce(p, a, normal_form))
        }
        "scaled by" => {
            let factor = p.field.from_word(number(part(row, 2))? as u64);
            Ok(scale(alloc, p, &a, factor)?)
        }
        operation => {
            let b = named(alloc, p, part(row, 2))?;
            of_two(alloc, p, w, &a, operation, &b)
        }
    }
}

/// The canonical texts of a value and of its witness.
fn texts_of(alloc: Global, p: &Ring, t: &Tracked<WordField>) -> Result<String, Fail>
    requires valid { IsRing p.now }
    requires canonical { (w : WordOrder) × IsPairIn p.now w t.now }
{
    let names = Names::Paired {
        first: b'g',
        count: 2,
        second: b's',
    };
    let value = text_of(alloc, p, &t.value)?;
    let by = String::from_utf8(Poly::write(alloc, &p.field, &t.by, &names)?)?;
    Ok(format!(in alloc; "{value} = {by}")?)
}

/// The canonical texts of what a row asks for.
fn answer(alloc: Global, p: &Ring, w: &WordOrder, row: &str) -> Result<String, Fail>
    requires valid { IsRing p.now }
    requires room { HasRoom p.now w.now }
{
    let found = made_of(alloc, p, w, row)?;
    texts_of(alloc, p, &found)
}

/// Compares the texts of a row.
fn see(alloc: Global, p: &Ring, w: &WordOrder, row: &str) -> Result<(), Fail>
    requires valid { IsRing p.now }
    requires room { HasRoom p.now w.now }
{
    let found = answer(alloc, p, w, row)?;
    judge(row, found.as_str())
}

/// Compares the texts of all rows.
fn see_all(alloc: Global, p: &Ring, w: &WordOrder) -> Result<(), Fail>
    requires valid { IsRing p.now }
    requires room { HasRoom p.now w.now }
{
    for row in [
        "g1 | reduced | x^2 + y^2 = g1",
        "g1 | scaled by | 1 | x^2 + y^2 = g1",
        "g2 | scaled by | 3 | 3*x*y = 3*g2",
        "s1 | scaled by | 100 | 100*x*y = 100*s1",
        "g1 | scaled by | 101 | 0 = 0",
        "g1 | plus | g2 | x^2 + x*y + y^2 = g1 + g2",
        "g2 | plus | g1 | x^2 + x*y + y^2 = g1 + g2",
        "g1 | plus | g1 | 2*x^2 + 2*y^2 = 2*g1",
        "s1 | plus | g2 | 2*x*y = g2 + s1",
        "g1 | times | g2 | x^3*y + x*y^3 = g1*g2",
        "s1 | times | g1 | x^3*y + x*y^3 = g1*s1",
        "g1 | times | g1 | x^4 + 2*x^2*y^2 + y^4 = g1^2",
        "s1 | times | s1 | x^2*y^2 = s1^2",
    ] {
        see(alloc, p, w, row)?;
    }
    Ok(())
}

/// The order of words in the generators and s1.
fn letters(alloc: Global, p: &Ring) -> Result<WordOrder, Fail>
    requires { IsRing p.now }
    ensures { IfOk result (HasRoom p.now) }
{
    let mut w = p.gen_order.copy(alloc)?;
    w.push_place(2)?;
    Ok(w)
}

/// The same with the letters of a ring.
fn see_values(alloc: Global, p: &Ring) -> Result<(), Fail>
    requires { IsRing p.now }
{
    let w = letters(alloc, p)?;
    see_all(alloc, p, &w)
}

#[test]
fn each_value_has_its_witness(rt: HostRuntime) -> Result<(), Fail> {
    let p = ring(rt.alloc(), SQUARES_AND_PRODUCT)?;
    see_values(rt.alloc(), &p)
}
