//! Orders of monomials and of words.
ghost use Rattle.std.specs.Prelude.{◌≡◌, ℕ, ◌≤◌, [], ◌∷◌, IfOk};
ghost use Rattle.monomial_order.specs.Monomial.{exponent};
ghost use Rattle.worked_rows.specs.Rings.{IsIn, IsRing};

use crate::products::small;
use monomial_order::{Memory, Monomial, Order, OrderFault, Row, Tie, WeightOrder, WordOrder};
use poly_core::Poly;
use std::alloc::Global;
use std::cmp::Ordering;
use std::test::Fail;
use word_field::WordField;
use worked_rows::rings::{Ring, polynomial, ring};
use worked_rows::rows::{ensure, judge, number, numbers, part};

/// So many rows with the same entries.
fn rows(alloc: Global, entries: &[u32], count: u32) -> Result<Vec<Row>, Memory> {
    let mut rows = Vec::new(alloc);
    for _ in 0..count {
        rows.push(Row::new(alloc, entries)?)?;
    }
    Ok(rows)
}

/// The order of weights and so many times the row, or its fault.
fn order(alloc: Global, row: &str) -> Result<Result<WeightOrder, OrderFault>, Fail> {
    let weights = numbers(alloc, part(row, 0))?;
    let entries = numbers(alloc, part(row, 1))?;
    let rows = rows(alloc, entries.as_slice(), number(part(row, 2))?)?;
    Ok(WeightOrder::new(alloc, weights.as_slice(), rows.as_slice(), Tie::Lex))
}

/// The text of the fault, or that of the weights and rows of a copy.
fn outcome(alloc: Global, row: &str) -> Result<String, Fail> {
    match order(alloc, row)? {
        Ok(order) => {
            let copy = order.copy(alloc)?;
            let weights = copy.weights();
            let rows = copy.rows().len();
            let tie = copy.tie();
            Ok(format!(in alloc; "{weights:?} {rows} {tie:?}")?)
        }
        Err(fault) => Ok(format!(in alloc; "{fault}")?),
    }
}

const ONES: &str = "1 1 1 1 1 1 1 1 1 1 1 1 1 1 1 1 1 1 1 1 1 1 1 1 1 1 1 1 1 1 1 1 1";

#[test]
fn weights_and_rows_are_judged_in_order(rt: HostRuntime) -> Result<(), Fail> {
    let alloc = rt.alloc();
    let many = format!(in alloc; "{ONES} |  | 0 | an order has from 1 to 32 weights")?;
    for row in [
        " |  | 0 | an order has from 1 to 32 weights",
        many.as_str(),
        "1 | 1 | 5 | an order has at most 4 rows",
        "1 0 |  | 0 | weight 2 is zero",
        "65 0 |  | 0 | weight 2 is zero",
        "65 |  | 0 | entry 1 of row 0 is too heavy",
        "1 1 | 0 1001 | 1 | entry 2 of row 1 is too heavy",
        "1 1 | 1 | 1 | row 1 has not as many entries as there are weights",
        "1 1 | 0 1 | 1 | [1, 1] 1 Lex",
        "1 |  | 0 | [1] 0 Lex",
    ] {
        judge(row, outcome(alloc, row)?.as_str())?;
    }
    Ok(())
}

/// The ring with these names, weights and order.
fn ring_of(alloc: Global, row: &str) -> Result<Ring, Fail>
    ensures { IfOk result IsRing }
{
    let names = part(row, 0);
    let weights = part(row, 1);
    let order = part(row, 2);
    let text = format!(in alloc;
        "subalgebra 1\nfield 2\nvars {names}\nweights {weights}\norder {order}\nideal 0\ngenerators 0\nend\n"
    )?;
    ring(alloc, text.as_str())
}

/// How the order compares the leads of two polynomials.
fn compared(p: &Ring, a: &Poly<WordField>, b: &Poly<WordField>) -> Option<Ordering>
    requires a { IsIn p.now a.now }
    requires b { IsIn p.now b.now }
{
    let a = a.lead()?;
    let b = b.lead()?;
    Some(p.order.compare(&a.at, &b.at))
}

/// How the order of a ring compares the two monomials of a row.
fn outcome_in(alloc: Global, p: &Ring, row: &str) -> Result<Ordering, Fail>
    requires { IsRing p.now }
{
    let a = polynomial(alloc, p, part(row, 3))?;
    let b = polynomial(alloc, p, part(row, 4))?;
    Ok(compared(p, &a, &b).ok_or("no monomial")?)
}

/// How the order of the row compares its two monomials.
fn comparison(alloc: Global, row: &str) -> Result<String, Fail> {
    let p = ring_of(alloc, row)?;
    let found = outcome_in(alloc, &p, row)?;
    Ok(format!(in alloc; "{found:?}")?)
}

#[test]
fn orders_by_weights_compare(rt: HostRuntime) -> Result<(), Fail> {
    for row in [
        "x y z | 1 1 1 | lex | x*z | y^2 | Greater",
        "x y z | 1 1 1 | revlex | x*z | y^2 | Less",
        // the last place agrees, and the first decides
        "x y z | 1 1 1 | revlex | y*z | x*z | Less",
        "x y z | 1 1 1 | lex | x | z^2 | Less",
        // a^3 and b^2 have degree 6
        "a b | 2 3 | lex | a^3 | b^2 | Greater",
        "a b | 2 3 | 0 1 ; lex | a^3 | b^2 | Less",
    ] {
        judge(row, comparison(rt.alloc(), row)?.as_str())?;
    }
    Ok(())
}

/// The order of words in x_1 and x_2 of degree 1 and s_1 of degree 2.
fn three_letters(alloc: Global) -> Result<WordOrder, Memory>
    ensures x { IfOk result (λ o. o.x_degrees.items ≡ 1 ∷ 1 ∷ []) }
    ensures s { IfOk result (λ o. o.s_degrees.items ≡ 2 ∷ []) }
{
    let mut order = WordOrder::new(alloc, &[1, 1])?;
    order.push_place(2)?;
    order.copy(alloc)
}

/// How the order compares the words.
fn compared_words(order: &WordOrder, a: &Monomial, b: &Monomial) -> Result<Ordering, Fail>
    requires x { order.now.x_degrees.items ≡ 1 ∷ 1 ∷ [] }
    requires s { order.now.s_degrees.items ≡ 2 ∷ [] }
    requires left { (i : ℕ) → exponent a.now i ≤ 7 }
    requires right { (i : ℕ) → exponent b.now i ≤ 7 }
{
    ensure(a.places() <= order.places(), "another letter")?;
    ensure(b.places() <= order.places(), "another letter")?;
    Ok(order.compare(a, b))
}

#[test]
fn words_compare(rt: HostRuntime) -> Result<(), Fail> {
    let order = three_letters(rt.alloc())?;
    let s = small(rt.alloc(), "z")?;
    let x = small(rt.alloc(), "x*y")?;
    ensure(
        compared_words(&order, &s, &x)? == Ordering::Less,
        "s1 and x1*x2",
    )
}
