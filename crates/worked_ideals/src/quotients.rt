//! Ideals whose leads and normal forms were worked out by hand.
ghost use Rattle.worked_ideals.specs.Cases.{IsCase};

use crate::cases::{Case, case_of, close, extend, is_standard, normal_text};
use crate::leads::are_monomials;
use std::alloc::Global;
use std::test::Fail;
use worked_rows::rows::{ensure, judge, number, part};
use worked_words::zeros::DEGREE_MAX;

/// Compares the leads of the ideal of a row's case.
fn see_leads_in(alloc: Global, case: &Case, row: &str) -> Result<(), Fail> {
    ensure(!case.quotient.known_closed(), row)?;
    ensure(
        are_monomials(alloc, case.quotient.leads(), part(row, 6))?,
        row,
    )
}

/// Compares the leads of a row's ideal to a degree.
fn see_leads(alloc: Global, row: &str) -> Result<(), Fail> {
    let case = case_of(alloc, row)?;
    see_leads_in(alloc, &case, row)
}

#[test]
fn leads_of_small_ideals(rt: HostRuntime) -> Result<(), Fail> {
    for row in [
        "101 | x y | 1 1 | lex | x^2 - y^2 | 3 | x^2",
        "101 | x y | 1 1 | lex | y^2 | 2 | y^2",
        // x^2*y is a multiple of another generator
        "101 | x y | 1 1 | lex | x^2, x*y, x^2*y, y^3 | 4 | x*y, x^2, y^3",
        // x*z^2 - y^2*z and y^3*z - z^4 come in
        "101 | x y z | 1 1 1 | lex | x^2 - y*z, x*y - z^2 | 6 | x*y, x^2, x*z^2, y^3*z",
        // a conic
        "101 | x y z | 1 1 1 | lex | x*z - y^2 | 4 | x*z",
        "101 | x y z | 1 1 1 | revlex | x*z - y^2 | 4 | y^2",
        // the twisted cubic
        "101 | x y z w | 1 1 1 1 | revlex | x*z - y^2, y*w - z^2, x*w - y*z | 5 | z^2, y*z, y^2",
        // two generators of one degree with one lead, and over two elements, where they are equal
        "101 | x y | 1 1 | lex | x^2 + y^2, x^2 - y^2 | 3 | y^2, x^2",
        "2 | x y | 1 1 | lex | x^2 + y^2, x^2 + y^2 | 3 | x^2",
        // a generator that is zero
        "101 | x y | 1 1 | lex | 0, x*y | 2 | x*y",
        // a row turns x^2 and y^2 round
        "101 | x y | 1 1 | 0 1 ; lex | x^2 - y^2 | 3 | y^2",
        // x has the degree 2 and y the degree 3
        "7 | x y | 2 3 | lex | x^3 + y^2 | 6 | x^3",
    ] {
        see_leads(rt.alloc(), row)?;
    }
    Ok(())
}

/// The normal form of a polynomial, and which of two monomials are standard, in the case of a row.
fn answer_in(alloc: Global, case: &mut Case, row: &str) -> Result<String, Fail>
    requires { IsCase case.old.ring case.old.degree case.old.quotient }
{
    let text = normal_text(alloc, case, part(row, 6))?;
    let is_first_standard = is_standard(alloc, case, part(row, 7))?;
    let is_other_standard = is_standard(alloc, case, part(row, 8))?;
    Ok(format!(in alloc; "{text}, {is_first_standard}, {is_other_standard}")?)
}

/// The answer to a row.
fn answer(alloc: Global, row: &str) -> Result<String, Fail> {
    let mut case = case_of(alloc, row)?;
    answer_in(alloc, &mut case, row)
}

#[test]
fn normal_forms(rt: HostRuntime) -> Result<(), Fail> {
    // a ring, a degree, a polynomial, two monomials, the normal form and which of the two are standard
    for row in [
        "101 | x y | 1 1 | lex | x^2 - y^2 | 3 | x^3 | x*y^2 | x^2*y | x*y^2, true, false",
        "101 | x y | 1 1 | lex | x^2 - y^2 | 3 | x^2 - y^2 | 1 | x^2 | 0, true, false",
        // of degrees above that of the quotient
        "101 | x y | 1 1 | lex | x^2 - y^2 | 2 | x^5 + x^3 | x*y^9 | x^2*y^8 | x*y^4 + x*y^2, true, false",
        "101 | x y | 1 1 | lex | x^2, y^3 | 3 | x^2*y^2 + x*y^3 | x*y^2 | x*y^9 | 0, true, false",
        // x^3 becomes x*y*z and then z^3, which cancels; y^3*z becomes z^4
        "101 | x y z | 1 1 1 | lex | x^2 - y*z, x*y - z^2 | 4 | y^3*z + x^3 - z^3 | y^2*z | x*z^2 | z^4, true, false",
    ] {
        judge(row, answer(rt.alloc(), row)?.as_str())?;
    }
    Ok(())
}

/// Compares whether the quotient of a row's case is closed, and its leads to a greater degree.
fn see_closed_in(alloc: Global, case: &mut Case, row: &str) -> Result<(), Fail>
    requires { IsCase case.old.ring case.old.degree case.old.quotient }
{
    let closed = close(alloc, case)?;
    ensure(closed == (part(row, 6) == "closed"), row)?;
    let greater = number(part(row, 7))?;
    ensure(greater <= DEGREE_MAX, row)?;
    extend(alloc, case, greater)?;
    ensure(case.quotient.known_closed() == closed, row)?;
    ensure(
        are_monomials(alloc, case.quotient.leads(), part(row, 8))?,
        row,
    )
}

/// Compares whether the quotient to the degree of a row is closed, and its leads to a greater degree.
fn see_closed(alloc: Global, row: &str) -> Result<(), Fail> {
    let mut case = case_of(alloc, row)?;
    see_closed_in(alloc, &mut case, row)
}

#[test]
fn closed_quotients(rt: HostRuntime) -> Result<(), Fail> {
    // a ring, a degree, whether the quotient is closed, and the leads to a greater degree
    for row in [
        "101 | x y | 1 1 | lex | x^2 - y^2 | 2 | closed | 30000 | x^2",
        "101 | x y | 1 1 | lex | x^2 - y^2 | 3 | closed | 30000 | x^2",
        // a generator of twice the degree; a lead has x for the first variable and y for the second
        "101 | y x | 1 1 | lex | x^2 | 1 | open | 2 | y^2",
        // the generator x^3 is above the degree, though x^2 divides each lead
        "101 | x y | 1 1 | lex | x^2, x^3 | 2 | open | 3 | x^2",
        // monomials
        "101 | x y | 1 1 | lex | x^2, x*y, y^3 | 2 | open | 3 | x*y, x^2, y^3",
        "101 | x y | 1 1 | lex | x^2, x*y, y^3 | 3 | closed | 30000 | x*y, x^2, y^3",
        // x*z^2 - y^2*z comes in at degree 3, and y^3*z - z^4 at degree 4, which is twice the degree 2
        "101 | x y z | 1 1 1 | lex | x^2 - y*z, x*y - z^2 | 2 | open | 4 | x*y, x^2, x*z^2, y^3*z",
        "101 | x y z | 1 1 1 | lex | x^2 - y*z, x*y - z^2 | 3 | open | 4 | x*y, x^2, x*z^2, y^3*z",
        "101 | x y z | 1 1 1 | lex | x^2 - y*z, x*y - z^2 | 4 | closed | 30000 | x*y, x^2, x*z^2, y^3*z",
        // x^2*z^3 - y^2*z^3 comes in at degree 5, one below twice the degree 3, and x*z^6 - y^4*z^3 at degree 7
        "101 | x y z | 1 1 1 | lex | x^3 - z^3, x*y^2 - z^3 | 3 | open | 5 | x*y^2, x^3, x^2*z^3",
        "101 | x y z | 1 1 1 | lex | x^3 - z^3, x*y^2 - z^3 | 5 | open | 7 | x*y^2, x^3, x^2*z^3, x*z^6",
        // the twisted cubic
        "101 | x y z w | 1 1 1 1 | revlex | x*z - y^2, y*w - z^2, x*w - y*z | 2 | closed | 30000 | z^2, y*z, y^2",
        // no ideal
        "101 | x y | 1 1 | lex | 0 | 0 | closed | 30000 | -",
        // x has the degree 2 and y the degree 3: y^3 comes in at degree 9
        "7 | x y | 2 3 | lex | x^3 + y^2 | 5 | open | 6 | x^3",
        "7 | x y | 2 3 | lex | x^3 + y^2 | 6 | closed | 30000 | x^3",
        "7 | x y | 2 3 | lex | x^3 + y^2, x*y | 6 | open | 9 | x*y, x^3, y^3",
        "7 | x y | 2 3 | lex | x^3 + y^2, x*y | 9 | closed | 30000 | x*y, x^3, y^3",
    ] {
        see_closed(rt.alloc(), row)?;
    }
    Ok(())
}
