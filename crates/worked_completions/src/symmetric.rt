//! Symmetric polynomials.
use crate::scripts::check_both;
use std::test::Fail;

/// x + y and x*y.
const SUM_AND_PRODUCT: &str =
    "subalgebra 1\nfield 101\nvars x y\nweights 1 1\norder lex\nideal 0\ngenerators 2\nx + y\nx*y\nend\n";

const SUM_AND_PRODUCT_CALLS: [&str; 21] = [
    "run | 1 | 1",
    "report | bound 1 / basis 1 / 1 1 x : x + y / mark open",
    "complete | false",
    "answer | x*y | beyond 2",
    "run | 2 | 2",
    "report | bound 2 / basis 2 / 1 1 x : x + y / 2 2 x*y : x*y / mark complete",
    "report | bound 2 / basis 2 / 1 1 x : x + y / 2 2 x*y : x*y / mark complete",
    "complete | true",
    "state |  | sagbi-state 2 / subalgebra 1 / field 101 / vars x y / weights 1 1 / order lex / ideal 0 / \
     generators 2 / x + y / x*y / end / degree 2 / elements 2 / x + y : g1 / x*y : g2 / relations 0 / end",
    "answer | x*y^4 | no x*y^4",
    "answer | x^3*y^2 + x^2*y^3 | member g1*g2^2",
    "subduce | x^2 + y^2 | s1^2 + 99*s2; 0",
    "subduce | x^2 + y | s1^2 + 99*s2; 100*y^2 + y",
    "run | 3 | 3",
    "answer | x^3 + y^3 | member g1^3 + 98*g1*g2",
    "answer | x | no 100*y",
    "answer | 7 | member 7",
    "answer | 0 | member 0",
    "answer | x + y + x^2 | no 100*y^2",
    "run | 9 | 9",
    "relations | 0",
];

/// To the greatest bound at once. A lesser bound then changes nothing.
const GREATEST_BOUND_CALLS: [&str; 3] = [
    "run | 15000 | 15000",
    "run | 1 | 15000",
    "report | bound 15000 / basis 2 / 1 1 x : x + y / 2 2 x*y : x*y / mark complete",
];

/// x + y and x^2 + y^2. Their leads do not generate the lead x*y of a member.
const POWER_SUMS: &str =
    "subalgebra 1\nfield 101\nvars x y\nweights 1 1\norder lex\nideal 0\ngenerators 2\nx + y\nx^2 + y^2\nend\n";

/// 2*x*y = g1^2 - g2, and 51 is the half of 1.
const POWER_SUMS_CALLS: [&str; 6] = [
    "run | 1 | 1",
    "report | bound 1 / basis 1 / 1 1 x : x + y / mark open",
    "run | 2 | 2",
    "report | bound 2 / basis 2 / 1 1 x : x + y / 2 2 x*y : x*y / mark complete",
    "state |  | sagbi-state 2 / subalgebra 1 / field 101 / vars x y / weights 1 1 / order lex / ideal 0 / \
     generators 2 / x + y / x^2 + y^2 / end / degree 2 / elements 2 / x + y : g1 / x*y : 50*g2 + 51*s1^2 / \
     relations 0 / end",
    "answer | x*y | member 51*g1^2 + 50*g2",
];

/// The same over two elements, where the second is the square of the first.
const POWER_SUMS_OVER_2: &str =
    "subalgebra 1\nfield 2\nvars x y\nweights 1 1\norder lex\nideal 0\ngenerators 2\nx + y\nx^2 + y^2\nend\n";

const POWER_SUMS_OVER_2_CALLS: [&str; 2] = [
    "run | 2 | 2",
    "report | bound 2 / basis 1 / 1 1 x : x + y / mark complete",
];

/// The power sums in three variables.
const SYMMETRIC: &str =
    "subalgebra 1\nfield 101\nvars x y z\nweights 1 1 1\norder lex\nideal 0\ngenerators 3\nx + y + z\n\
     x^2 + y^2 + z^2\nx^3 + y^3 + z^3\nend\n";

const SYMMETRIC_CALLS: [&str; 2] = [
    "run | 3 | 3",
    "report | bound 3 / basis 3 / 1 1 x : x + y + z / 2 2 x*y : x*y + x*z + y*z / 3 3 x*y*z : x*y*z / mark complete",
];

#[test]
fn sum_and_product(rt: HostRuntime) -> Result<(), Fail> {
    check_both(rt.alloc(), SUM_AND_PRODUCT, &SUM_AND_PRODUCT_CALLS)?;
    check_both(rt.alloc(), SUM_AND_PRODUCT, &GREATEST_BOUND_CALLS)
}

#[test]
fn power_sums(rt: HostRuntime) -> Result<(), Fail> {
    check_both(rt.alloc(), POWER_SUMS, &POWER_SUMS_CALLS)?;
    check_both(rt.alloc(), POWER_SUMS_OVER_2, &POWER_SUMS_OVER_2_CALLS)?;
    check_both(rt.alloc(), SYMMETRIC, &SYMMETRIC_CALLS)
}
