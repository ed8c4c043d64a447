//! Subalgebras with a finite basis.
use crate::scripts::check_both;
use std::test::Fail;

/// x^2 and x^3.
const CUSP: &str =
    "subalgebra 1\nfield 101\nvars x\nweights 1\norder lex\nideal 0\ngenerators 2\nx^2\nx^3\nend\n";

/// The only relation has degree 6.
const CUSP_CALLS: [&str; 13] = [
    "run | 3 | 3",
    "report | bound 3 / basis 2 / 1 2 x^2 : x^2 / 2 3 x^3 : x^3 / mark open",
    "answer | x^6 | beyond 6",
    "run | 4 | 4",
    "report | bound 4 / basis 2 / 1 2 x^2 : x^2 / 2 3 x^3 : x^3 / mark open",
    "run | 5 | 5",
    "relations | 0",
    "run | 6 | 6",
    "report | bound 6 / basis 2 / 1 2 x^2 : x^2 / 2 3 x^3 : x^3 / mark complete",
    "relations | 1 / s1^3 = s2^2",
    "answer | x^6 | member g2^2",
    "answer | x^7 | member g1^2*g2",
    "answer | x | no x",
];

/// No generator but zero.
const ZERO: &str =
    "subalgebra 1\nfield 101\nvars x\nweights 1\norder lex\nideal 0\ngenerators 1\n0\nend\n";

const ZERO_CALLS: [&str; 6] = [
    "run | 1 | 1",
    "report | bound 1 / basis 0 / mark complete",
    "complete | true",
    "relations | 0",
    "answer | x | no x",
    "answer | 3 | member 3",
];

/// One element by weights 2 and 3.
const WEIGHTS: &str =
    "subalgebra 1\nfield 7\nvars a b\nweights 2 3\norder lex\nideal 0\ngenerators 1\na^3 + b^2\nend\n";

const WEIGHTS_CALLS: [&str; 4] = [
    "run | 5 | 5",
    "report | bound 5 / basis 0 / mark open",
    "run | 6 | 6",
    "report | bound 6 / basis 1 / 1 6 a^3 : a^3 + b^2 / mark complete",
];

/// x^2 + x*y and x*y: the tail of the first is the lead of the second.
const TAIL: &str =
    "subalgebra 1\nfield 101\nvars x y\nweights 1 1\norder lex\nideal 0\ngenerators 2\nx^2 + x*y\nx*y\nend\n";

const TAIL_CALLS: [&str; 4] = [
    "run | 2 | 2",
    "report | bound 2 / basis 2 / 1 2 x*y : x*y / 2 2 x^2 : x^2 / mark open",
    "run | 4 | 4",
    "report | bound 4 / basis 2 / 1 2 x*y : x*y / 2 2 x^2 : x^2 / mark complete",
];

/// The second generator is taken before the first.
const SECOND_FIRST_CALLS: [&str; 4] = [
    "take |  | 0",
    "take | 1 0 | 2 1 0",
    "basis | 2 / x*y / x^2",
    "report | bound 2 / basis 2 / 1 2 x*y : x*y / 2 2 x^2 : x^2 / mark open",
];

/// The 2 by 2 minors of a generic 2 by 4 matrix.
const MINORS: &str =
    "subalgebra 1\nfield 101\nvars a b c d e f g h\nweights 1 1 1 1 1 1 1 1\norder lex\nideal 0\ngenerators 6\n\
     a*f - b*e\na*g - c*e\na*h - d*e\nb*g - c*f\nb*h - d*f\nc*h - d*g\nend\n";

const MINORS_CALLS: [&str; 2] = ["run | 4 | 4", "relations | 1 / s2*s5 = s1*s6 + s3*s4"];

#[test]
fn monomials(rt: HostRuntime) -> Result<(), Fail> {
    check_both(rt.alloc(), CUSP, &CUSP_CALLS)?;
    check_both(rt.alloc(), ZERO, &ZERO_CALLS)?;
    check_both(rt.alloc(), WEIGHTS, &WEIGHTS_CALLS)
}

#[test]
fn tails(rt: HostRuntime) -> Result<(), Fail> {
    check_both(rt.alloc(), TAIL, &TAIL_CALLS)?;
    check_both(rt.alloc(), TAIL, &SECOND_FIRST_CALLS)?;
    check_both(rt.alloc(), MINORS, &MINORS_CALLS)
}
