//! Subalgebras modulo an ideal.
use crate::scripts::check_both;
use std::test::Fail;

/// x + y modulo x^2 - y^2.
const SUM_ON_LINES: &str =
    "subalgebra 1\nfield 101\nvars x y\nweights 1 1\norder lex\nideal 1\nx^2 - y^2\ngenerators 1\nx + y\nend\n";

const SUM_ON_LINES_CALLS: [&str; 8] = [
    "run | 2 | 2",
    "relations | 1 / s1^2 = 2*s2",
    "run | 3 | 3",
    "report | bound 3 / basis 3 / 1 1 x : x + y / 2 2 x*y : x*y + y^2 / 3 3 x*y^2 : x*y^2 + y^3 / mark open",
    "relations | 2 / s1^2 = 2*s2 / s1*s2 = 2*s3",
    "complete | false",
    "answer | x*y + y^2 | member 51*g1^2",
    "answer | x*y | no 100*y^2",
];

/// y + x modulo x^2, with y as the greater variable.
const SUM_ON_DOUBLE_LINE: &str =
    "subalgebra 1\nfield 101\nvars y x\nweights 1 1\norder lex\nideal 1\nx^2\ngenerators 1\ny + x\nend\n";

const SUM_ON_DOUBLE_LINE_CALLS: [&str; 6] = [
    "run | 1 | 1",
    "report | bound 1 / basis 1 / 1 1 y : y + x / mark open",
    "complete | false",
    "run | 2 | 2",
    "report | bound 2 / basis 1 / 1 1 y : y + x / mark complete",
    "complete | true",
];

#[test]
fn sums(rt: HostRuntime) -> Result<(), Fail> {
    check_both(rt.alloc(), SUM_ON_LINES, &SUM_ON_LINES_CALLS)?;
    check_both(rt.alloc(), SUM_ON_DOUBLE_LINE, &SUM_ON_DOUBLE_LINE_CALLS)
}
