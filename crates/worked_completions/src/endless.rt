//! A subalgebra without a finite basis.
use crate::scripts::check_both;
use std::test::Fail;

/// x + y, x*y and x*y^2: all x*y^i lead members, and no finite basis exists.
const ENDLESS: &str =
    "subalgebra 1\nfield 101\nvars x y\nweights 1 1\norder lex\nideal 0\ngenerators 3\nx + y\nx*y\nx*y^2\nend\n";

/// The same query is beyond the closed degree, and within it later.
const RUN_CALLS: [&str; 14] = [
    "run | 3 | 3",
    "relations | 0",
    "run | 4 | 4",
    "report | bound 4 / basis 4 / 1 1 x : x + y / 2 2 x*y : x*y / 3 3 x*y^2 : x*y^2 / 4 4 x*y^3 : x*y^3 / mark open",
    "relations | 1 / s1*s3 = s2^2 + s4",
    "state |  | sagbi-state 2 / subalgebra 1 / field 101 / vars x y / weights 1 1 / order lex / ideal 0 / \
     generators 3 / x + y / x*y / x*y^2 / end / degree 4 / elements 4 / x + y : g1 / x*y : g2 / x*y^2 : g3 / \
     x*y^3 : s1*s3 + 100*s2^2 / relations 1 / s1*s3 = s2^2 + s4 / end",
    "complete | false",
    "answer | x*y^4 | beyond 5",
    "answer | x^3*y^2 + x^2*y^3 | beyond 5",
    "answer | x*y^3 | member g1*g3 + 100*g2^2",
    "run | 5 | 5",
    "answer | x*y^4 | member g1^2*g3 + 100*g1*g2^2 + 100*g2*g3",
    "answer | x^3*y^2 + x^2*y^3 | member g1*g2^2",
    "relations | 2 / s1*s3 = s2^2 + s4 / s1*s4 = s2*s3 + s5",
];

/// Degree by degree: by hand, with picks, and with a degree that is begun and ended by a run.
const DEGREE_CALLS: [&str; 8] = [
    "take | 0 | 1 0",
    "basis | 1 / x + y",
    "close | 5 | 2",
    "close | 5 | 3",
    "basis | 3 / x + y / x*y / x*y^2",
    "begin and run | 2 | 4",
    "basis | 4 / x + y / x*y / x*y^2 / x*y^3",
    "begin and run | 6 | 6",
];

const PICK_CALLS: [&str; 6] = [
    "close |  | 1",
    "close | 5 | 2",
    "close | 5 | 3",
    "basis | 3 / x + y / x*y / x*y^2",
    "close |  | 4",
    "basis | 4 / x + y / x*y / x*y^2 / x*y^3",
];

/// Lines of states behind the elements x + y, x*y, x*y^2 and x*y^3.
const LINE_CALLS: [&str; 15] = [
    "run | 4 | 4",
    "element | x*y^3 : s1*s3 + 100*s2^2 | 1 by 2",
    "element | x + 100*y : g1 | 2 by 1",
    "element | x*y^3 : s2^2*g1 + s4 | none",
    "element | x*y^3 : s4 | none",
    "element | x*y^3 : 0 | none",
    "element | x*y^3 : g1 | none",
    "element | x*y^3 :g1*g3 | none",
    "element | x*y^4 : g1^2*g3 | none",
    "element | x + x*y : g1 | none",
    "relation | s1*s3 = s2^2 + s4 | 5 to 2",
    "relation | s1*s3 = 0 | 5 to 0",
    "relation | s1*s3 = s2 | none",
    "relation | s1*s4 = 0 | none",
    "relation | 2*s1*s3 = s2^2 | none",
];

/// Back to a smaller degree, and on again.
const CUT_CALLS: [&str; 12] = [
    "run | 4 | 4",
    "relations | 1 / s1*s3 = s2^2 + s4",
    "cut | 3 | 3",
    "basis | 3 / x + y / x*y / x*y^2",
    "relations | 0",
    "complete | false",
    "answer | x*y^3 | beyond 4",
    "run | 4 | 4",
    "report | bound 4 / basis 4 / 1 1 x : x + y / 2 2 x*y : x*y / 3 3 x*y^2 : x*y^2 / 4 4 x*y^3 : x*y^3 / mark open",
    "relations | 1 / s1*s3 = s2^2 + s4",
    "cut | 1 | 1",
    "basis | 1 / x + y",
];

/// And x*y^3, which is a polynomial in the others.
const ONE_TOO_MANY: &str =
    "subalgebra 1\nfield 101\nvars x y\nweights 1 1\norder lex\nideal 0\ngenerators 4\nx + y\nx*y\nx*y^2\nx*y^3\nend\n";

/// In the degree 4 the generator is taken first, and then the word.
const GENERATOR_FIRST_CALLS: [&str; 5] = [
    "run | 3 | 3",
    "take | 0 0 | 2 1 0",
    "basis | 4 / x + y / x*y / x*y^2 / x*y^3",
    "relations | 1 / s1*s3 = s2^2 + s4",
    "answer | x*y^3 | member g4",
];

/// And the other way round.
const WORD_FIRST_CALLS: [&str; 5] = [
    "run | 3 | 3",
    "take | 1 0 | 2 1 0",
    "basis | 4 / x + y / x*y / x*y^2 / x*y^3",
    "relations | 1 / s1*s3 = s2^2 + s4",
    "answer | x*y^3 | member g1*g3 + 100*g2^2",
];

#[test]
fn runs(rt: HostRuntime) -> Result<(), Fail> {
    check_both(rt.alloc(), ENDLESS, &RUN_CALLS)
}

#[test]
fn degrees(rt: HostRuntime) -> Result<(), Fail> {
    check_both(rt.alloc(), ENDLESS, &DEGREE_CALLS)?;
    check_both(rt.alloc(), ENDLESS, &PICK_CALLS)
}

#[test]
fn lines(rt: HostRuntime) -> Result<(), Fail> {
    check_both(rt.alloc(), ENDLESS, &LINE_CALLS)
}

#[test]
fn cuts(rt: HostRuntime) -> Result<(), Fail> {
    check_both(rt.alloc(), ENDLESS, &CUT_CALLS)
}

#[test]
fn candidates(rt: HostRuntime) -> Result<(), Fail> {
    check_both(rt.alloc(), ONE_TOO_MANY, &GENERATOR_FIRST_CALLS)?;
    check_both(rt.alloc(), ONE_TOO_MANY, &WORD_FIRST_CALLS)
}
