//! Words of leads, worked out by hand.
use crate::walk::{extend, factor, is_closed, least, push, settle, x_degrees};
use crate::zeros::are_degrees;
use monomial_order::{Monomial, Tie};
use std::alloc::Global;
use std::test::Fail;
use toric_ideal::{Rule, Words};
use worked_rows::monomials::{is_word, monomial};
use worked_rows::rows::{ensure, number, numbers, part};

/// Does a step: a word, and what it is done with. Zeros wait for the next extension.
fn step(
    alloc: Global,
    words: &mut Words,
    zeros: &mut Vec<Monomial>,
    step: &str,
) -> Result<(), Fail> {
    let (verb, what) = step.split_once(' ').unwrap_or((step, ""));
    match verb {
        "to" => extend(alloc, words, number(what)?, zeros.as_slice()),
        "zero" => Ok(zeros.push(monomial(alloc, what)?)?),
        "lead" => push(alloc, words, &monomial(alloc, what)?),
        "lex" => settle(alloc, words, Tie::Lex),
        "revlex" => settle(alloc, words, Tie::RevLex),
        "closed" => ensure(is_closed(alloc, words)? && words.known_closed(), step),
        "open" => ensure(!is_closed(alloc, words)? && !words.known_closed(), step),
        "unknown" => ensure(!words.known_closed(), step),
        _ => look(alloc, words, step),
    }
}

/// The factors of the monomial of a text, or its least word.
fn found(alloc: Global, words: &Words, verb: &str, text: &str) -> Result<Option<Monomial>, Fail> {
    let m = monomial(alloc, text)?;
    if verb == "factor" {
        return factor(alloc, words, &m);
    }
    least(alloc, words, &m)
}

/// Compares the factors or the least word of a monomial, as in `factor x^2*y = s1*s2`.
fn look(alloc: Global, words: &Words, step: &str) -> Result<(), Fail> {
    let (left, expected) = step.split_once(" = ").ok_or("no step")?;
    let (verb, what) = left.split_once(' ').ok_or("no step")?;
    let found = found(alloc, words, verb, what)?;
    let n = x_degrees(words).len();
    ensure(is_word(alloc, n, found.as_ref(), expected)?, step)
}

/// Whether the rule is that of a text, as `x*s1 > s2`, and `x^2 > -` if the image is zero.
fn is_rule(alloc: Global, n: usize, rule: &Rule, text: &str) -> Result<bool, Fail> {
    let (word, least) = text.split_once(" > ").ok_or("no rule")?;
    Ok(is_word(alloc, n, Some(&rule.word), word)? && is_word(alloc, n, rule.least.as_ref(), least)?)
}

/// Whether the rules are those of the text, in this order, or there is none and the text is `-`.
fn are_rules(alloc: Global, n: usize, rules: &[Rule], text: &str) -> Result<bool, Fail> {
    if text == "-" {
        return Ok(rules.is_empty());
    }
    let mut rest = rules.iter();
    for expected in text.split(", ") {
        match rest.next() {
            Some(rule) if is_rule(alloc, n, rule, expected)? => {}
            _ => return Ok(false),
        }
    }
    Ok(rest.next().is_none())
}

/// No leads, over variables of the degrees of a text.
fn first_words(alloc: Global, text: &str) -> Result<Words, Fail> {
    let degrees = numbers(alloc, text)?;
    ensure(are_degrees(degrees.as_slice()), "no degrees")?;
    Ok(Words::new(alloc, degrees.as_slice())?)
}

/// Does the steps of a text.
fn walk(alloc: Global, words: &mut Words, steps: &str) -> Result<(), Fail> {
    let mut zeros = Vec::new(alloc);
    for text in steps.split(", ") {
        step(alloc, words, &mut zeros, text)?;
    }
    Ok(())
}

/// Compares the rules after the steps: the degrees of x, y and z, the steps and the rules.
fn see_rules(alloc: Global, row: &str) -> Result<(), Fail> {
    let mut words = first_words(alloc, part(row, 0))?;
    walk(alloc, &mut words, part(row, 1))?;
    let n = x_degrees(&words).len();
    ensure(are_rules(alloc, n, words.rules(), part(row, 2))?, row)
}

#[test]
fn rules_are_those_worked_out(rt: HostRuntime) -> Result<(), Fail> {
    for row in [
        "1 1 | to 1, lead x, to 2, lead x*y, lex, to 3, factor x^2*y = s1*s2, factor y = -, least x*y = s2 | \
         x > s1, y*s1 > s2",
        // s1^2 has the image x^2, which is zero
        "1 | to 1, lead x, zero x^2, to 2 | x > s1, s1^2 > -",
        // leads keep their numbers until they are settled, and y is less than x
        "1 1 | to 1, lead x, lead y | y > s2, x > s1",
        "1 1 | to 1, lead x, lead y, lex, to 2 | y > s1, x > s2",
        // by lex y^2 is less than x*z, and by reverse lex greater; they have no relation
        "1 1 1 | to 2, lead x*z, lead y^2, lex, to 4 | y^2 > s1, x*z > s2",
        "1 1 1 | to 2, lead y^2, lead x*z, revlex, to 3 | y^2 > s2, x*z > s1",
        // the leads y, x, y*z, x*z: z*s2 and z*s1 are leads, and s1*s4 = x*y*z = s2*s3
        "1 1 1 | to 1, lead x, lead y, lex, to 2, lead x*z, lead y*z, lex, to 3, factor x*y*z = s2*s3, \
         factor y*z^2 = - | y > s1, x > s2, z*s2 > s4, z*s1 > s3, s1*s4 > s2*s3",
        // x has the degree 2 and y the degree 3: y^2 and x^3 have the degree 6
        "2 3 | to 6, lead x^3, lead y^2, lex, to 8 | y^2 > s1, x^3 > s2",
        // y has the degree 2, and the leads are y, x^2, x*y, x^3. Then x*s_i is the image of an s-word for each i,
        // s1*s4 = x^3*y = s2*s3, s2^3 = x^6 = s4^2, s1*s2^2 = x^4*y = s3*s4 and s1^2*s2 = x^2*y^2 = s3^2
        "1 2 | to 2, lead x^2, lead y, lex, to 3, lead x^3, lead x*y, lex, to 6 | y > s1, x^2 > s2, x*s2 > s4, \
         x*s1 > s3, x*s4 > s2^2, x*s3 > s1*s2, s1*s4 > s2*s3, s2^3 > s4^2, s1*s2^2 > s3*s4, s1^2*s2 > s3^2",
        // the lead x*y, with the zeros x^2 and y^2: x*s1, y*s1 and s1^2 are zero
        "1 1 | zero x^2, zero y^2, to 2, lead x*y, to 4, factor x*y = s1, least y^3 = - | y^2 > -, x*y > s1, \
         x^2 > -, y*s1 > -, x*s1 > -, s1^2 > -",
        // the lead y, with the zero x^2, and from the degree 3 on y^3 as well
        "1 1 | to 1, lead y, zero x^2, to 2, factor y^2 = s1^2, zero y^3, to 4, factor x*y = -, least y^3 = -, \
         least x*y^2 = x*s1^2 | y > s1, x^2 > -, s1^3 > -",
        // the leads y, x, x*z, with the zero x*y: so are s1*s2 and s1*s3
        "1 1 1 | to 1, lead x, lead y, revlex, zero x*y, to 2, lead x*z, revlex, to 3 | y > s1, x > s2, \
         s1*s2 > -, z*s2 > s3, s1*s3 > -",
        // the leads x^2 and x^3, as in the ring of a cusp: s1^3 = x^6 = s2^2
        "1 | to 2, lead x^2, to 3, lead x^3, to 6 | x^2 > s1, x*s1 > s2, x*s2 > s1^2, s1^3 > s2^2",
    ] {
        see_rules(rt.alloc(), row)?;
    }
    Ok(())
}

#[test]
fn closed_words_are_known(rt: HostRuntime) -> Result<(), Fail> {
    for row in [
        // no lead
        "1 1 | to 1, unknown, closed, to 15000 | -",
        "1 1 | to 1, lead x, to 2, lead x*y, lex, to 3, closed, to 15000, factor x^9*y^4 = s1^5*s2^4 | x > s1, \
         y*s1 > s2",
        // leads that are coprime
        "2 3 | to 6, lead x^3, lead y^2, lex, closed, to 15000, factor x^6*y^2 = s1*s2^2 | y^2 > s1, x^3 > s2",
        "1 1 1 | to 2, lead x*z, lead y^2, lex, closed | y^2 > s1, x*z > s2",
        // the square of a letter is zero
        "1 | to 1, lead x, zero x^2, to 2, closed | x > s1, s1^2 > -",
        // so is s1^2 here, of degree 4
        "1 1 | zero x^2, zero y^2, to 2, lead x*y, to 3, open | y^2 > -, x*y > s1, x^2 > -, y*s1 > -, x*s1 > -",
        "1 1 | zero x^2, zero y^2, to 2, lead x*y, to 4, closed | y^2 > -, x*y > s1, x^2 > -, y*s1 > -, x*s1 > -, \
         s1^2 > -",
        // s1*s4 = x*y^4 = s2*s3 has the degree 5
        "1 1 | to 1, lead x, to 2, lead x*y, to 3, lead x*y^2, to 4, lead x*y^3, open | x > s1, y*s1 > s2, y*s2 > s3, \
         s1*s3 > s2^2, y*s3 > s4",
        // z*s1 and z*s2, of degree 2, have a critical pair of degree 3: s1*s4 = x*y*z = s2*s3
        "1 1 1 | to 1, lead x, lead y, lex, to 2, lead x*z, lead y*z, lex, open | y > s1, x > s2, z*s2 > s4, z*s1 > s3",
        "1 1 1 | to 1, lead x, lead y, lex, to 2, lead x*z, lead y*z, lex, to 3, closed, to 15000 | y > s1, x > s2, \
         z*s2 > s4, z*s1 > s3, s1*s4 > s2*s3",
        // s1^3 = x^6 = s2^2: the rules to 5 have degrees of at most 4
        "1 | to 2, lead x^2, to 3, lead x^3, to 5, open | x^2 > s1, x*s1 > s2, x*s2 > s1^2",
        "1 | to 2, lead x^2, to 3, lead x^3, to 6, closed | x^2 > s1, x*s1 > s2, x*s2 > s1^2, s1^3 > s2^2",
        // y has the degree 2: s2^3 = x^6 = s4^2
        "1 2 | to 2, lead x^2, lead y, lex, to 3, lead x^3, lead x*y, lex, to 5, open | y > s1, x^2 > s2, x*s2 > s4, \
         x*s1 > s3, x*s4 > s2^2, x*s3 > s1*s2, s1*s4 > s2*s3",
        "1 2 | to 2, lead x^2, lead y, lex, to 3, lead x^3, lead x*y, lex, to 6, closed, to 15000 | y > s1, x^2 > s2, \
         x*s2 > s4, x*s1 > s3, x*s4 > s2^2, x*s3 > s1*s2, s1*s4 > s2*s3, s2^3 > s4^2, s1*s2^2 > s3*s4, s1^2*s2 > s3^2",
        // a lead or a zero more
        "1 1 | to 1, lead x, closed, lead y, unknown, lex, closed | y > s1, x > s2",
        "1 1 | to 1, lead y, closed, zero x^2, to 2, unknown, closed | y > s1, x^2 > -",
    ] {
        see_rules(rt.alloc(), row)?;
    }
    Ok(())
}
