//! Monomials and words of texts.
use monomial_order::{Memory, Monomial};
use std::alloc::Global;
use std::test::Fail;

/// The index of a letter: x, y, z, w are the first four.
fn index(n: usize, letter: &str) -> Result<usize, Fail> {
    match letter {
        "x" => Ok(0),
        "y" => Ok(1),
        "z" => Ok(2),
        "w" => Ok(3),
        _ => numbered(n, letter),
    }
}

/// The index of x1, x2, .. and, after n of them, of s1, s2, ..
fn numbered(n: usize, letter: &str) -> Result<usize, Fail> {
    match letter.strip_prefix("s") {
        Some(number) => Ok(number.parse::<usize>()?.saturating_add(n).saturating_sub(1)),
        None => {
            let number = letter.strip_prefix("x").ok_or("no letter")?;
            Ok(number.parse::<usize>()?.saturating_sub(1))
        }
    }
}

/// Sets the exponent at an index below 100.
fn set(exponents: &mut Vec<u16>, index: usize, exponent: u16) -> Result<(), Memory> {
    if exponents.len() <= index && index < 100 {
        exponents.resize(index + 1, 0)?;
    }
    if index < exponents.len() {
        exponents[index] = exponent;
    }
    Ok(())
}

/// The word of a text, as `x^2*s1`: x, y, z, w or x1, x2, .. are the first n letters, and s1, s2, .. the others.
pub fn word(alloc: Global, n: usize, text: &str) -> Result<Monomial, Fail> {
    let mut exponents = Vec::new(alloc);
    if text != "1" {
        for factor in text.split('*') {
            let (letter, exponent) = factor.split_once('^').unwrap_or((factor, "1"));
            set(&mut exponents, index(n, letter)?, exponent.parse::<u16>()?)?;
        }
    }
    Ok(Monomial::from_places(alloc, exponents.as_slice())?)
}

/// The monomial of a text, as `x^2*y`.
pub fn monomial(alloc: Global, text: &str) -> Result<Monomial, Fail> {
    word(alloc, 0, text)
}

/// Whether the word is that of the text, or there is none and the text is `-`.
pub fn is_word(
    alloc: Global,
    n: usize,
    found: Option<&Monomial>,
    text: &str,
) -> Result<bool, Fail> {
    match found {
        Some(m) => Ok(text != "-" && *m == word(alloc, n, text)?),
        None => Ok(text == "-"),
    }
}
