//! Lists of leads as texts.

use monomial_order::Monomial;
use std::alloc::Global;
use std::test::Fail;
use worked_rows::monomials::is_word;

/// Whether the monomials are those of the text, in this order; `-` is the text of none.
pub(crate) fn are_monomials(alloc: Global, found: &[Monomial], text: &str) -> Result<bool, Fail> {
    let mut rest = found.iter();
    for expected in text.split(", ") {
        if !is_word(alloc, 0, rest.next(), expected)? {
            return Ok(false);
        }
    }
    Ok(rest.next().is_none())
}
