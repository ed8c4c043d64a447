//! Tests of words and of tables of rules: cases that were worked out by hand, as rows of text.
//! `zeros` serves other tests too.
#![tactic(auto)]

#[cfg(test)]
mod rules;
#[cfg(test)]
mod walk;
#[cfg(test)]
mod words;
pub mod zeros;
