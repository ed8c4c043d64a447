//! Tests of ideals: cases that were worked out by hand, as rows of text.
#![tactic(auto)]

#[cfg(test)]
mod cases;
#[cfg(test)]
mod leads;
#[cfg(test)]
mod quotients;
