//! Tests of witnesses in the generators, of values of words and of bases: cases that were worked out by hand, as rows
//! of text.
#![tactic(auto)]

#[cfg(test)]
mod expansions;
#[cfg(test)]
mod lifts;
#[cfg(test)]
mod subductions;
#[cfg(test)]
mod values;
