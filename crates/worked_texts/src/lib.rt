//! Tests of texts: lines of polynomials, presentations and queries, as rows of text.
#![tactic(auto)]

#[cfg(test)]
mod lines;
#[cfg(test)]
mod texts;
