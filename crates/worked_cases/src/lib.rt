//! Tests of monomials, orders, polynomials, chains of terms and witnesses: cases that were worked out by hand, as rows
//! of text.
#![tactic(auto)]

#[cfg(test)]
mod chains;
#[cfg(test)]
mod operations;
#[cfg(test)]
mod orders;
#[cfg(test)]
mod products;
#[cfg(test)]
mod witnesses;
