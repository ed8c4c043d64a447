//! Tests of completions and of answers to queries: cases that were worked out by hand, as scripts of calls.
#![tactic(auto)]

#[cfg(test)]
mod answers;
#[cfg(test)]
mod completions;
#[cfg(test)]
mod endless;
#[cfg(test)]
mod finite;
#[cfg(test)]
mod quotients;
#[cfg(test)]
mod scripts;
#[cfg(test)]
mod state_lines;
#[cfg(test)]
mod symmetric;
#[cfg(test)]
mod texts;
