//! Tests of fields, queues, shelves and sinks: cases that were worked out by hand, most of them as rows of text.
#![tactic(auto)]

#[cfg(test)]
mod fields;
#[cfg(test)]
mod pairs;
#[cfg(test)]
mod queues;
#[cfg(test)]
mod shelves;
#[cfg(test)]
mod stops;
