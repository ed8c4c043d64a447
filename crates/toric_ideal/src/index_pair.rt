//! Pairs of rules.

/// The indexes of two rules.
#[derive(Clone, Copy)]
pub(crate) struct IndexPair {
    pub(crate) first: usize,
    pub(crate) second: usize,
}
