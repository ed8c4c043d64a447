//! Elements of the fields of pairs.

/// The pair (low, high): low plus high times a root of the polynomial that the field adjoins.
#[derive(Clone, Copy, PartialEq, Eq)]
pub struct Pair {
    pub low: u32,
    pub high: u32,
}
