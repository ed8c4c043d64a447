//! Out of memory.
use std::alloc::{AllocError, AllocFailed};

/// A constructor or a setting of a shelf or a sink ran out of memory.
#[derive(Clone, Copy, Debug, PartialEq, Eq)]
pub struct ShelfMemory;

impl From<AllocError> for ShelfMemory {
    fn from(_: AllocError) -> Self {
        ShelfMemory
    }
}

impl<T: Drop> From<AllocFailed<T>> for ShelfMemory {
    fn from(_: AllocFailed<T>) -> Self {
        ShelfMemory
    }
}
