//! Versions of states.

/// Which letters witnesses have.
#[derive(Clone, Copy)]
pub enum Version {
    /// Those of the generators alone.
    One,
    /// Those of the generators, and those of elements of smaller degree.
    Two,
}
