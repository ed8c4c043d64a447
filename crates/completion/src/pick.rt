//! Which candidate is taken next.
ghost use Rattle.std.specs.Prelude.{◌≡◌, ◌<◌, ◌+◌};

/// The first or the last of the candidates that wait.
#[derive(Clone, Copy, Debug, PartialEq, Eq)]
pub enum Pick {
    First,
    Last,
}

impl Pick {
    /// The index of this one of so many.
    pub(crate) fn index(self, count: usize) -> usize
        requires { 0 < count }
        ensures inside { result < count }
        ensures first { self ≡ Pick.First → result ≡ 0 }
        ensures last { self ≡ Pick.Last → result + 1 ≡ count }
    {
        match self {
            Pick::First => 0,
            Pick::Last => count - 1,
        }
    }
}
