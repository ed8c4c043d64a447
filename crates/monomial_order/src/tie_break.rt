//! What decides if the degrees and the rows agree.
ghost use Rattle.std.specs.Prelude.{◌≡◌};
ghost use Rattle.monomial_order.specs.Ties.{tie_order};

use crate::sums::compare_reverse_lex;
use std::cmp::Ordering;

/// The order of monomials that the degree and the rows do not tell apart.
#[derive(Clone, Copy, Debug, PartialEq, Eq)]
pub enum Tie {
    /// The greater exponent at the first place that differs is the greater monomial.
    Lex,
    /// The greater exponent at the last place that differs is the smaller monomial.
    RevLex,
}

pub(crate) fn compare_tied(tie: Tie, a: &[u16], b: &[u16]) -> Ordering
    ensures { result ≡ tie_order tie a.now b.now }
{
    match tie {
        Tie::Lex => a.cmp(b),
        Tie::RevLex => compare_reverse_lex(a, b),
    }
}
