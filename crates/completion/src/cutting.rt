//! Relations to a smaller degree.
ghost use Rattle.std.specs.Prelude.{◌≤◌, ◌<◌, length, map, take, drop, All};
ghost use Rattle.monomial_order.specs.MonomialOrder.{IsIncreasing};
ghost use Rattle.toric_ideal.specs.Increasing.{AreComparable};
ghost use Rattle.witness.specs.Tracking.{by_order};

use crate::Relation;
use monomial_order::{Order, WordOrder};
use word_field::Field;

/// How many relations have words of a degree of at most d. The others are at the end.
pub(crate) fn low_count<F: Field>(w: &WordOrder, relations: &[Relation<F>], d: u32) -> usize
    requires comparable { AreComparable (by_order w.now) (map (λ r. r.word) relations.now) }
    requires increasing { IsIncreasing (by_order w.now) (map (λ r. r.word) relations.now) }
    ensures within { result ≤ length relations.now }
    ensures at_most { let W = by_order w.now in All (λ r. W.degree r.word ≤ d) (take result relations.now) }
    ensures above { let W = by_order w.now in All (λ r. d < W.degree r.word) (drop result relations.now) }
{
    let mut count = relations.len();
    'relations: while count > 0 && d < w.degree(&relations[count - 1].word) {
        count -= 1;
    }
    count
}
