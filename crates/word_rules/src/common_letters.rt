//! Critical pairs whose members have a common letter.
ghost use Rattle.std.specs.Prelude.{◌≡◌, ◌≢◌, ◌↔◌, ◌<◌, ℕ, length, IsTrue};
ghost use Rattle.monomial_order.specs.Monomial.{exponent};
ghost use Rattle.word_rewriting.specs.Rewriting.{WordOrZero, IsCriticalPair};
ghost use Rattle.word_rules.specs.Rules.{rule_at, HaveCommonLetter};
ghost use Rattle.word_rules.specs.Members.{member_exponent};

use crate::rule_side::exponent_in;
use crate::{RuleSide, RuleTable};

/// Whether a letter is in what the rule from `left` to `right` rewrites its least common multiple with `other` to.
fn is_in_member(left: &[u16], right: &[u16], other: &[u16], letter: usize) -> bool
    ensures { IsTrue result ↔ (member_exponent left.now right.now other.now letter ≢ 0) }
{
    exponent_in(right, letter) > 0 || exponent_in(other, letter) > exponent_in(left, letter)
}

/// Whether a letter of the word is in what the rule from `left` to `right` rewrites its least common multiple with
/// `other` to.
fn is_one_in_member(word: &RuleSide, left: &[u16], right: &[u16], other: &[u16]) -> bool
    ensures { IsTrue result ↔ ((letter : ℕ) × (exponent word.now letter ≢ 0)
        × (member_exponent left.now right.now other.now letter ≢ 0)) }
{
    'letters: for factor in word.factors() {
        if is_in_member(left, right, other, factor.letter) {
            return true;
        }
    }
    false
}

impl RuleTable {
    /// Whether both members of the critical pair of two rules are words, and these have a letter in common. It looks
    /// at letters alone, and makes no word.
    pub fn has_common_letter(&self, i: usize, j: usize) -> bool
        requires first { i < length self.now }
        requires second { j < length self.now }
        ensures { (a b : WordOrZero) → IsCriticalPair (rule_at self.now i) (rule_at self.now j) a b
            → IsTrue result ↔ HaveCommonLetter a b }
    {
        let (Some(u), Some(v)) = (self.right_side(i), self.right_side(j)) else {
            return false;
        };
        let first = self.left(i).as_slice();
        let second = self.left(j).as_slice();
        is_one_in_member(u, second, v.word().as_slice(), first)
            || is_one_in_member(v, first, u.word().as_slice(), second)
    }
}
