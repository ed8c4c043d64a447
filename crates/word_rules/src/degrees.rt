//! Degrees of critical pairs.
ghost use Rattle.std.specs.Prelude.{◌≡◌, ◌+◌, ◌++◌, ◌<◌, ◌≤◌, length, slice_index_or};
ghost use Rattle.monomial_order.specs.Limits.{exponent_max};
ghost use Rattle.monomial_order.specs.Monomial.{exponent, least_common_multiple, weighted_degree};
ghost use Rattle.word_rules.specs.Rules.{rule_at};

use crate::rule_side::exponent_in;
use crate::{RuleSide, RuleTable};

/// The degree of a letter, by those of x and of s.
fn letter_degree(x_degrees: &[u32], s_degrees: &[u32], letter: usize) -> u32
    ensures { result ≡ slice_index_or (x_degrees.now ++ s_degrees.now) letter 0 }
{
    if letter < x_degrees.len() {
        return x_degrees[letter];
    }
    let place = letter - x_degrees.len();
    if place < s_degrees.len() {
        s_degrees[place]
    } else {
        0
    }
}

/// What a word adds to the degree of another one in their least common multiple.
fn added_degree(x_degrees: &[u32], s_degrees: &[u32], word: &RuleSide, other: &[u16]) -> u32
    requires small { weighted_degree (x_degrees.now ++ s_degrees.now) (least_common_multiple other.now word.now)
        ≤ exponent_max }
    ensures { weighted_degree (x_degrees.now ++ s_degrees.now) other.now + result
        ≡ weighted_degree (x_degrees.now ++ s_degrees.now) (least_common_multiple other.now word.now) }
{
    let mut sum = 0;
    'letters: for factor in word.factors() {
        let excess = factor
            .exponent
            .saturating_sub(exponent_in(other, factor.letter));
        sum += letter_degree(x_degrees, s_degrees, factor.letter) * u32::from(excess);
    }
    sum
}

impl RuleTable {
    /// The degree of the least common multiple of two left sides, by the degrees of x and of s. It takes no memory.
    pub fn lcm_degree(&self, x_degrees: &[u32], s_degrees: &[u32], i: usize, j: usize) -> u32
        requires first { i < length self.now }
        requires second { j < length self.now }
        requires small { weighted_degree (x_degrees.now ++ s_degrees.now)
            (least_common_multiple (rule_at self.now i).left (rule_at self.now j).left) ≤ exponent_max }
        ensures { result ≡ weighted_degree (x_degrees.now ++ s_degrees.now)
            (least_common_multiple (rule_at self.now i).left (rule_at self.now j).left) }
    {
        added_degree(x_degrees, s_degrees, self.left_side(i), &[])
            + added_degree(
                x_degrees,
                s_degrees,
                self.left_side(j),
                self.left(i).as_slice(),
            )
    }
}
