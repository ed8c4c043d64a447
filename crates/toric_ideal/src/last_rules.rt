//! The rules of the last degree.
ghost use Rattle.std.specs.Prelude.{◌≤◌, ◌<◌, ℕ, length, Contains};
ghost use Rattle.monomial_order.specs.MonomialOrder.{IsIncreasing};
ghost use Rattle.word_rules.specs.Rules.{rule_at};
ghost use Rattle.toric_ideal.specs.Rewriting.{rewrite_rules};
ghost use Rattle.toric_ideal.specs.SortedRules.{words_of, HaveSmallWords};

use crate::Rule;
use monomial_order::Order;

/// The index of the first rule whose word has the degree, which is that of the last ones.
pub(crate) fn first_of_degree<O: Order>(o: &O, rules: &[Rule], degree: u32) -> usize
    requires increasing { IsIncreasing (O.order o.now) (words_of rules.now) }
    requires small { HaveSmallWords (O.order o.now) rules.now }
    requires degrees { (r : Rule) → Contains rules.now r → (O.order o.now).degree r.word ≤ degree }
    ensures within { result ≤ length rules.now }
    ensures lower { (k : ℕ) → k < result
        → (O.order o.now).degree (rule_at (rewrite_rules rules.now) k).left < degree }
{
    let mut low = 0;
    let mut high = rules.len();
    'seek: while low < high {
        let middle = low + (high - low) / 2;
        if o.degree(&rules[middle].word) < degree {
            low = middle + 1;
        } else {
            high = middle;
        }
    }
    low
}
