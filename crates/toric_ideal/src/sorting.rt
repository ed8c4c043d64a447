//! Rules in the order of their words.
ghost use Rattle.std.specs.Prelude.{◌≡◌, ◌≤◌, ◌<◌, ℕ, length, IfOk, OnOk};
ghost use Rattle.monomial_order.specs.MonomialOrder.{IsIncreasing};
ghost use Rattle.word_rules.specs.Rules.{rule_at, IsSmallWord};
ghost use Rattle.toric_ideal.specs.Increasing.{IsInsertionIndex};
ghost use Rattle.toric_ideal.specs.Rewriting.{rewrite_rule};
ghost use Rattle.toric_ideal.specs.SortedRules.{words_of, AreSortedRules, HaveSmallWords, IsInsertedRule};

use crate::Rule;
use monomial_order::{Memory, Monomial, Order};
use std::alloc::Global;
use word_rules::RuleTable;

/// The index of the first rule whose word is not less.
pub(crate) fn insertion_index<O: Order>(o: &O, rules: &[Rule], word: &Monomial) -> usize
    requires increasing { IsIncreasing (O.order o.now) (words_of rules.now) }
    requires small { HaveSmallWords (O.order o.now) rules.now }
    requires word { IsSmallWord (O.order o.now) word.now }
    ensures { IsInsertionIndex (O.order o.now) (words_of rules.now) word.now result }
{
    let mut low = 0;
    let mut high = rules.len();
    'seek: while low < high {
        let middle = low + (high - low) / 2;
        if o.compare(&rules[middle].word, word).is_lt() {
            low = middle + 1;
        } else {
            high = middle;
        }
    }
    low
}

/// Inserts a rule, unless its word is there.
fn insert<O: Order>(o: &O, rules: &mut Vec<Rule>, rule: Rule) -> Result<(), Memory>
    requires increasing { IsIncreasing (O.order o.now) (words_of rules.old.items) }
    requires small { HaveSmallWords (O.order o.now) rules.old.items }
    requires word { IsSmallWord (O.order o.now) rule.word }
    ensures { OnOk result (IsInsertedRule (O.order o.now) rules.old.items rules.new.items rule) }
{
    let index = insertion_index(o, rules.as_slice(), &rule.word);
    if index < rules.len() && rules[index].word == rule.word {
        return Ok(());
    }
    rules.insert(index, rule)?;
    Ok(())
}

/// A copy of the rule at an index.
fn copied(alloc: Global, table: &RuleTable, i: usize) -> Result<Rule, Memory>
    requires { i < length table.now }
    ensures { IfOk result (λ r. rewrite_rule r ≡ rule_at table.now i) }
{
    let least = match table.right(i) {
        None => None,
        Some(word) => Some(word.copy(alloc)?),
    };
    Ok(Rule {
        word: table.left(i).copy(alloc)?,
        least,
    })
}

/// The rules from an index on, in the order of their words.
pub(crate) fn sorted_rules<O: Order>(
    alloc: Global,
    o: &O,
    table: &RuleTable,
    first: usize,
) -> Result<Vec<Rule>, Memory>
    requires within { first ≤ length table.now }
    requires small { (k : ℕ) → k < length table.now → IsSmallWord (O.order o.now) (rule_at table.now k).left }
    ensures { IfOk result (λ v. AreSortedRules (O.order o.now) table.now first (length table.now) v.items) }
{
    let mut rules = Vec::new(alloc);
    'rules: for i in first..table.len() {
        insert(o, &mut rules, copied(alloc, table, i)?)?;
    }
    Ok(rules)
}
