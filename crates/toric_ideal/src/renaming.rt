//! Right sides that become a letter.
ghost use Rattle.std.specs.Prelude.{◌≡◌, ◌≢◌, ◌<◌, ◌≤◌, ℕ, length, set, Some, true, false, IfOk};
ghost use Rattle.word_rules.specs.Rules.{rule_at};
ghost use Rattle.toric_ideal.specs.Renaming.{AreRenamings, AreSetBy, AreWithin};
ghost use Rattle.toric_ideal.specs.Rewriting.{rewrite_rules};

use crate::Rule;
use monomial_order::{Memory, Monomial};
use std::alloc::Global;
use word_rules::{RuleSide, RuleTable};

/// The index of a rule, and the letter that its right side becomes.
#[derive(Drop)]
pub(crate) struct Renaming {
    pub(crate) index: usize,
    pub(crate) letter: RuleSide,
}

impl Renaming {
    pub(crate) fn new(alloc: Global, index: usize, letter: Monomial) -> Result<Renaming, Memory>
        ensures { IfOk result (λ r. r ≡ record { index = index; letter = letter }) }
    {
        let letter = RuleSide::new(alloc, letter)?;
        Ok(Renaming { index, letter })
    }
}

/// Whether the right side at an index is the word.
fn goes_to(table: &RuleTable, i: usize, word: &Monomial) -> bool
    requires { i < length table.now }
    ensures yes { result ≡ true → (rule_at table.now i).right ≡ Some word.now }
    ensures no { result ≡ false → (rule_at table.now i).right ≢ Some word.now }
{
    match table.right(i) {
        Some(right) => right == word,
        None => false,
    }
}

/// Whether the least word of a rule is the word.
fn has_least(rule: &Rule, word: &Monomial) -> bool
    ensures yes { result ≡ true → rule.now.least ≡ Some word.now }
    ensures no { result ≡ false → rule.now.least ≢ Some word.now }
{
    match &rule.least {
        Some(right) => right == word,
        None => false,
    }
}

/// The renamings of the right sides in the table that are the word. None before the index `first` is.
pub(crate) fn table_renamings(
    alloc: Global,
    table: &RuleTable,
    first: usize,
    word: &Monomial,
    letter: &Monomial,
) -> Result<Vec<Renaming>, Memory>
    requires within { first ≤ length table.now }
    requires lower { (k : ℕ) → k < first → (rule_at table.now k).right ≢ Some word.now }
    ensures { IfOk result (λ v. AreRenamings word.now letter.now table.now (length table.now) v.items) }
{
    let mut renamings = Vec::new(alloc);
    'rules: for index in first..table.len() {
        if goes_to(table, index, word) {
            renamings.push(Renaming::new(alloc, index, letter.copy(alloc)?)?)?;
        }
    }
    Ok(renamings)
}

/// The renamings of the least words in the list that are the word. None before the index `first` is.
pub(crate) fn list_renamings(
    alloc: Global,
    rules: &[Rule],
    first: usize,
    word: &Monomial,
    letter: &Monomial,
) -> Result<Vec<Renaming>, Memory>
    requires within { first ≤ length rules.now }
    requires lower { (k : ℕ) → k < first → (rule_at (rewrite_rules rules.now) k).right ≢ Some word.now }
    ensures { IfOk result (λ v.
        AreRenamings word.now letter.now (rewrite_rules rules.now) (length rules.now) v.items) }
{
    let mut renamings = Vec::new(alloc);
    'rules: for index in first..rules.len() {
        if has_least(&rules[index], word) {
            renamings.push(Renaming::new(alloc, index, letter.copy(alloc)?)?)?;
        }
    }
    Ok(renamings)
}

/// Renames right sides in the table. It takes no memory.
pub(crate) fn rename_table(table: &mut RuleTable, renamings: Vec<Renaming>)
    requires { AreWithin (length table.old) renamings.items }
    ensures { AreSetBy renamings.items table.old table.new }
{
    let mut renamings = renamings;
    'rename: while let Some(renaming) = renamings.pop() {
        table.set_right(renaming.index, Some(renaming.letter));
    }
}

/// Replaces the least word of a rule.
fn set_least(rules: &mut [Rule], index: usize, letter: Monomial)
    requires { index < length rules.old }
    ensures { rewrite_rules rules.new ≡ set (rewrite_rules rules.old) index
        (record { left = (rule_at (rewrite_rules rules.old) index).left; right = Some letter }) }
{
    rules[index].least = Some(letter);
}

/// Renames least words in the list. It takes no memory.
pub(crate) fn rename_list(rules: &mut [Rule], renamings: Vec<Renaming>)
    requires { AreWithin (length rules.old) renamings.items }
    ensures { AreSetBy renamings.items (rewrite_rules rules.old) (rewrite_rules rules.new) }
{
    let mut renamings = renamings;
    'rename: while let Some(renaming) = renamings.pop() {
        set_least(rules, renaming.index, renaming.letter.into_word());
    }
}

/// The same for a vector.
pub(crate) fn rename_rules(rules: &mut Vec<Rule>, renamings: Vec<Renaming>)
    requires { AreWithin (length rules.old.items) renamings.items }
    ensures { AreSetBy renamings.items (rewrite_rules rules.old.items) (rewrite_rules rules.new.items) }
{
    rename_list(rules, renamings);
}
