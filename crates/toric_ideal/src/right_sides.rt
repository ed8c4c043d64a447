//! Right sides in normal form.
ghost use Rattle.std.specs.Prelude.{◌≡◌, ◌≤◌, ◌<◌, ℕ, length, IfOk, OnOk, OnErr};
ghost use Rattle.word_rewriting.specs.Rewriting.{IsInNormalForm, IsNormalForm};
ghost use Rattle.word_rules.specs.Rules.{rule_at};
ghost use Rattle.toric_ideal.specs.Alphabet.{letters_of, IsAlphabet};
ghost use Rattle.toric_ideal.specs.Step.{AreSmallRules, IsCleaned, IsRewrittenAt, KeepsFirst};

use crate::alphabet::Alphabet;
use monomial_order::{Memory, Monomial};
use std::alloc::Global;
use word_rules::{RuleSide, RuleTable};

/// The normal form of a right side.
fn right_form(
    alloc: Global,
    alphabet: &Alphabet,
    zeros: &[Monomial],
    table: &RuleTable,
    i: usize,
) -> Result<Option<Monomial>, Memory>
    requires alphabet { IsAlphabet alphabet.now }
    requires rules { AreSmallRules (letters_of alphabet.now) zeros.now table.now }
    requires inside { i < length table.now }
    ensures { IfOk result (IsNormalForm table.now (rule_at table.now i).right) }
{
    match table.right(i) {
        Some(word) => table.rewrite(alloc, &alphabet.order, word),
        None => Ok(None),
    }
}

/// A word as a right side, or none.
fn right_side(alloc: Global, word: Option<Monomial>) -> Result<Option<RuleSide>, Memory>
    ensures { IfOk result (λ s. s ≡ word) }
{
    match word {
        Some(word) => Ok(Some(RuleSide::new(alloc, word)?)),
        None => Ok(None),
    }
}

/// Rewrites one right side.
fn rewrite_right_side(
    alloc: Global,
    alphabet: &Alphabet,
    zeros: &[Monomial],
    table: &mut RuleTable,
    i: usize,
) -> Result<(), Memory>
    requires alphabet { IsAlphabet alphabet.now }
    requires rules { AreSmallRules (letters_of alphabet.now) zeros.now table.old }
    requires inside { i < length table.old }
    ensures rewritten { OnOk result (IsRewrittenAt (letters_of alphabet.now) zeros.now table.old table.new i) }
    ensures err { OnErr result (table.new ≡ table.old) }
{
    let rewritten = right_form(alloc, alphabet, zeros, table, i)?;
    table.set_right(i, right_side(alloc, rewritten)?);
    Ok(())
}

/// Rewrites the right sides from the index `first` on.
pub(crate) fn rewrite_right_sides(
    alloc: Global,
    alphabet: &Alphabet,
    zeros: &[Monomial],
    first: usize,
    table: &mut RuleTable,
) -> Result<(), Memory>
    requires alphabet { IsAlphabet alphabet.now }
    requires rules { AreSmallRules (letters_of alphabet.now) zeros.now table.old }
    requires within { first ≤ length table.old }
    requires normal { (k : ℕ) → k < first → IsInNormalForm table.old (rule_at table.old k).right }
    ensures first { KeepsFirst first table.old table.new }
    ensures cleaned { OnOk result (IsCleaned (letters_of alphabet.now) zeros.now table.old table.new
        (length table.old)) }
{
    let count = table.len();
    'rules: for i in first..count {
        rewrite_right_side(alloc, alphabet, zeros, table, i)?;
    }
    Ok(())
}
