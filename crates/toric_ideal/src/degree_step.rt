//! One degree of a completion: the rules for its zeros and its pairs.
ghost use Rattle.std.specs.Prelude.{◌≡◌, ◌≤◌, ◌+◌, [], length, Some, None, OnOk, IfSome, IsNone, Contains};
ghost use Rattle.monomial_order.specs.Limits.{degree_max};
ghost use Rattle.monomial_order.specs.Monomial.{weighted_degree};
ghost use Rattle.word_laws.specs.Words.{word_order_of};
ghost use Rattle.word_rewriting.specs.Rewriting.{HasJoinablePair, Rewrites, KeepsRules};
ghost use Rattle.word_rewriting.specs.Completeness.{AreInX};
ghost use Rattle.word_rules.specs.Rules.{rule_at, IsSmallWord};
ghost use Rattle.toric_ideal.specs.Alphabet.{letters_of, IsAlphabet};
ghost use Rattle.toric_ideal.specs.Rewriting.{rewrite_rule, AreExactRules};
ghost use Rattle.toric_ideal.specs.Queue.{IsQueued, JoinsOrLists};
ghost use Rattle.toric_ideal.specs.Step.{AreSmallZeros, HaveDegreesTo, IsGrowing, IsGrown, IsOriented, IsPairAt, KeepsFirst, ZerosVanish};

use crate::Rule;
use crate::alphabet::Alphabet;
use crate::index_pair::IndexPair;
use crate::right_sides::rewrite_right_sides;
use degree_queue::DegreeStacks;
use monomial_order::{Memory, Monomial, Order};
use std::alloc::Global;
use std::cmp::Ordering;
use word_rules::RuleTable;

/// The rule that rewrites the greater one of two words to the other.
fn oriented_words<O: Order>(o: &O, u: Monomial, v: Monomial) -> Option<Rule>
    requires first { IsSmallWord (O.order o.now) u }
    requires second { IsSmallWord (O.order o.now) v }
    ensures none { IsNone result → u ≡ v }
    ensures some { IfSome result (λ r. IsOriented (O.order o.now) (Some u) (Some v) (rewrite_rule r)) }
{
    match o.compare(&u, &v) {
        Ordering::Less => Some(Rule {
            word: v,
            least: Some(u),
        }),
        Ordering::Equal => None,
        Ordering::Greater => Some(Rule {
            word: u,
            least: Some(v),
        }),
    }
}

/// The rule that rewrites the greater one of u and v to the other; None is zero, and less than any word.
fn oriented<O: Order>(o: &O, u: Option<Monomial>, v: Option<Monomial>) -> Option<Rule>
    requires first { IfSome u (IsSmallWord (O.order o.now)) }
    requires second { IfSome v (IsSmallWord (O.order o.now)) }
    ensures none { IsNone result → u ≡ v }
    ensures some { IfSome result (λ r. IsOriented (O.order o.now) u v (rewrite_rule r)) }
{
    match (u, v) {
        (None, None) => None,
        (Some(word), None) => Some(Rule { word, least: None }),
        (None, Some(word)) => Some(Rule { word, least: None }),
        (Some(u), Some(v)) => oriented_words(o, u, v),
    }
}

/// Joins the pair of two rules, if need be by a rule of its degree. Members with a common letter are joined by the
/// rules of smaller degrees: without the letter they have one image and a smaller degree.
pub(crate) fn join_pair(
    alloc: Global,
    alphabet: &Alphabet,
    zeros: &[Monomial],
    c: u32,
    first: usize,
    table: &mut RuleTable,
    i: usize,
    j: usize,
) -> Result<(), Memory>
    requires alphabet { IsAlphabet alphabet.now }
    requires zeros { AreInX (letters_of alphabet.now) zeros.now }
    requires small { c + 1 ≤ degree_max }
    requires growing { IsGrowing (letters_of alphabet.now) zeros.now c first table.old }
    requires pair { IsPairAt (word_order_of (letters_of alphabet.now)) (c + 1) first table.old i j }
    ensures first { KeepsFirst first table.old table.new }
    ensures rules { KeepsRules table.old table.new }
    ensures growing { OnOk result (IsGrowing (letters_of alphabet.now) zeros.now c first table.new) }
    ensures joined { OnOk result (HasJoinablePair table.new (rule_at table.old i) (rule_at table.old j)) }
{
    if table.has_common_letter(i, j) {
        return Ok(());
    }
    let Some((u, v)) = table.different_forms(alloc, &alphabet.order, i, j)? else {
        return Ok(());
    };
    if let Some(rule) = oriented(&alphabet.order, u, v) {
        table.push(alloc, rule.word, rule.least)?;
    }
    Ok(())
}

/// Makes a rule for each zero of the degree c + 1.
fn push_zeros(
    alloc: Global,
    alphabet: &Alphabet,
    zeros: &[Monomial],
    c: u32,
    first: usize,
    table: &mut RuleTable,
) -> Result<(), Memory>
    requires alphabet { IsAlphabet alphabet.now }
    requires zeros { AreInX (letters_of alphabet.now) zeros.now }
    requires degrees { AreSmallZeros (letters_of alphabet.now) zeros.now }
    requires small { c + 1 ≤ degree_max }
    requires growing { IsGrowing (letters_of alphabet.now) zeros.now c first table.old }
    ensures first { KeepsFirst first table.old table.new }
    ensures growing { OnOk result (IsGrowing (letters_of alphabet.now) zeros.now c first table.new) }
    ensures vanish { OnOk result (ZerosVanish (letters_of alphabet.now) (c + 1) table.new zeros.now) }
{
    'zeros: for zero in zeros {
        push_zero(alloc, alphabet, zeros, c, first, table, zero)?;
    }
    Ok(())
}

/// Makes a rule for a zero, if it has the degree c + 1.
fn push_zero(
    alloc: Global,
    alphabet: &Alphabet,
    zeros: &[Monomial],
    c: u32,
    first: usize,
    table: &mut RuleTable,
    zero: &Monomial,
) -> Result<(), Memory>
    requires alphabet { IsAlphabet alphabet.now }
    requires zeros { AreInX (letters_of alphabet.now) zeros.now }
    requires zero { Contains zeros.now zero.now }
    requires degree { weighted_degree (letters_of alphabet.now).degrees zero.now ≤ degree_max }
    requires small { c + 1 ≤ degree_max }
    requires growing { IsGrowing (letters_of alphabet.now) zeros.now c first table.old }
    ensures first { KeepsFirst first table.old table.new }
    ensures rules { KeepsRules table.old table.new }
    ensures growing { OnOk result (IsGrowing (letters_of alphabet.now) zeros.now c first table.new) }
    ensures vanish { OnOk result (weighted_degree (letters_of alphabet.now).degrees zero.now ≡ c + 1
        → Rewrites table.new (Some zero.now) None) }
{
    if alphabet.order.degree(zero) != c + 1 {
        return Ok(());
    }
    if let Some(word) = table.rewrite(alloc, &alphabet.order, zero)? {
        table.push(alloc, word, None)?;
    }
    Ok(())
}

/// Joins the pairs of the degree c + 1, and takes them out of the queue.
fn join_pairs(
    alloc: Global,
    alphabet: &Alphabet,
    zeros: &[Monomial],
    c: u32,
    first: usize,
    table: &mut RuleTable,
    pairs: &mut DegreeStacks<IndexPair>,
) -> Result<(), Memory>
    requires alphabet { IsAlphabet alphabet.now }
    requires zeros { AreInX (letters_of alphabet.now) zeros.now }
    requires small { c + 1 ≤ degree_max }
    requires growing { IsGrowing (letters_of alphabet.now) zeros.now c first table.old }
    requires queued { IsQueued (word_order_of (letters_of alphabet.now)) c first table.old pairs.old }
    ensures first { KeepsFirst first table.old table.new }
    ensures rules { KeepsRules table.old table.new }
    ensures growing { OnOk result (IsGrowing (letters_of alphabet.now) zeros.now c first table.new) }
    ensures queued { OnOk result (IsQueued (word_order_of (letters_of alphabet.now)) (c + 1) first table.new
        pairs.new) }
    ensures joined { OnOk result (JoinsOrLists (word_order_of (letters_of alphabet.now)) (c + 1) first table.new
        table.new []) }
{
    'pairs: while let Some(pair) = pairs.pop(c + 1) {
        join_pair(
            alloc,
            alphabet,
            zeros,
            c,
            first,
            table,
            pair.first,
            pair.second,
        )?;
    }
    Ok(())
}

/// Makes the rules of the degree c + 1.
pub(crate) fn grow(
    alloc: Global,
    alphabet: &Alphabet,
    zeros: &[Monomial],
    c: u32,
    table: &mut RuleTable,
    pairs: &mut DegreeStacks<IndexPair>,
) -> Result<(), Memory>
    requires alphabet { IsAlphabet alphabet.now }
    requires zeros { AreInX (letters_of alphabet.now) zeros.now }
    requires degrees { AreSmallZeros (letters_of alphabet.now) zeros.now }
    requires leads { HaveDegreesTo c (letters_of alphabet.now) }
    requires small { c + 1 ≤ degree_max }
    requires exact { AreExactRules (letters_of alphabet.now) zeros.now c table.old }
    requires queued { IsQueued (word_order_of (letters_of alphabet.now)) c (length table.old) table.old pairs.old }
    ensures first { KeepsFirst (length table.old) table.old table.new }
    ensures grown { OnOk result (IsGrown (letters_of alphabet.now) zeros.now c table.old table.new) }
    ensures queued { OnOk result
        (IsQueued (word_order_of (letters_of alphabet.now)) (c + 1) (length table.old) table.new pairs.new) }
{
    let first = table.len();
    push_zeros(alloc, alphabet, zeros, c, first, table)?;
    join_pairs(alloc, alphabet, zeros, c, first, table, pairs)?;
    rewrite_right_sides(alloc, alphabet, zeros, first, table)
}
