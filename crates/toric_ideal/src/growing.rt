//! Rules to a greater degree.
ghost use Rattle.std.specs.Prelude.{◌≡◌, ◌≤◌, length, IfOk, OnOk, OnErr};
ghost use Rattle.monomial_order.specs.Limits.{degree_max};
ghost use Rattle.word_laws.specs.Words.{word_order_of};
ghost use Rattle.word_rewriting.specs.Completeness.{AreInX};
ghost use Rattle.toric_ideal.specs.Alphabet.{letters_of, IsAlphabet};
ghost use Rattle.toric_ideal.specs.Listing.{AreRules};
ghost use Rattle.toric_ideal.specs.Rewriting.{AreExactRules, AreSameRules};
ghost use Rattle.toric_ideal.specs.Queue.{IsQueued};
ghost use Rattle.toric_ideal.specs.Step.{AreSmallZeros, HaveDegreesTo, IsExtension, KeepsFirst};

use crate::Rule;
use crate::alphabet::Alphabet;
use crate::degree_step::grow;
use crate::index_pair::IndexPair;
use crate::queueing::queue_pairs;
use crate::sorting::sorted_rules;
use degree_queue::DegreeStacks;
use monomial_order::{Memory, Monomial};
use std::alloc::Global;
use word_rules::RuleTable;

/// Makes the rules of the degrees above `from` and up to `to`. The pairs of the first rules, `count` of them, are in
/// the queue; the result says of how many rules they are afterwards.
pub(crate) fn grow_to(
    alloc: Global,
    alphabet: &Alphabet,
    zeros: &[Monomial],
    from: u32,
    to: u32,
    table: &mut RuleTable,
    pairs: &mut DegreeStacks<IndexPair>,
    count: usize,
) -> Result<usize, Memory>
    requires alphabet { IsAlphabet alphabet.now }
    requires zeros { AreInX (letters_of alphabet.now) zeros.now }
    requires degrees { AreSmallZeros (letters_of alphabet.now) zeros.now }
    requires leads { HaveDegreesTo from (letters_of alphabet.now) }
    requires above { from ≤ to }
    requires small { to ≤ degree_max }
    requires exact { AreExactRules (letters_of alphabet.now) zeros.now from table.old }
    requires queued { IsQueued (word_order_of (letters_of alphabet.now)) from count table.old pairs.old }
    ensures first { KeepsFirst (length table.old) table.old table.new }
    ensures grown { OnOk result (IsExtension (letters_of alphabet.now) zeros.now from to table.old table.new) }
    ensures queued { IfOk result (λ n. IsQueued (word_order_of (letters_of alphabet.now)) to n table.new pairs.new) }
{
    let mut degree = from;
    let mut queued_count = count;
    'degrees: while degree < to {
        queue_pairs(alloc, alphabet, degree, table, pairs, queued_count)?;
        queued_count = table.len();
        grow(alloc, alphabet, zeros, degree, table, pairs)?;
        degree += 1;
    }
    Ok(queued_count)
}

/// The same, with the rules in the order of their words too.
pub(crate) fn grow_rules(
    alloc: Global,
    alphabet: &Alphabet,
    zeros: &[Monomial],
    from: u32,
    to: u32,
    rules: &mut Vec<Rule>,
    table: &mut RuleTable,
    pairs: &mut DegreeStacks<IndexPair>,
    count: usize,
) -> Result<usize, Memory>
    requires alphabet { IsAlphabet alphabet.now }
    requires zeros { AreInX (letters_of alphabet.now) zeros.now }
    requires degrees { AreSmallZeros (letters_of alphabet.now) zeros.now }
    requires leads { HaveDegreesTo from (letters_of alphabet.now) }
    requires above { from ≤ to }
    requires small { to ≤ degree_max }
    requires rules { AreRules (letters_of alphabet.now) zeros.now from rules.old.items }
    requires same { AreSameRules rules.old.items table.old }
    requires queued { IsQueued (word_order_of (letters_of alphabet.now)) from count table.old pairs.old }
    ensures first { KeepsFirst (length table.old) table.old table.new }
    ensures rules { OnOk result (AreRules (letters_of alphabet.now) zeros.now to rules.new.items) }
    ensures same { OnOk result (AreSameRules rules.new.items table.new) }
    ensures queued { IfOk result (λ n. IsQueued (word_order_of (letters_of alphabet.now)) to n table.new pairs.new) }
    ensures err { OnErr result (rules.new.items ≡ rules.old.items) }
{
    let first = table.len();
    let queued_count = grow_to(alloc, alphabet, zeros, from, to, table, pairs, count)?;
    let mut new = sorted_rules(alloc, &alphabet.order, table, first)?;
    rules.append(&mut new)?;
    Ok(queued_count)
}
