//! The pairs of rules that wait for their degree.
ghost use Rattle.std.specs.Prelude.{◌≡◌, ◌≤◌, ◌<◌, ◌+◌, length, OnOk};
ghost use Rattle.word_laws.specs.Words.{word_order_of};
ghost use Rattle.toric_ideal.specs.Alphabet.{letters_of, IsAlphabet};
ghost use Rattle.toric_ideal.specs.Queue.{IsPairQueued, IsQueued};
ghost use Rattle.toric_ideal.specs.Step.{AreSmallWords};

use crate::alphabet::Alphabet;
use crate::index_pair::IndexPair;
use degree_queue::{DEGREE_MAX, DegreeStacks};
use monomial_order::Memory;
use std::alloc::Global;
use word_rules::{Marks, RuleTable};

/// Puts the pair of two rules into the queue, if its degree is above c and at most the greatest one, and the rules do
/// not both go to zero.
fn queue_pair(
    alphabet: &Alphabet,
    c: u32,
    table: &RuleTable,
    pairs: &mut DegreeStacks<IndexPair>,
    i: usize,
    j: usize,
) -> Result<(), Memory>
    requires alphabet { IsAlphabet alphabet.now }
    requires rules { AreSmallWords (letters_of alphabet.now) table.now }
    requires first { i < length table.now }
    requires second { j < length table.now }
    ensures { OnOk result (IsPairQueued (word_order_of (letters_of alphabet.now)) c table.now i j pairs.old pairs.new) }
{
    if table.right(i).is_none() && table.right(j).is_none() {
        return Ok(());
    }
    let degree = alphabet.lcm_degree(table, i, j);
    if degree <= c || degree > DEGREE_MAX {
        return Ok(());
    }
    match pairs.push(
        degree,
        IndexPair {
            first: i,
            second: j,
        },
    ) {
        Ok(()) => Ok(()),
        Err(_pair) => Err(Memory),
    }
}

/// Puts the pairs of rule j with those before it into the queue.
fn queue_pairs_of(
    alphabet: &Alphabet,
    c: u32,
    table: &RuleTable,
    marks: &mut Marks,
    pairs: &mut DegreeStacks<IndexPair>,
    j: usize,
) -> Result<(), Memory>
    requires alphabet { IsAlphabet alphabet.now }
    requires rules { AreSmallWords (letters_of alphabet.now) table.now }
    requires inside { j < length table.now }
    requires queued { IsQueued (word_order_of (letters_of alphabet.now)) c j table.now pairs.old }
    ensures { OnOk result (IsQueued (word_order_of (letters_of alphabet.now)) c (j + 1) table.now pairs.new) }
{
    table.list_sharing(j, marks)?;
    'sharing: for i in marks.indexes() {
        queue_pair(alphabet, c, table, pairs, *i, j)?;
    }
    Ok(())
}

/// Puts the pairs of the rules from the index `count` on into the queue.
pub(crate) fn queue_pairs(
    alloc: Global,
    alphabet: &Alphabet,
    c: u32,
    table: &RuleTable,
    pairs: &mut DegreeStacks<IndexPair>,
    count: usize,
) -> Result<(), Memory>
    requires alphabet { IsAlphabet alphabet.now }
    requires rules { AreSmallWords (letters_of alphabet.now) table.now }
    requires queued { IsQueued (word_order_of (letters_of alphabet.now)) c count table.now pairs.old }
    ensures { OnOk result (IsQueued (word_order_of (letters_of alphabet.now)) c (length table.now) table.now
        pairs.new) }
{
    let mut marks = Marks::new(alloc);
    'rules: for j in count..table.len() {
        queue_pairs_of(alphabet, c, table, &mut marks, pairs, j)?;
    }
    Ok(())
}
