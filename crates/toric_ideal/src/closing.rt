//! Whether the rules divide every reducible word.
ghost use Rattle.std.specs.Prelude.{◌≡◌, ◌≤◌, ◌<◌, ℕ, true, false, length, IsOk, IfOk, OnErr};
ghost use Rattle.word_laws.specs.Words.{word_order_of};
ghost use Rattle.toric_ideal.specs.Alphabet.{letters_of, IsAlphabet};
ghost use Rattle.toric_ideal.specs.Closing.{closing_max, with_closed, CanClose, HasMissedWord, IsPairJoined, JoinsPairsOf, ShowsMissedWord};
ghost use Rattle.toric_ideal.specs.Listing.{IsClosed};
ghost use Rattle.toric_ideal.specs.State.{listing_of, IsSound};

use crate::alphabet::Alphabet;
use crate::completion::Completion;
use monomial_order::{Memory, Monomial};
use std::alloc::Global;
use word_rules::{Marks, RuleTable};

/// Whether the pair of two rules is joined, if its degree is above c.
fn is_joined(
    alloc: Global,
    alphabet: &Alphabet,
    zeros: &[Monomial],
    c: u32,
    table: &RuleTable,
    i: usize,
    j: usize,
) -> Result<bool, Memory>
    requires alphabet { IsAlphabet alphabet.now }
    requires rules { CanClose (letters_of alphabet.now) zeros.now c table.now }
    requires first { i < length table.now }
    requires second { j < length table.now }
    ensures yes { IfOk result (λ r. r ≡ true → IsPairJoined (word_order_of (letters_of alphabet.now)) c table.now i j) }
    ensures no { IfOk result (λ r. r ≡ false → ShowsMissedWord (letters_of alphabet.now) zeros.now table.now) }
{
    if alphabet.lcm_degree(table, i, j) <= c {
        return Ok(true);
    }
    match table.different_forms(alloc, &alphabet.order, i, j)? {
        None => Ok(true),
        Some(_different) => Ok(false),
    }
}

/// Whether the pairs of a rule with those before it are joined.
fn are_joined(
    alloc: Global,
    alphabet: &Alphabet,
    zeros: &[Monomial],
    c: u32,
    table: &RuleTable,
    marks: &mut Marks,
    j: usize,
) -> Result<bool, Memory>
    requires alphabet { IsAlphabet alphabet.now }
    requires rules { CanClose (letters_of alphabet.now) zeros.now c table.now }
    requires inside { j < length table.now }
    ensures yes { IfOk result (λ r. r ≡ true → JoinsPairsOf (word_order_of (letters_of alphabet.now)) c table.now j) }
    ensures no { IfOk result (λ r. r ≡ false → ShowsMissedWord (letters_of alphabet.now) zeros.now table.now) }
{
    table.list_sharing(j, marks)?;
    'sharing: for i in marks.indexes() {
        if !is_joined(alloc, alphabet, zeros, c, table, *i, j)? {
            return Ok(false);
        }
    }
    Ok(true)
}

/// Whether all pairs of rules are joined.
pub(crate) fn all_joined(
    alloc: Global,
    alphabet: &Alphabet,
    zeros: &[Monomial],
    c: u32,
    table: &RuleTable,
) -> Result<bool, Memory>
    requires alphabet { IsAlphabet alphabet.now }
    requires rules { CanClose (letters_of alphabet.now) zeros.now c table.now }
    ensures yes { IfOk result (λ r. r ≡ true → (j : ℕ) → j < length table.now
        → JoinsPairsOf (word_order_of (letters_of alphabet.now)) c table.now j) }
    ensures no { IfOk result (λ r. r ≡ false → ShowsMissedWord (letters_of alphabet.now) zeros.now table.now) }
{
    let mut marks = Marks::new(alloc);
    'rules: for j in 0..table.len() {
        if !are_joined(alloc, alphabet, zeros, c, table, &mut marks, j)? {
            return Ok(false);
        }
    }
    Ok(true)
}

impl Completion {
    /// Whether the word of a rule divides every reducible word.
    pub(crate) fn close(&mut self, alloc: Global) -> Result<bool, Memory>
        requires sound { IsSound self.old }
        requires small { self.old.degree ≤ closing_max }
        ensures sound { IsSound self.new }
        ensures yes { IfOk result (λ r. r ≡ true → IsClosed (listing_of self.old)) }
        ensures no { IfOk result (λ r. r ≡ false → HasMissedWord (listing_of self.old)) }
        ensures state { IfOk result (λ r. listing_of self.new ≡ with_closed r (listing_of self.old)) }
        ensures known { self.old.closed ≡ true → IsOk result }
        ensures memory { OnErr result (listing_of self.new ≡ listing_of self.old) }
    {
        if self.closed {
            return Ok(true);
        }
        let closed = all_joined(
            alloc,
            &self.alphabet,
            self.zeros.as_slice(),
            self.degree,
            &self.table,
        )?;
        self.closed = closed;
        Ok(closed)
    }
}
