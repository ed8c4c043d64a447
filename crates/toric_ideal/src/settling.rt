//! Leads of the last degree, numbered again.
ghost use Rattle.std.specs.Prelude.{◌≡◌, ◌<◌, ◌≤◌, ◌+◌, ◌++◌, ℕ, [], Some, length, take, get_or, Contains, IfOk, OnOk, OnErr};
ghost use Rattle.word_rules.specs.Rules.{rule_at};
ghost use Rattle.toric_ideal.specs.Alphabet.{letters_of};
ghost use Rattle.toric_ideal.specs.Listing.{IsSettled, OrdersByDegrees};
ghost use Rattle.toric_ideal.specs.Rewriting.{rewrite_rules};
ghost use Rattle.toric_ideal.specs.State.{listing_of, IsSound};
ghost use Rattle.toric_ideal.specs.Settling.{last_leads, lower_letters, AreNewLetters, CanRenumber, IsLowerOrLetter, IsLowerOrLetterSide, IsNewLetter, IsNewSide};

use crate::Rule;
use crate::alphabet::Alphabet;
use crate::completion::Completion;
use crate::increasing::sorted;
use crate::last_rules::first_of_degree;
use crate::renaming::{Renaming, rename_rules, rename_table};
use monomial_order::{Memory, Monomial, Order};
use std::alloc::Global;
use word_rules::RuleTable;

/// The index of a member.
fn index_of(list: &[Monomial], m: &Monomial) -> usize
    requires { Contains list.now m.now }
    ensures inside { result < length list.now }
    ensures there { get_or list.now result [] ≡ m.now }
{
    let mut index = 0;
    'seek: while index < list.len() && list[index] != *m {
        index += 1;
    }
    index
}

/// The new letter of a lead of the last degree, if the word is the old one. The leads from `first` on are in the order
/// of `leads` now.
fn new_letter(
    alloc: Global,
    alphabet: &Alphabet,
    first: usize,
    leads: &[Monomial],
    word: &Monomial,
) -> Result<Option<Monomial>, Memory>
    requires leads { CanRenumber alphabet.now first leads.now }
    requires word { IsLowerOrLetter (lower_letters alphabet.now first) (last_leads alphabet.now first) word.now }
    ensures { IfOk result (IsNewLetter alphabet.now first leads.now (Some word.now)) }
{
    let x_count = alphabet.order.x_degrees.len();
    let places = word.as_slice().len();
    if places <= x_count || places - x_count <= first {
        return Ok(None);
    }
    let lead = &alphabet.leads[places - x_count - 1];
    let letter = Monomial::variable(alloc, x_count + (first + index_of(leads, lead)))?;
    Ok(Some(letter))
}

/// The new letter of a rule of the table, if its right side is the old one.
fn table_letter(
    alloc: Global,
    alphabet: &Alphabet,
    first: usize,
    leads: &[Monomial],
    table: &RuleTable,
    i: usize,
) -> Result<Option<Monomial>, Memory>
    requires leads { CanRenumber alphabet.now first leads.now }
    requires inside { i < length table.now }
    requires side { IsLowerOrLetterSide (lower_letters alphabet.now first) (last_leads alphabet.now first)
        (rule_at table.now i).right }
    ensures { IfOk result (IsNewLetter alphabet.now first leads.now (rule_at table.now i).right) }
{
    match table.right(i) {
        None => Ok(None),
        Some(word) => new_letter(alloc, alphabet, first, leads, word),
    }
}

/// The new letters of the rules of the table whose right sides are old ones. The right sides before the index `from`
/// are none.
fn table_letters(
    alloc: Global,
    alphabet: &Alphabet,
    first: usize,
    leads: &[Monomial],
    table: &RuleTable,
    from: usize,
) -> Result<Vec<Renaming>, Memory>
    requires leads { CanRenumber alphabet.now first leads.now }
    requires within { from ≤ length table.now }
    requires lower { (i : ℕ) → i < from
        → IsNewSide alphabet.now first leads.now (rule_at table.now i).right (rule_at table.now i).right }
    requires sides { (i : ℕ) → i < length table.now → IsLowerOrLetterSide (lower_letters alphabet.now first)
        (last_leads alphabet.now first) (rule_at table.now i).right }
    ensures { IfOk result (λ v. AreNewLetters alphabet.now first leads.now table.now (length table.now) v.items) }
{
    let mut renamings = Vec::new(alloc);
    'rules: for index in from..table.len() {
        if let Some(letter) = table_letter(alloc, alphabet, first, leads, table, index)? {
            renamings.push(Renaming::new(alloc, index, letter)?)?;
        }
    }
    Ok(renamings)
}

/// The new letter of a rule of the list, if its least word is the old one.
fn list_letter(
    alloc: Global,
    alphabet: &Alphabet,
    first: usize,
    leads: &[Monomial],
    least: &Option<Monomial>,
) -> Result<Option<Monomial>, Memory>
    requires leads { CanRenumber alphabet.now first leads.now }
    requires side { IsLowerOrLetterSide (lower_letters alphabet.now first) (last_leads alphabet.now first) least.now }
    ensures { IfOk result (IsNewLetter alphabet.now first leads.now least.now) }
{
    match least {
        None => Ok(None),
        Some(word) => new_letter(alloc, alphabet, first, leads, word),
    }
}

/// The new letters of the rules of the list whose least words are old ones. The least words before the index `from`
/// are none.
fn list_letters(
    alloc: Global,
    alphabet: &Alphabet,
    first: usize,
    leads: &[Monomial],
    rules: &[Rule],
    from: usize,
) -> Result<Vec<Renaming>, Memory>
    requires leads { CanRenumber alphabet.now first leads.now }
    requires within { from ≤ length rules.now }
    requires lower { (i : ℕ) → i < from → IsNewSide alphabet.now first leads.now
        (rule_at (rewrite_rules rules.now) i).right (rule_at (rewrite_rules rules.now) i).right }
    requires sides { (r : Rule) → Contains rules.now r → IsLowerOrLetterSide (lower_letters alphabet.now first)
        (last_leads alphabet.now first) r.least }
    ensures { IfOk result (λ v.
        AreNewLetters alphabet.now first leads.now (rewrite_rules rules.now) (length rules.now) v.items) }
{
    let mut renamings = Vec::new(alloc);
    'rules: for index in from..rules.len() {
        if let Some(letter) = list_letter(alloc, alphabet, first, leads, &rules[index].least)? {
            renamings.push(Renaming::new(alloc, index, letter)?)?;
        }
    }
    Ok(renamings)
}

/// Replaces the leads from `first` on by as many others. It takes no memory.
fn replace_last(leads: &mut Vec<Monomial>, first: usize, last: Vec<Monomial>)
    requires { first + length last.items ≡ length leads.old.items }
    ensures { leads.new.items ≡ take first leads.old.items ++ last.items }
{
    let mut last = last;
    leads.truncate(first);
    match leads.append(&mut last) {
        Ok(()) => {}
        Err(_full) => unreachable!(),
    }
}

impl Completion {
    /// Numbers the leads of the last degree again, so that they increase in the order. All that takes memory is made
    /// first: the new letters, of the right sides that have one. If there are no such leads, nothing is done.
    pub(crate) fn settle<O: Order>(&mut self, alloc: Global, o: &O) -> Result<(), Memory>
        requires sound { IsSound self.old }
        requires order { OrdersByDegrees (O.order o.now) (letters_of self.old.alphabet).degrees }
        ensures sound { IsSound self.new }
        ensures settled { OnOk result (IsSettled (O.order o.now) (letters_of self.old.alphabet).degrees
            self.old.degree self.old.alphabet.leads.items self.new.alphabet.leads.items) }
        ensures x { self.new.alphabet.order ≡ self.old.alphabet.order }
        ensures zeros { self.new.zeros ≡ self.old.zeros }
        ensures degree { self.new.degree ≡ self.old.degree }
        ensures closed { self.new.closed ≡ self.old.closed }
        ensures err { OnErr result (listing_of self.new ≡ listing_of self.old) }
    {
        let first = self.settled_count;
        if first == self.alphabet.leads.len() {
            return Ok(());
        }
        let (_, unsorted) = self.alphabet.leads.as_slice().split_at(first);
        let last = sorted(alloc, o, unsorted)?;
        let leads = last.as_slice();
        let in_table = table_letters(
            alloc,
            &self.alphabet,
            first,
            leads,
            &self.table,
            self.lower_rules,
        )?;
        let rules = self.rules.as_slice();
        let from = first_of_degree(&self.alphabet.order, rules, self.degree);
        let in_list = list_letters(alloc, &self.alphabet, first, leads, rules, from)?;
        rename_table(&mut self.table, in_table);
        rename_rules(&mut self.rules, in_list);
        replace_last(&mut self.alphabet.leads, first, last);
        Ok(())
    }
}
