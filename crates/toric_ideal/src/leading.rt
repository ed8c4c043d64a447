//! One lead more.
ghost use Rattle.std.specs.Prelude.{◌≡◌, ◌≢◌, ◌≤◌, ◌<◌, ◌++◌, ◌∷◌, [], Some, take, drop, length, false, vec_len, vec_capacity, IfOk, OnOk, OnErr};
ghost use Rattle.word_laws.specs.Words.{IsLeast};
ghost use Rattle.word_rewriting.specs.Completeness.{with_leads};
ghost use Rattle.toric_ideal.specs.Alphabet.{letters_of, IsAlphabet};
ghost use Rattle.toric_ideal.specs.LeadChange.{next_letter, IsLeadChange};
ghost use Rattle.toric_ideal.specs.Leads.{IsLetterLead};
ghost use Rattle.toric_ideal.specs.Listing.{IsNewLead};
ghost use Rattle.toric_ideal.specs.Renaming.{AreSetBy, AreWithin, HasRenamedAround};
ghost use Rattle.toric_ideal.specs.Rewriting.{rewrite_rule};
ghost use Rattle.toric_ideal.specs.State.{listing_of, IsSound};

use crate::Rule;
use crate::alphabet::Alphabet;
use crate::completion::Completion;
use crate::last_rules::first_of_degree;
use crate::renaming::{Renaming, list_renamings, rename_list, rename_table, table_renamings};
use crate::sorting::insertion_index;
use monomial_order::{Memory, Monomial, Order};
use std::alloc::Global;
use word_rules::RuleTable;

impl Alphabet {
    /// Makes m the lead of the next letter.
    fn push_lead(&mut self, alloc: Global, m: &Monomial) -> Result<(), Memory>
        requires alphabet { IsAlphabet self.old }
        requires lead { IsLetterLead (letters_of self.old).degrees m.now }
        ensures alphabet { IsAlphabet self.new }
        ensures letters { OnOk result (letters_of self.new ≡ with_leads (letters_of self.old) (m.now ∷ [])) }
        ensures err { OnErr result (letters_of self.new ≡ letters_of self.old) }
    {
        let lead = m.copy(alloc)?;
        self.leads.reserve(1)?;
        let degree = self.order.degree(m);
        self.order.push_place(degree)?;
        self.leads.push_reserved(lead);
        Ok(())
    }
}

/// Makes m the lead of the next letter, and puts a copy of its rule at the end of the table.
fn push_letter(
    alloc: Global,
    alphabet: &mut Alphabet,
    table: &mut RuleTable,
    m: &Monomial,
    rule: &Rule,
) -> Result<(), Memory>
    requires alphabet { IsAlphabet alphabet.old }
    requires lead { IsLetterLead (letters_of alphabet.old).degrees m.now }
    requires word { rule.now.word ≢ [] }
    ensures alphabet { IsAlphabet alphabet.new }
    ensures letters { OnOk result (letters_of alphabet.new ≡ with_leads (letters_of alphabet.old) (m.now ∷ [])) }
    ensures table { OnOk result (table.new ≡ table.old ++ rewrite_rule rule.now ∷ []) }
    ensures err_letters { OnErr result (letters_of alphabet.new ≡ letters_of alphabet.old) }
    ensures err_table { OnErr result (table.new ≡ table.old) }
{
    let count = table.len();
    let copy = rule.copy(alloc)?;
    table.push(alloc, copy.word, copy.least)?;
    match alphabet.push_lead(alloc, m) {
        Ok(()) => Ok(()),
        Err(memory) => {
            table.truncate(count);
            Err(memory)
        }
    }
}

/// The rule from the word to the letter.
fn rule_to(alloc: Global, word: &Monomial, letter: &Monomial) -> Result<Rule, Memory>
    ensures { IfOk result (λ r. r ≡ record { word = word.now; least = Some letter.now }) }
{
    Ok(Rule {
        word: word.copy(alloc)?,
        least: Some(letter.copy(alloc)?),
    })
}

/// The rule of a new lead, its index in the list, and the right sides that become the letter, in the table and in the
/// list.
#[derive(Drop)]
struct LeadChange {
    rule: Rule,
    index: usize,
    in_table: Vec<Renaming>,
    in_list: Vec<Renaming>,
}

/// Inserts a rule, for which there is room.
fn insert_reserved(rules: &mut Vec<Rule>, index: usize, rule: Rule)
    requires within { index ≤ vec_len rules.old }
    requires room { vec_len rules.old < vec_capacity rules.old }
    ensures { rules.new.items ≡ take index rules.old.items ++ rule ∷ drop index rules.old.items }
{
    match rules.insert(index, rule) {
        Ok(()) => {}
        Err(_full) => unreachable!(),
    }
}

/// Renames right sides in the table and in the list, and inserts the rule, for which there is room.
fn change_rules(table: &mut RuleTable, rules: &mut Vec<Rule>, change: LeadChange)
    requires within { change.index ≤ vec_len rules.old }
    requires room { vec_len rules.old < vec_capacity rules.old }
    requires in_table { AreWithin (length table.old) change.in_table.items }
    requires in_list { AreWithin (length rules.old.items) change.in_list.items }
    ensures table { AreSetBy change.in_table.items table.old table.new }
    ensures rules { HasRenamedAround change.in_list.items rules.old.items rules.new.items change.index change.rule }
{
    rename_table(table, change.in_table);
    rename_list(rules, change.in_list);
    insert_reserved(rules, change.index, change.rule);
}

impl Completion {
    /// The least word with the image m.
    fn standard_word(&self, alloc: Global, m: &Monomial) -> Result<Monomial, Memory>
        requires sound { IsSound self.now }
        requires lead { IsNewLead (listing_of self.now) m.now }
        ensures { IfOk result (IsLeast (letters_of self.now.alphabet) m.now) }
    {
        match self.least(alloc, m)? {
            Some(word) => Ok(word),
            None => unreachable!(),
        }
    }

    /// What changes with the lead m, whose least word and letter are at hand.
    fn change_to(
        &self,
        alloc: Global,
        m: &Monomial,
        word: &Monomial,
        letter: &Monomial,
    ) -> Result<LeadChange, Memory>
        requires sound { IsSound self.now }
        requires lead { IsNewLead (listing_of self.now) m.now }
        requires least { IsLeast (letters_of self.now.alphabet) m.now word.now }
        requires letter { letter.now ≡ next_letter (letters_of self.now.alphabet) }
        ensures { IfOk result (IsLeadChange self.now m.now) }
    {
        let in_table = table_renamings(alloc, &self.table, self.lower_rules, word, letter)?;
        let first = first_of_degree(&self.alphabet.order, self.rules.as_slice(), self.degree);
        let in_list = list_renamings(alloc, self.rules.as_slice(), first, word, letter)?;
        let index = insertion_index(&self.alphabet.order, self.rules.as_slice(), word);
        let rule = rule_to(alloc, word, letter)?;
        Ok(LeadChange {
            rule,
            index,
            in_table,
            in_list,
        })
    }

    /// What changes with the lead m.
    fn lead_change(&self, alloc: Global, m: &Monomial) -> Result<LeadChange, Memory>
        requires sound { IsSound self.now }
        requires lead { IsNewLead (listing_of self.now) m.now }
        ensures { IfOk result (IsLeadChange self.now m.now) }
    {
        let word = self.standard_word(alloc, m)?;
        let letter = Monomial::variable(alloc, self.alphabet.order.places())?;
        self.change_to(alloc, m, &word, &letter)
    }

    /// Makes m the next lead.
    pub(crate) fn push_lead(&mut self, alloc: Global, m: &Monomial) -> Result<(), Memory>
        requires sound { IsSound self.old }
        requires lead { IsNewLead (listing_of self.old) m.now }
        ensures sound { IsSound self.new }
        ensures letters { OnOk result
            (letters_of self.new.alphabet ≡ with_leads (letters_of self.old.alphabet) (m.now ∷ [])) }
        ensures zeros { self.new.zeros ≡ self.old.zeros }
        ensures degree { self.new.degree ≡ self.old.degree }
        ensures closed { OnOk result (self.new.closed ≡ false) }
        ensures err_letters { OnErr result (letters_of self.new.alphabet ≡ letters_of self.old.alphabet) }
        ensures err_rules { OnErr result (self.new.rules.items ≡ self.old.rules.items) }
        ensures err_closed { OnErr result (self.new.closed ≡ self.old.closed) }
    {
        let change = self.lead_change(alloc, m)?;
        self.rules.reserve(1)?;
        push_letter(alloc, &mut self.alphabet, &mut self.table, m, &change.rule)?;
        change_rules(&mut self.table, &mut self.rules, change);
        self.closed = false;
        Ok(())
    }
}
