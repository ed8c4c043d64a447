//! A completion to a degree.
ghost use Rattle.std.specs.Prelude.{◌≡◌, ◌≤◌, ◌<◌, ◌↔◌, [], true, Contains, IfOk, OnOk, OnErr};
ghost use Rattle.monomial_order.specs.Limits.{degree_max};
ghost use Rattle.monomial_order.specs.Monomial.{Exponents};
ghost use Rattle.monomial_order.specs.Ranges.{all_between};
ghost use Rattle.toric_ideal.specs.Alphabet.{letters_of};
ghost use Rattle.toric_ideal.specs.Leads.{letters};
ghost use Rattle.toric_ideal.specs.Listing.{AgreeTo, AreZeros};
ghost use Rattle.toric_ideal.specs.State.{IsSound};

use crate::Rule;
use crate::alphabet::Alphabet;
use crate::copies::copy_monomials;
use crate::growing::grow_rules;
use crate::index_pair::IndexPair;
use crate::new_zeros::has_zero_above;
use degree_queue::DegreeStacks;
use monomial_order::{Memory, Monomial};
use std::alloc::Global;
use word_rules::RuleTable;

/// The letters, the monomials whose multiples count as zero, and the rules of degree at most `degree`: in the order of
/// their words, and in a table that rewrites. The pairs of the first rules of the table, `queued_count` of them, wait
/// in the queue for their degree. The first leads, `settled_count` of them, have degrees less than `degree`, and so do
/// the words of the first rules of the table, `lower_rules` of them: those that were there when the degree was set.
#[derive(Drop)]
pub(crate) struct Completion {
    pub(crate) alphabet: Alphabet,
    pub(crate) zeros: Vec<Monomial>,
    pub(crate) degree: u32,
    pub(crate) rules: Vec<Rule>,
    pub(crate) closed: bool,
    pub(crate) table: RuleTable,
    pub(crate) pairs: DegreeStacks<IndexPair>,
    pub(crate) queued_count: usize,
    pub(crate) settled_count: usize,
    pub(crate) lower_rules: usize,
}

impl Completion {
    /// No lead, no zero, and the degree 0.
    pub(crate) fn new(alloc: Global, x_degrees: &[u32]) -> Result<Completion, Memory>
        requires { all_between 1 degree_max x_degrees.now ≡ true }
        ensures sound { IfOk result IsSound }
        ensures letters { IfOk result (λ w. letters_of w.alphabet ≡ letters x_degrees.now []) }
        ensures zeros { IfOk result (λ w. w.zeros.items ≡ []) }
        ensures degree { IfOk result (λ w. w.degree ≡ 0) }
    {
        Ok(Completion {
            alphabet: Alphabet::new(alloc, x_degrees, Vec::new(alloc))?,
            zeros: Vec::new(alloc),
            degree: 0,
            rules: Vec::new(alloc),
            closed: false,
            table: RuleTable::new(alloc),
            pairs: DegreeStacks::new(alloc),
            queued_count: 0,
            settled_count: 0,
            lower_rules: 0,
        })
    }

    /// Goes on to a greater degree, with the zeros of that degree.
    pub(crate) fn extend_to(
        &mut self,
        alloc: Global,
        c: u32,
        zero: &[Monomial],
    ) -> Result<(), Memory>
        requires sound { IsSound self.old }
        requires above { self.old.degree < c }
        requires small { c ≤ degree_max }
        requires zero { AreZeros (letters_of self.old.alphabet).degrees c zero.now }
        requires agree { AgreeTo (letters_of self.old.alphabet).degrees self.old.degree self.old.zeros.items zero.now }
        ensures sound { IsSound self.new }
        ensures alphabet { self.new.alphabet ≡ self.old.alphabet }
        ensures zeros { OnOk result (self.new.zeros.items ≡ zero.now) }
        ensures degree { OnOk result (self.new.degree ≡ c) }
        ensures closed { OnOk result (self.new.closed ≡ true ↔ (self.old.closed ≡ true ×
            ((z : Exponents) → Contains zero.now z → Contains self.old.zeros.items z))) }
        ensures err_zeros { OnErr result (self.new.zeros ≡ self.old.zeros) }
        ensures err_degree { OnErr result (self.new.degree ≡ self.old.degree) }
        ensures err_rules { OnErr result (self.new.rules.items ≡ self.old.rules.items) }
        ensures err_closed { OnErr result (self.new.closed ≡ self.old.closed) }
    {
        let zeros = copy_monomials(alloc, zero)?;
        if self.closed && !has_zero_above(&self.alphabet, zero, self.degree) {
            self.zeros = zeros;
            self.degree = c;
            self.settled_count = self.alphabet.leads.len();
            self.lower_rules = self.table.len();
            return Ok(());
        }
        let first = self.table.len();
        match grow_rules(
            alloc,
            &self.alphabet,
            zeros.as_slice(),
            self.degree,
            c,
            &mut self.rules,
            &mut self.table,
            &mut self.pairs,
            self.queued_count,
        ) {
            Ok(queued_count) => {
                self.zeros = zeros;
                self.degree = c;
                self.closed = false;
                self.queued_count = queued_count;
                self.settled_count = self.alphabet.leads.len();
                self.lower_rules = first;
                Ok(())
            }
            Err(memory) => {
                self.table.truncate(first);
                self.pairs = DegreeStacks::new(alloc);
                self.queued_count = 0;
                Err(memory)
            }
        }
    }
}
