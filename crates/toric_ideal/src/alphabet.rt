//! The letters of words.
ghost use Rattle.std.specs.Prelude.{◌≡◌, ◌≤◌, ◌<◌, true, length, IfOk};
ghost use Rattle.monomial_order.specs.Limits.{degree_max, exponent_max};
ghost use Rattle.monomial_order.specs.Monomial.{least_common_multiple};
ghost use Rattle.monomial_order.specs.Ranges.{all_between};
ghost use Rattle.word_laws.specs.Words.{word_order_of};
ghost use Rattle.word_rules.specs.Rules.{rule_at};
ghost use Rattle.toric_ideal.specs.Alphabet.{letters_of, IsAlphabet};
ghost use Rattle.toric_ideal.specs.Leads.{AreLetterLeads};

use crate::copies::copy_monomials;
use monomial_order::{Memory, Monomial, Order, WordOrder};
use std::alloc::Global;
use word_rules::RuleTable;

/// The letters x_1, .., x_n, and s_1, .., s_r for the leads. Each s has the degree of its lead.
#[derive(Drop)]
pub(crate) struct Alphabet {
    pub(crate) order: WordOrder,
    pub(crate) leads: Vec<Monomial>,
}

impl Alphabet {
    pub(crate) fn new(
        alloc: Global,
        x_degrees: &[u32],
        leads: Vec<Monomial>,
    ) -> Result<Alphabet, Memory>
        requires degrees { all_between 1 degree_max x_degrees.now ≡ true }
        requires leads { AreLetterLeads x_degrees.now leads.items }
        ensures degrees { IfOk result (λ a. a.order.x_degrees.items ≡ x_degrees.now) }
        ensures leads { IfOk result (λ a. a.leads.items ≡ leads.items) }
        ensures alphabet { IfOk result IsAlphabet }
    {
        let mut order = WordOrder::new(alloc, x_degrees)?;
        'leads: for lead in &leads {
            let degree = order.degree(lead);
            order.push_place(degree)?;
        }
        Ok(Alphabet { order, leads })
    }

    pub(crate) fn copy(&self, alloc: Global) -> Result<Alphabet, Memory>
        requires { IsAlphabet self.now }
        ensures degrees { IfOk result (λ a. a.order.x_degrees.items ≡ self.now.order.x_degrees.items) }
        ensures leads { IfOk result (λ a. a.leads.items ≡ self.now.leads.items) }
        ensures alphabet { IfOk result IsAlphabet }
    {
        let leads = copy_monomials(alloc, self.leads.as_slice())?;
        Alphabet::new(alloc, self.order.x_degrees.as_slice(), leads)
    }

    /// The degree of the least common multiple of the left sides of two rules.
    pub(crate) fn lcm_degree(&self, table: &RuleTable, i: usize, j: usize) -> u32
        requires alphabet { IsAlphabet self.now }
        requires first { i < length table.now }
        requires second { j < length table.now }
        requires small { (word_order_of (letters_of self.now)).degree
            (least_common_multiple (rule_at table.now i).left (rule_at table.now j).left) ≤ exponent_max }
        ensures { result ≡ (word_order_of (letters_of self.now)).degree
            (least_common_multiple (rule_at table.now i).left (rule_at table.now j).left) }
    {
        let x_degrees = self.order.x_degrees.as_slice();
        table.lcm_degree(x_degrees, self.order.s_degrees.as_slice(), i, j)
    }
}
