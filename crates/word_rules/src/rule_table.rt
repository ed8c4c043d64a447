//! Tables of rules.
ghost use Rattle.std.specs.Prelude.{◌≡◌, ◌≢◌, ◌<◌, ◌++◌, ◌∷◌, [], length, take, set, None, Some, IsNone, IfSome, OnOk, OnErr};
ghost use Rattle.word_rules.specs.Rules.{rule_at};

use crate::RuleSide;
use crate::table::Table;
use monomial_order::{Memory, Monomial};
use std::alloc::Global;
use std::marker::Model;

/// Rules that rewrite words, in the order in which they were added. A right side that is None is zero.
#[derive(Drop)]
pub struct RuleTable {
    pub(crate) table: Table,
}

impl Model for RuleTable {
    ghost use Rattle.std.specs.Prelude.{List};
    ghost use Rattle.word_rewriting.specs.Rewriting.{RewriteRule};

    ghost Value = { List RewriteRule };

    ghost use Rattle.word_rules.specs.Index.{rules_of, IsIndexed};

    ghost view = { λ t. rules_of t.table.rules.items };

    ghost invariant = { λ t. IsIndexed t.table };
}

impl RuleTable {
    /// No rules. It takes no memory.
    pub fn new(alloc: Global) -> RuleTable
        ensures { result ≡ [] }
    {
        RuleTable {
            table: Table::new(alloc),
        }
    }

    /// How many rules there are.
    pub fn len(&self) -> usize
        ensures { result ≡ length self.now }
    {
        self.table.rules.len()
    }

    /// The left side of a rule.
    pub fn left(&self, i: usize) -> &Monomial
        requires { i < length self.now }
        ensures { result.now ≡ (rule_at self.now i).left }
    {
        self.left_side(i).word()
    }

    pub(crate) fn left_side(&self, i: usize) -> &RuleSide
        requires { i < length self.now }
        ensures { result.now ≡ (rule_at self.now i).left }
    {
        &self.table.rules[i].left
    }

    /// The right side of a rule.
    pub fn right(&self, i: usize) -> Option<&Monomial>
        requires { i < length self.now }
        ensures some { IfSome result (λ v. (rule_at self.now i).right ≡ Some v.now) }
        ensures none { IsNone result → (rule_at self.now i).right ≡ None }
    {
        match self.right_side(i) {
            Some(side) => Some(side.word()),
            None => None,
        }
    }

    pub(crate) fn right_side(&self, i: usize) -> Option<&RuleSide>
        requires { i < length self.now }
        ensures some { IfSome result (λ v. (rule_at self.now i).right ≡ Some v.now) }
        ensures none { IsNone result → (rule_at self.now i).right ≡ None }
    {
        match &self.table.rules[i].right {
            Some(side) => Some(side),
            None => None,
        }
    }

    /// Puts a rule at the end.
    pub fn push(
        &mut self,
        alloc: Global,
        left: Monomial,
        right: Option<Monomial>,
    ) -> Result<(), Memory>
        requires { left ≢ [] }
        ensures last { OnOk result (self.new ≡ self.old ++ record { left = left; right = right } ∷ []) }

        // If memory runs out, nothing changes.
        ensures unchanged { OnErr result (self.new ≡ self.old) }
    {
        let left = RuleSide::new(alloc, left)?;
        let right = match right {
            Some(word) => Some(RuleSide::new(alloc, word)?),
            None => None,
        };
        self.table.push(alloc, left, right)
    }

    /// Takes out the rules from index n on. It takes no memory.
    pub fn truncate(&mut self, n: usize)
        ensures { self.new ≡ take n self.old }
    {
        self.table.truncate(n);
    }

    /// Replaces the right side of a rule. It takes no memory.
    pub fn set_right(&mut self, i: usize, right: Option<RuleSide>)
        requires { i < length self.old }
        ensures { self.new ≡ set self.old i (record { left = (rule_at self.old i).left; right = right }) }
    {
        self.table.set_right(i, right);
    }
}
