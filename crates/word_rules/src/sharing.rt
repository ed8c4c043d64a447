//! Rules whose left sides share a letter.
ghost use Rattle.std.specs.Prelude.{◌<◌, length, OnOk};
ghost use Rattle.word_rules.specs.Index.{lefts_of, rules_of, IsIndexed};
ghost use Rattle.word_rules.specs.Rules.{AreSharing};
ghost use Rattle.word_rules.specs.Sharing.{AddsAll};

use crate::table::Table;
use crate::{Marks, RuleTable};
use monomial_order::Memory;

impl Table {
    /// Lists too the indexes of the rules before rule j whose left sides have the letter.
    fn mark_letter(&self, letter: usize, j: usize, marks: &mut Marks) -> Result<(), Memory>
        requires indexed { IsIndexed self.now }
        requires inside { j < length self.now.rules.items }
        ensures { OnOk result (AddsAll (lefts_of self.now.rules.items) letter j marks.old marks.new) }
    {
        'indexes: for i in self.by_letter.get(letter) {
            if *i < j && self.rules[*i].left.word().exponent(letter) > 0 {
                marks.add(*i)?;
            }
        }
        Ok(())
    }

    /// Lists the indexes of the rules before rule j whose left sides share a letter with that of rule j.
    fn list_sharing(&self, j: usize, marks: &mut Marks) -> Result<(), Memory>
        requires indexed { IsIndexed self.now }
        requires inside { j < length self.now.rules.items }
        ensures { OnOk result (AreSharing (rules_of self.now.rules.items) j marks.new) }
    {
        marks.clear();
        'letters: for factor in self.rules[j].left.factors() {
            self.mark_letter(factor.letter, j, marks)?;
        }
        Ok(())
    }
}

impl RuleTable {
    /// Lists the indexes of the earlier rules whose left sides share a letter with that of rule j, each once, in place
    /// of what was listed.
    pub fn list_sharing(&self, j: usize, marks: &mut Marks) -> Result<(), Memory>
        requires { j < length self.now }
        ensures { OnOk result (AreSharing self.now j marks.new) }
    {
        self.table.list_sharing(j, marks)
    }
}
