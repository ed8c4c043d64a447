//! Tables of rules that rewrite words, with an index by letters.
//!
//! A left side that divides a word is found by two of its letters: the greatest one and the next. The rules whose left
//! sides share a letter are found in a list for each letter. So the time of a step of rewriting grows with the number
//! of letters in the word, and with the number of rules that have two of them as their greatest, but not with the
//! number of all letters or of all rules.
#![tactic(auto)]

mod buckets;
mod common_letters;
mod degrees;
mod factor;
mod marks;
mod pairs;
mod rewriting;
mod rule_side;
mod rule_table;
mod scratch;
mod searching;
mod sharing;
mod table;
mod word_rule;

pub use marks::Marks;
pub use rule_side::RuleSide;
pub use rule_table::RuleTable;
