//! Rules with the letters of their sides.
use crate::RuleSide;

/// A rule. The right side is None if it is zero.
#[derive(Drop)]
pub(crate) struct WordRule {
    pub(crate) left: RuleSide,
    pub(crate) right: Option<RuleSide>,
}
