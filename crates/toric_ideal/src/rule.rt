//! Rules.
ghost use Rattle.std.specs.Prelude.{◌≡◌, IfOk};

use monomial_order::{Memory, Monomial};
use std::alloc::Global;

/// A minimal reducible word, and the least word with the same image: None if the image is a multiple of a zero.
#[derive(Drop)]
pub struct Rule {
    pub word: Monomial,
    pub least: Option<Monomial>,
}

/// A copy of the least word.
fn copy_least(alloc: Global, least: &Option<Monomial>) -> Result<Option<Monomial>, Memory>
    ensures { IfOk result (λ o. o ≡ least.now) }
{
    match least {
        None => Ok(None),
        Some(v) => Ok(Some(v.copy(alloc)?)),
    }
}

impl Rule {
    pub(crate) fn copy(&self, alloc: Global) -> Result<Rule, Memory>
        ensures { IfOk result (λ r. r ≡ self.now) }
    {
        Ok(Rule {
            word: self.word.copy(alloc)?,
            least: copy_least(alloc, &self.least)?,
        })
    }
}
