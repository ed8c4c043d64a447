//! Critical pairs that wait for their degrees.
ghost use Rattle.std.specs.Prelude.{◌≡◌, [], ◌∷◌, IfOk, OnOk};
ghost use Rattle.degree_queue.specs.DegreeQueue.{list_of, SameElsewhere};
ghost use Rattle.quotient_gb.specs.CriticalPairs.{IsFilled};

use crate::critical_pair::CriticalPair;
use degree_queue::{DEGREE_MAX, DegreeQueue};
use monomial_order::Memory;
use std::alloc::Global;

/// Puts a pair into the list of its degree, if that is at most the greatest one: no other is ever needed.
fn push_pair(waiting: &mut DegreeQueue<CriticalPair>, pair: CriticalPair) -> Result<(), Memory>
    ensures { OnOk result (IsFilled waiting.old (pair ∷ []) waiting.new) }
{
    if pair.degree > DEGREE_MAX {
        return Ok(());
    }
    match waiting.push(pair.degree, pair) {
        Ok(()) => Ok(()),
        Err(_back) => Err(Memory),
    }
}

/// Puts pairs into the lists of their degrees.
pub(crate) fn push_waiting(
    waiting: &mut DegreeQueue<CriticalPair>,
    pairs: &[CriticalPair],
) -> Result<(), Memory>
    ensures { OnOk result (IsFilled waiting.old pairs.now waiting.new) }
{
    'pairs: for w in pairs {
        push_pair(waiting, *w)?;
    }
    Ok(())
}

/// Takes out the pairs of a degree.
pub(crate) fn take_waiting(
    alloc: Global,
    waiting: &mut DegreeQueue<CriticalPair>,
    degree: u32,
) -> Result<Vec<CriticalPair>, Memory>
    ensures all { IfOk result (λ v. v.items ≡ list_of waiting.old degree) }
    ensures others { OnOk result (SameElsewhere degree waiting.old waiting.new) }
{
    let mut pairs = Vec::new(alloc);
    'items: while let Some(w) = waiting.pop_front(degree) {
        pairs.push(w)?;
    }
    Ok(pairs)
}
