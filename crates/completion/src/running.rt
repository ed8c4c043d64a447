//! Several candidates, and several degrees.
ghost use Rattle.std.specs.Prelude.{◌≡◌, suc, ◌≤◌, [], max, true, false, if◌then◌else◌, OnOk, OnErr};
ghost use Rattle.poly_core.specs.Presentation.{presented};
ghost use Rattle.completion.specs.Completion.{pending_of, AreKept, IsCompletion};

use crate::completion::BOUND_MAX;
use crate::{Completion, Pick};
use monomial_order::{Memory, Order};
use std::alloc::Global;
use word_field::Field;

impl<F: Field, O: Order> Completion<F, O> {
    /// Takes all candidates that wait.
    pub(crate) fn take_all(&mut self, alloc: Global, pick: Pick) -> Result<(), Memory>
        requires completion { IsCompletion F.ops O.order self.old }
        requires begun { self.old.begun ≡ true }
        ensures completion { IsCompletion F.ops O.order self.new }
        ensures begun { self.new.begun ≡ true }
        ensures none_pending { OnOk result (pending_of self.new ≡ []) }
        ensures degree { self.new.degree ≡ self.old.degree }
        ensures kept { AreKept (presented F.ops O.order self.old.presentation) self.old self.new }
    {
        'candidates: while self.pending() > 0 {
            let k = pick.index(self.pending());
            self.take(alloc, k)?;
        }
        Ok(())
    }

    /// Takes all candidates that wait, by the picks first.
    pub(crate) fn take_picked(&mut self, alloc: Global, picks: &[usize]) -> Result<(), Memory>
        requires completion { IsCompletion F.ops O.order self.old }
        requires begun { self.old.begun ≡ true }
        ensures completion { IsCompletion F.ops O.order self.new }
        ensures begun { self.new.begun ≡ true }
        ensures none_pending { OnOk result (pending_of self.new ≡ []) }
        ensures degree { self.new.degree ≡ self.old.degree }
        ensures kept { AreKept (presented F.ops O.order self.old.presentation) self.old self.new }
    {
        'picks: for pick in picks {
            let count = self.pending();
            if count == 0 {
                return Ok(());
            }
            self.take(alloc, *pick % count)?;
        }
        self.take_all(alloc, Pick::First)?;
        Ok(())
    }

    /// Takes all candidates that wait, and ends the degree.
    pub(crate) fn end_degree(&mut self, alloc: Global, pick: Pick) -> Result<(), Memory>
        requires completion { IsCompletion F.ops O.order self.old }
        requires begun { self.old.begun ≡ true }
        ensures completion { IsCompletion F.ops O.order self.new }
        ensures closed { OnOk result (self.new.begun ≡ false) }
        ensures degree { OnOk result (self.new.degree ≡ suc self.old.degree) }
        ensures kept { AreKept (presented F.ops O.order self.old.presentation) self.old self.new }
        ensures memory { OnErr result (self.new.degree ≡ self.old.degree) }
    {
        self.take_all(alloc, pick)?;
        self.close_degree(alloc)?;
        Ok(())
    }

    /// Ends the degree, if it is begun.
    pub(crate) fn end_begun(&mut self, alloc: Global, pick: Pick) -> Result<(), Memory>
        requires completion { IsCompletion F.ops O.order self.old }
        ensures completion { IsCompletion F.ops O.order self.new }
        ensures closed { OnOk result (self.new.begun ≡ false) }
        ensures degree { OnOk result
            (self.new.degree ≡ (if self.old.begun then suc self.old.degree else self.old.degree)) }
        ensures kept { AreKept (presented F.ops O.order self.old.presentation) self.old self.new }
        ensures memory { OnErr result (self.new.degree ≡ self.old.degree) }
    {
        if self.begun {
            self.end_degree(alloc, pick)
        } else {
            Ok(())
        }
    }

    /// Closes all degrees up to d, from the next one on.
    pub(crate) fn close_to(&mut self, alloc: Global, d: u32, pick: Pick) -> Result<(), Memory>
        requires completion { IsCompletion F.ops O.order self.old }
        requires not_begun { self.old.begun ≡ false }
        requires small { d ≤ BOUND_MAX }
        ensures completion { IsCompletion F.ops O.order self.new }
        ensures closed { OnOk result (self.new.begun ≡ false) }
        ensures degree { OnOk result (self.new.degree ≡ max d self.old.degree) }
        ensures kept { AreKept (presented F.ops O.order self.old.presentation) self.old self.new }
        ensures memory { OnErr result (self.old.degree ≤ self.new.degree) }
    {
        'degrees: while self.degree < d {
            self.begin_degree(alloc)?;
            self.end_degree(alloc, pick)?;
        }
        Ok(())
    }
}
