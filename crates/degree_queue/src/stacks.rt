//! Stacks of items by degree.
ghost use Rattle.std.specs.Prelude.{◌≡◌, ◌+◌, ◌<◌, ◌≤◌, ◌^◌, ◌↔◌, ◌++◌, [], ◌∷◌, length, take, IsNone, IfSome, IfNone, IfErr, OnOk, OnErr};
ghost use Rattle.degree_queue.specs.DegreeQueue.{list_of, SameElsewhere, SameLists};

use crate::queue::DEGREE_MAX;
use std::alloc::{AllocError, Global};
use std::marker::Model;

/// A list of items for each degree, of which only the last item leaves. A degree that was never used has the empty
/// list.
///
/// The items of a degree are in one block of memory. A pop that finds none gives the block back.
#[derive(Drop)]
pub struct DegreeStacks<T> {
    stacks: Vec<Vec<T>>,
}

impl<T> Model for DegreeStacks<T> {
    ghost use Rattle.std.specs.Prelude.{List};

    ghost Value = { List (List T) };

    ghost use Rattle.degree_queue.specs.DegreeStacks.{lists_in};

    ghost view = { λ s. lists_in s.stacks.items };
}

impl<T: Drop> DegreeStacks<T> {
    /// No items. It takes no memory.
    pub fn new(alloc: Global) -> Self
        ensures { result ≡ [] }
    {
        DegreeStacks {
            stacks: Vec::new(alloc),
        }
    }

    /// Makes stacks to the degree.
    fn reach(&mut self, degree: usize) -> Result<(), AllocError>
        requires { degree + 1 < 2 ^ 64 }
        ensures same { SameLists self.old self.new }
        ensures front { take (length self.old) self.new ≡ self.old }
        ensures ok { OnOk result (degree < length self.new) }
        ensures err { OnErr result (self.new ≡ self.old) }
    {
        if degree < self.stacks.len() {
            return Ok(());
        }
        let alloc = *self.stacks.allocator();
        let missing = degree - self.stacks.len() + 1;
        self.stacks.reserve(missing)?;
        'missing: for _stack in 0..missing {
            self.stacks.push_reserved(Vec::new(alloc));
        }
        Ok(())
    }

    /// Puts the item last in its degree, or hands it back if memory runs out.
    pub fn push(&mut self, degree: u32, item: T) -> Result<(), T>
        requires { degree ≤ DEGREE_MAX }
        ensures last { OnOk result (list_of self.new degree ≡ list_of self.old degree ++ item ∷ []) }
        ensures others { SameElsewhere degree self.old self.new }

        // If memory runs out, nothing changes.
        ensures handed_back { IfErr result (λ back. back ≡ item) }
        ensures unchanged { OnErr result (self.new ≡ self.old) }
    {
        let count = self.stacks.len();
        if self.reach(degree as usize).is_err() {
            return Err(item);
        }
        match self.stacks[degree as usize].push(item) {
            Ok(()) => Ok(()),
            Err(failed) => {
                self.stacks.truncate(count);
                Err(failed.value)
            }
        }
    }

    /// Takes out the last item of the degree.
    pub fn pop(&mut self, degree: u32) -> Option<T>
        ensures last { IfSome result (λ item. list_of self.old degree ≡ list_of self.new degree ++ item ∷ []) }
        ensures others { SameElsewhere degree self.old self.new }
        ensures none { IsNone result ↔ (list_of self.old degree ≡ []) }
        ensures unchanged { IfNone result (self.new ≡ self.old) }
    {
        let stack = self.stacks.get_mut(degree as usize)?;
        if let Some(item) = stack.pop() {
            return Some(item);
        }
        stack.shrink_to_fit();
        None
    }
}
