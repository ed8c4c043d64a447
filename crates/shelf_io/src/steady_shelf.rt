//! A shelf that never fails.
ghost use Rattle.std.specs.Prelude.{◌≡◌, ◌≤◌, ⊤, [], Some, None, IfOk, IsOk, OnOk, OnErr, IsErrOf};
ghost use Rattle.std.specs.FinMap as files;
ghost use Rattle.shelf_io.specs.Counts.{HasRisen};
ghost use Rattle.shelf_io.specs.Moments.{IsHeld, IsHeldElsewhere, Adds, LeavesWritten};
ghost use Rattle.shelf_io.specs.Shelf.{Files, IsFound, KeepsLimit, WritesIfKnown};
ghost use Rattle.shelf_io.specs.Slots.{IsReserved};
ghost use Rattle.shelf_io.specs.laws.Moments.{not_known};

use crate::shelf::is_over;
use crate::slot::Slot;
use crate::slots::{find, is_admitted, store};
use crate::{LoadFault, Loaded, Shelf, ShelfMemory, WriteFault};
use std::alloc::Global;

/// Files in memory under names that are admitted, with a room for each that is made beforehand. No call fails.
#[derive(Drop)]
pub struct SteadyShelf {
    alloc: Global,
    room: usize,
    slots: Vec<Slot>,
    is_known: bool,
    ghost reserved: { IsReserved room slots.items },
}

impl SteadyShelf {
    ghost use Rattle.shelf_io.specs.SteadyShelf.{steady_state, with_name};

    /// Each name that is admitted gets room for so many bytes.
    pub fn new(alloc: Global, room: usize) -> Self
        ensures { steady_state result ≡ record { room = room; admitted = []; files = Some files.empty } }
    {
        SteadyShelf {
            alloc,
            room,
            slots: Vec::new(alloc),
            is_known: true,
        }
    }

    /// Makes the room of a name.
    pub fn admit(&mut self, name: &str) -> Result<(), ShelfMemory>
        ensures ok { OnOk result (steady_state self.new ≡ with_name (steady_state self.old) name.now) }
        ensures err { OnErr result (steady_state self.new ≡ steady_state self.old) }
    {
        if is_admitted(&self.slots, name) {
            return Ok(());
        }
        let slot = Slot::new(self.alloc, name, self.room)?;
        self.slots.push(slot)?;
        Ok(())
    }
}

impl Shelf for SteadyShelf {
    ghost use Rattle.shelf_io.specs.SteadyShelf.{steady_state, after_write};

    ghost holds = { λ s. (steady_state s).files };

    ghost faults = { λ _. 0 };

    ghost moment = { λ _. None };

    ghost may_be_found = { λ _ _ _. ⊤ };

    ghost only_held = { λ shelf now held found at is. not_known at };

    ghost held_is_found = { λ shelf now m held at le is. tt };

    fn load(&mut self, alloc: Global, name: &str, max: Option<u64>) -> Result<Loaded, LoadFault>
        ensures same { (steady_state self.new).files ≡ (steady_state self.old).files }
        ensures found { (files : Files) → (steady_state self.old).files ≡ Some files
            → IfOk result (IsFound files name.now max) }
        ensures limit { IfOk result (KeepsLimit max) }
        ensures counted { 0 ≤ 0 }
        ensures failed { IsErrOf result LoadFault.Failed → HasRisen 0 0 }
        ensures stops { Adds None (λ _ _. ⊤) (λ _ _. ⊤) (IsHeld (steady_state self.old).files) }
        ensures never_fails { ¬ IsErrOf result LoadFault.Failed }
        ensures after { steady_state self.new ≡ steady_state self.old }
    {
        match find(&self.slots, name) {
            Some(bytes) if is_over(bytes, max) => Ok(Loaded::TooLong),
            Some(bytes) => Ok(Loaded::Bytes(Vec::from_slice(alloc, bytes)?)),
            None => Ok(Loaded::Missing),
        }
    }

    fn write(&mut self, _alloc: Global, name: &str, bytes: &[u8]) -> Result<(), WriteFault>
        ensures held { WritesIfKnown result name.now bytes.now (steady_state self.old).files
            (steady_state self.new).files }
        ensures counted { 0 ≤ 0 }
        ensures stops { Adds None (λ _ _. ⊤) (λ _ _. ⊤) (IsHeldElsewhere name.now (steady_state self.old).files) }
        ensures left { OnOk result (LeavesWritten None (λ _ _. ⊤) (steady_state self.old).files name.now bytes.now) }
        ensures always { IsOk result }
        ensures after { steady_state self.new ≡ after_write (steady_state self.old) name.now bytes.now }
    {
        if bytes.len() > self.room || !store(&mut self.slots, self.room, name, bytes) {
            self.is_known = false;
        }
        Ok(())
    }
}
