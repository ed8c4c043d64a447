//! Named files, as a trait.
ghost use Rattle.std.specs.Prelude.{◌≡◌, ℕ, ◌≤◌, Option, Some, IfOk, OnOk, IsErrOf};
ghost use Rattle.shelf_io.specs.Counts.{HasRisen};
ghost use Rattle.std.specs.Bool.{OnTrue, OnFalse};
ghost use Rattle.shelf_io.specs.Moments.{IsLater, IsHeld, IsHeldElsewhere, Adds, LeavesWritten};
ghost use Rattle.shelf_io.specs.Shelf.{Files, IsFound, IsOver, IsWithin, KeepsLimit, WritesIfKnown};
ghost use Rattle.shelf_io.specs.declared.shelf.LoadFault.TheVariants.{Memory as no_room};
ghost use Rattle.shelf_io.specs.declared.shelf.WriteFault.TheVariants.{Memory as no_memory};

use std::alloc::{AllocError, AllocFailed, Global};

/// What a load found.
#[derive(Debug, Drop, PartialEq, Eq)]
pub enum Loaded {
    Missing,
    TooLong,
    Bytes(Vec<u8>),
}

#[derive(Clone, Copy, Debug, PartialEq, Eq)]
pub enum LoadFault {
    Failed,
    Memory,
}

#[derive(Clone, Copy, Debug, PartialEq, Eq)]
pub enum WriteFault {
    Failed,
    Memory,
}

impl From<AllocError> for LoadFault {
    ghost from_gives = { λ _ e. e ≡ no_room };

    fn from(_: AllocError) -> Self {
        LoadFault::Memory
    }
}

impl From<AllocError> for WriteFault {
    ghost from_gives = { λ _ e. e ≡ no_memory };

    fn from(_: AllocError) -> Self {
        WriteFault::Memory
    }
}

impl<T: Drop> From<AllocFailed<T>> for WriteFault {
    ghost from_gives = { λ _ e. e ≡ no_memory };

    fn from(_: AllocFailed<T>) -> Self {
        WriteFault::Memory
    }
}

/// Whether there are more bytes than the limit allows.
pub fn is_over(bytes: &[u8], max: Option<u64>) -> bool
    ensures over { OnTrue result (IsOver max bytes.now) }
    ensures within { OnFalse result (IsWithin max bytes.now) }
{
    match max {
        Some(max) => bytes.len() as u64 > max,
        None => false,
    }
}

/// Named files.
///
/// A name is any text. The shelf decides what it means. A stop may come at any moment, in a call or between two.
pub trait Shelf {
    /// The files, if they are known. Once they are unknown, they stay unknown.
    ghost holds: { Self → Option Files };

    /// How often a load or a write has failed.
    ghost faults: { Self → ℕ };

    /// The moment, if moments are known. They are known always or never.
    ghost moment: { Self → Option ℕ };

    /// These files may be found after a stop at some moment from this one on to now.
    ghost may_be_found: { Self → ℕ → Files → Type 0 };

    /// The bytes of a name, if there are at most `max` of them.
    fn load(&mut self, alloc: Global, name: &str, max: Option<u64>) -> Result<Loaded, LoadFault>
        ensures same { holds self.new ≡ holds self.old }
        ensures found { (files : Files) → holds self.old ≡ Some files → IfOk result (IsFound files name.now max) }
        ensures limit { IfOk result (KeepsLimit max) }
        ensures counted { faults self.old ≤ faults self.new }
        ensures failed { IsErrOf result LoadFault.Failed → HasRisen (faults self.old) (faults self.new) }

        // a stop in the call finds just the files held
        ensures later { IsLater (moment self.old) (moment self.new) }
        ensures stops { Adds (moment self.old) (may_be_found self.old) (may_be_found self.new)
            (IsHeld (holds self.old)) };

    /// Puts these bytes under the name, in place of what it had.
    fn write(&mut self, alloc: Global, name: &str, bytes: &[u8]) -> Result<(), WriteFault>
        ensures unchanged { IsErrOf result WriteFault.Memory → holds self.new ≡ holds self.old }
        ensures held { WritesIfKnown result name.now bytes.now (holds self.old) (holds self.new) }
        ensures counted { faults self.old ≤ faults self.new }
        ensures failed { IsErrOf result WriteFault.Failed → HasRisen (faults self.old) (faults self.new) }

        // a stop in the call finds what was held under every other name
        ensures later { IsLater (moment self.old) (moment self.new) }
        ensures stops { Adds (moment self.old) (may_be_found self.old) (may_be_found self.new)
            (IsHeldElsewhere name.now (holds self.old)) }
        ensures left { OnOk result (LeavesWritten (moment self.new) (may_be_found self.new) (holds self.old)
            name.now bytes.now) };

    /// Between two calls a stop finds just the files held.
    ghost only_held: { (shelf : Self) (now : ℕ) (held found : Files) → moment shelf ≡ Some now
        → holds shelf ≡ Some held → may_be_found shelf now found → found ≡ held };

    /// From every moment on, the files held now may be found.
    ghost held_is_found: { (shelf : Self) (now m : ℕ) (held : Files) → moment shelf ≡ Some now → m ≤ now
        → holds shelf ≡ Some held → may_be_found shelf m held };
}
