//! A shelf in memory.
ghost use Rattle.std.specs.Prelude.{◌≡◌, ◌≤◌, ◌⊎◌, ◌↔◌, [], ◌∷◌, ◌++◌, length, take, map, find, reverse, string_bytes, Some, None, IfOk, OnOk, OnErr, IsErrOf, IsTrue, option_copied};
ghost use Rattle.std.specs.FinMap as files;
ghost use Rattle.std.specs.Str.{bytes_eq};
ghost use Rattle.shelf_io.specs.Calls.{no_calls, is_stop, next_fails, after_call, with_failing};
ghost use Rattle.shelf_io.specs.Counts.{HasRisen};
ghost use Rattle.shelf_io.specs.Moments.{IsLater, IsHeld, IsHeldElsewhere, Adds, LeavesWritten};
ghost use Rattle.shelf_io.specs.Shelf.{Files, IsFound, KeepsLimit, WritesIfKnown};
ghost use Rattle.shelf_io.specs.Writes.{written_of, files_after, IsStopSince};
ghost use Rattle.shelf_io.specs.laws.Writes.{only_now, held_since};
ghost use Rattle.std.proofs.lemmas.Option.{same_Some};

use crate::calls::Calls;
use crate::shelf::is_over;
use crate::write_record::WriteRecord;
use crate::{LoadFault, Loaded, Shelf, ShelfMemory, WriteFault};
use std::alloc::{AllocError, Global};

/// Files in memory, as the record of their writes. Loads and writes count together from 1. Those that `fail_at` names
/// fail, and all from that of `stop_at` on.
#[derive(Drop)]
pub struct MemoryShelf {
    alloc: Global,
    writes: Vec<WriteRecord>,
    calls: Calls,
    keep: usize,
}

/// Records a write that leaves the first `count` bytes under the name.
fn record(
    alloc: Global,
    writes: &mut Vec<WriteRecord>,
    name: &str,
    bytes: &[u8],
    count: usize,
) -> Result<(), AllocError>
    ensures ok { OnOk result (map written_of writes.new.items ≡ map written_of writes.old.items
        ++ record { name = name.now; bytes = bytes.now; count = count } ∷ []) }
    ensures held { OnOk result (files_after (map written_of writes.new.items)
        ≡ files.insert (files_after (map written_of writes.old.items)) name.now (take count bytes.now)) }
    ensures stops { OnOk result (Adds (Some (length (map written_of writes.old.items)))
        (IsStopSince (map written_of writes.old.items)) (IsStopSince (map written_of writes.new.items))
        (IsHeldElsewhere name.now (Some (files_after (map written_of writes.old.items))))) }
    ensures err { OnErr result (map written_of writes.new.items ≡ map written_of writes.old.items) }
{
    let write = WriteRecord::new(alloc, name, bytes, count)?;
    writes.push(write)?;
    Ok(())
}

/// The last write of a name.
fn last_write<'a>(writes: &'a [WriteRecord], name: &str) -> Option<&'a WriteRecord>
    ensures { option_copied result
        ≡ find (λ write. bytes_eq (string_bytes write.name) name.now) (reverse writes.now) }
{
    writes
        .iter()
        .rev()
        .find(|write| write.name.as_str() == name)
}

/// The bytes that the last write of a name left.
fn stored<'a>(writes: &'a [WriteRecord], name: &str) -> Option<&'a [u8]>
    ensures { option_copied result ≡ files.get (files_after (map written_of writes.now)) name.now }
{
    match last_write(writes, name) {
        Some(write) => Some(write.stored()),
        None => None,
    }
}

impl MemoryShelf {
    ghost use Rattle.shelf_io.specs.MemoryShelf.{shelf_state, held_files, with_calls, with_write, stopped_at};

    pub fn new(alloc: Global) -> Self
        ensures { shelf_state result ≡ record { writes = []; calls = no_calls; keep = 0 } }
    {
        MemoryShelf {
            alloc,
            writes: Vec::new(alloc),
            calls: Calls::new(alloc),
            keep: 0,
        }
    }

    /// A write that does not count as a call.
    pub fn put(&mut self, name: &str, bytes: &[u8]) -> Result<(), ShelfMemory>
        ensures held { OnOk result (held_files (shelf_state self.new)
            ≡ files.insert (held_files (shelf_state self.old)) name.now bytes.now) }
        ensures ok { OnOk result (shelf_state self.new
            ≡ with_write (shelf_state self.old) name.now bytes.now (length bytes.now)) }
        ensures err { OnErr result (shelf_state self.new ≡ shelf_state self.old) }
    {
        record(self.alloc, &mut self.writes, name, bytes, bytes.len())?;
        Ok(())
    }

    pub fn get(&self, name: &str) -> Option<&[u8]>
        ensures { option_copied result ≡ files.get (held_files (shelf_state self.now)) name.now }
    {
        stored(&self.writes, name)
    }

    /// The load or write of this number fails.
    pub fn fail_at(&mut self, call: u64) -> Result<(), ShelfMemory>
        ensures ok { OnOk result (shelf_state self.new
            ≡ with_calls (shelf_state self.old) (with_failing (shelf_state self.old).calls call)) }
        ensures err { OnErr result (shelf_state self.new ≡ shelf_state self.old) }
    {
        self.calls.fail_at(call)
    }

    /// The load or write of this number and all later ones fail. A write of this number leaves the first `keep` bytes
    /// of what was to be written. The last call of `stop_at` counts.
    pub fn stop_at(&mut self, call: u64, keep: usize)
        ensures { shelf_state self.new ≡ stopped_at (shelf_state self.old) call keep }
    {
        self.calls.stop_at(call);
        self.keep = keep;
    }

    /// How often a load or a write has failed.
    pub fn fault_count(&self) -> u64
        ensures { result ≡ (shelf_state self.now).calls.faults }
    {
        self.calls.faults()
    }
}

impl Shelf for MemoryShelf {
    ghost use Rattle.shelf_io.specs.MemoryShelf.{shelf_state, held_files, with_calls, after_write_call};

    ghost holds = { λ s. Some (held_files (shelf_state s)) };

    ghost faults = { λ s. (shelf_state s).calls.faults };

    ghost moment = { λ s. Some (length (shelf_state s).writes) };

    ghost may_be_found = { λ s. IsStopSince (shelf_state s).writes };

    ghost only_held = { λ s now held found at is stop. only_now (shelf_state s).writes now held found
        (same_Some _ _ at) (same_Some _ _ is) stop };

    ghost held_is_found = { λ s now m held at le is. held_since (shelf_state s).writes m held (same_Some _ _ is) };

    fn load(&mut self, alloc: Global, name: &str, max: Option<u64>) -> Result<Loaded, LoadFault>
        ensures same { Some (held_files (shelf_state self.new)) ≡ Some (held_files (shelf_state self.old)) }
        ensures found { (files : Files) → Some (held_files (shelf_state self.old)) ≡ Some files
            → IfOk result (IsFound files name.now max) }
        ensures limit { IfOk result (KeepsLimit max) }
        ensures counted { (shelf_state self.old).calls.faults ≤ (shelf_state self.new).calls.faults }
        ensures failed { IsErrOf result LoadFault.Failed
            → HasRisen (shelf_state self.old).calls.faults (shelf_state self.new).calls.faults }
        ensures later { IsLater (Some (length (shelf_state self.old).writes))
            (Some (length (shelf_state self.new).writes)) }
        ensures stops { Adds (Some (length (shelf_state self.old).writes)) (IsStopSince (shelf_state self.old).writes)
            (IsStopSince (shelf_state self.new).writes) (IsHeld (Some (held_files (shelf_state self.old)))) }
        ensures absent { files.get (held_files (shelf_state self.old)) name.now ≡ None
            → ¬ IsErrOf result LoadFault.Memory }
        ensures fails { IsErrOf result LoadFault.Failed ↔ IsTrue (next_fails (shelf_state self.old).calls) }
        ensures after { shelf_state self.new
            ≡ with_calls (shelf_state self.old) (after_call (shelf_state self.old).calls) }
    {
        if self.calls.begin() {
            return Err(LoadFault::Failed);
        }
        match stored(&self.writes, name) {
            Some(bytes) if is_over(bytes, max) => Ok(Loaded::TooLong),
            Some(bytes) => Ok(Loaded::Bytes(Vec::from_slice(alloc, bytes)?)),
            None => Ok(Loaded::Missing),
        }
    }

    fn write(&mut self, alloc: Global, name: &str, bytes: &[u8]) -> Result<(), WriteFault>
        ensures unchanged { IsErrOf result WriteFault.Memory
            → Some (held_files (shelf_state self.new)) ≡ Some (held_files (shelf_state self.old)) }
        ensures held { WritesIfKnown result name.now bytes.now
            (Some (held_files (shelf_state self.old))) (Some (held_files (shelf_state self.new))) }
        ensures counted { (shelf_state self.old).calls.faults ≤ (shelf_state self.new).calls.faults }
        ensures failed { IsErrOf result WriteFault.Failed
            → HasRisen (shelf_state self.old).calls.faults (shelf_state self.new).calls.faults }
        ensures later { IsLater (Some (length (shelf_state self.old).writes))
            (Some (length (shelf_state self.new).writes)) }
        ensures stops { Adds (Some (length (shelf_state self.old).writes)) (IsStopSince (shelf_state self.old).writes)
            (IsStopSince (shelf_state self.new).writes)
            (IsHeldElsewhere name.now (Some (held_files (shelf_state self.old)))) }
        ensures left { OnOk result (LeavesWritten (Some (length (shelf_state self.new).writes))
            (IsStopSince (shelf_state self.new).writes) (Some (held_files (shelf_state self.old)))
            name.now bytes.now) }

        // A call that is to fail is out of memory only if it is a write at the stop, which leaves bytes.
        ensures fails { IsTrue (next_fails (shelf_state self.old).calls)
            → IsErrOf result WriteFault.Failed
            ⊎ (IsErrOf result WriteFault.Memory × IsTrue (is_stop (shelf_state self.old).calls)) }
        ensures only_fails { IsErrOf result WriteFault.Failed → IsTrue (next_fails (shelf_state self.old).calls) }
        ensures after { shelf_state self.new
            ≡ after_write_call result (shelf_state self.old) name.now bytes.now }
    {
        let is_stop = self.calls.is_stop();
        if !self.calls.begin() {
            record(alloc, &mut self.writes, name, bytes, bytes.len())?;
            return Ok(());
        }
        if is_stop {
            record(alloc, &mut self.writes, name, bytes, self.keep)?;
        }
        Err(WriteFault::Failed)
    }
}
