//! The real files.
ghost use Rattle.std.specs.Prelude.{◌≡◌, ◌≢◌, ◌<◌, ◌≤◌, ◌+◌, ◌⊎◌, ⊤, ℕ, length, Some, None, IfSome, IfOk, IfErr, OnOk, IsErr, IsErrOf};
ghost use Rattle.std.specs.Io.KnownBytes.{Appends};
ghost use Rattle.std.specs.IoError.{error_kind};
ghost use Rattle.shelf_io.specs.Counts.{HasRisen};
ghost use Rattle.shelf_io.specs.FileShelf.{fault_count, IsRead, ReadsNearly};
ghost use Rattle.shelf_io.specs.Moments.{IsHeld, IsHeldElsewhere, Adds, LeavesWritten};
ghost use Rattle.shelf_io.specs.Shelf.{Files, IsFound, KeepsLimit, WritesIfKnown};
ghost use Rattle.shelf_io.specs.laws.Moments.{not_known};

use crate::counts::next_count;
use crate::shelf::is_over;
use crate::{LoadFault, Loaded, Shelf, WriteFault};
use std::alloc::Global;
use std::fs::OpenFile;
use std::io::{ErrorKind, Read, Write};
use std::rt::Files;
use std::{fs, io};

/// The files of the system. A name is a path. What they hold is not known.
#[derive(Drop)]
pub struct FileShelf<'a, R> {
    rt: &'a R,
    faults: u64,
}

impl<'a, R: Files> FileShelf<'a, R> {
    pub fn new(rt: &'a R) -> FileShelf<'a, R>
        ensures { fault_count result ≡ 0 }
    {
        FileShelf { rt, faults: 0 }
    }
}

const CHUNK: usize = 8192;

/// How many bytes to read next: those up to the limit and one more, or a chunk.
fn room_after(bytes: &[u8], max: Option<u64>) -> usize
    ensures some { 0 < result }
    ensures fits { result ≤ CHUNK }
    ensures limit { (most : ℕ) → max ≡ Some most → length bytes.now ≤ most → length bytes.now + result ≤ most + 1 }
{
    match max {
        None => CHUNK,
        Some(max) => {
            let left = max.saturating_sub(bytes.len() as u64);
            if left < CHUNK as u64 {
                left as usize + 1
            } else {
                CHUNK
            }
        }
    }
}

/// The bytes to the end. At most one byte past the limit is read.
fn read_within<F: Read>(alloc: Global, file: &mut F, max: Option<u64>) -> Result<Loaded, LoadFault>
    ensures limit { IfOk result (KeepsLimit max) }
    ensures bytes { IfSome (F.remaining file.old) (λ bytes. IfOk result (IsRead max bytes)) }
    ensures front { ReadsNearly max (F.remaining file.old) (F.remaining file.new) }
{
    let mut bytes = Vec::new(alloc);
    let mut chunk = [0u8; CHUNK];
    loop {
        let room = room_after(&bytes, max);
        match file.read(&mut chunk[..room]) {
            Err(_) => return Err(LoadFault::Failed),
            Ok(0) => return Ok(Loaded::Bytes(bytes)),
            Ok(n) => bytes.extend_from_slice(&chunk[..n])?,
        }
        if is_over(&bytes, max) {
            return Ok(Loaded::TooLong);
        }
    }
}

/// What is loaded of a file, as it was opened.
fn load_opened<F: Read + Drop>(
    alloc: Global,
    opened: io::Result<F>,
    max: Option<u64>,
) -> Result<Loaded, LoadFault>
    ensures limit { IfOk result (KeepsLimit max) }
    ensures bytes { IfOk opened (λ file. IfSome (F.remaining file) (λ bytes. IfOk result (IsRead max bytes))) }
    ensures missing { IfErr opened (λ e. error_kind e ≡ ErrorKind.NotFound → result ≡ Ok Loaded.Missing) }
    ensures failed { IfErr opened (λ e. error_kind e ≢ ErrorKind.NotFound → result ≡ Err LoadFault.Failed) }
{
    match opened {
        Ok(mut file) => read_within(alloc, &mut file, max),
        Err(e) if e.kind() == ErrorKind::NotFound => Ok(Loaded::Missing),
        Err(_) => Err(LoadFault::Failed),
    }
}

/// A file, as it was opened, after all bytes were written and a sync was asked for.
fn write_opened<F: Write + OpenFile + Drop>(opened: io::Result<F>, bytes: &[u8]) -> io::Result<F>
    ensures bytes { IfOk opened (λ old. IfOk result (λ new. Appends (F.contents old) (F.contents new) bytes.now)) }
    ensures failed { IsErr opened → IsErr result }
{
    let mut file = opened?;
    file.write_all(bytes)?;
    file.sync_all()?;
    Ok(file)
}

impl<R: Files> Shelf for FileShelf<'_, R> {
    ghost holds = { λ _. None };

    ghost faults = { fault_count };

    ghost moment = { λ _. None };

    ghost may_be_found = { λ _ _ _. ⊤ };

    ghost only_held = { λ shelf now held found at is. not_known at };

    ghost held_is_found = { λ shelf now m held at le is. tt };

    fn load(&mut self, alloc: Global, name: &str, max: Option<u64>) -> Result<Loaded, LoadFault>
        ensures found { (files : Files) → None ≡ Some files → IfOk result (IsFound files name.now max) }
        ensures limit { IfOk result (KeepsLimit max) }
        ensures counted { fault_count self.old ≤ fault_count self.new }
        ensures failed { IsErrOf result LoadFault.Failed → HasRisen (fault_count self.old) (fault_count self.new) }
        ensures stops { Adds None (λ _ _. ⊤) (λ _ _. ⊤) (IsHeld None) }
        ensures only_failed { IsErrOf result LoadFault.Failed ⊎ (fault_count self.new ≡ fault_count self.old) }
    {
        let answer = load_opened(alloc, fs::open(self.rt, name), max);
        if let Err(LoadFault::Failed) = answer {
            self.faults = next_count(self.faults);
        }
        answer
    }

    fn write(&mut self, _alloc: Global, name: &str, bytes: &[u8]) -> Result<(), WriteFault>
        ensures held { WritesIfKnown result name.now bytes.now None None }
        ensures counted { fault_count self.old ≤ fault_count self.new }
        ensures failed { IsErrOf result WriteFault.Failed → HasRisen (fault_count self.old) (fault_count self.new) }
        ensures stops { Adds None (λ _ _. ⊤) (λ _ _. ⊤) (IsHeldElsewhere name.now None) }
        ensures left { OnOk result (LeavesWritten None (λ _ _. ⊤) None name.now bytes.now) }
        ensures only_failed { OnOk result (fault_count self.new ≡ fault_count self.old) }
        ensures never_memory { ¬ IsErrOf result WriteFault.Memory }
    {
        match write_opened(fs::create(self.rt, name), bytes) {
            Ok(_) => Ok(()),
            Err(_) => {
                self.faults = next_count(self.faults);
                Err(WriteFault::Failed)
            }
        }
    }
}
