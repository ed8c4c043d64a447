//! Slots for files, whose room is made beforehand.
ghost use Rattle.std.specs.Prelude.{◌≡◌, ◌≤◌, ◌<◌, false, true, length, position, IfOk, IfSome, string_bytes, vec_capacity};
ghost use Rattle.std.specs.Str.{bytes_eq};

use std::alloc::{AllocError, Global};

/// A name, and the bytes under it if it is present.
#[derive(Drop)]
pub struct Slot {
    pub name: String,
    pub bytes: Vec<u8>,
    pub is_present: bool,
}

impl Slot {
    /// A slot of an absent name.
    pub fn new(alloc: Global, name: &str, room: usize) -> Result<Slot, AllocError>
        ensures name { IfOk result (λ slot. string_bytes slot.name ≡ name.now) }
        ensures absent { IfOk result (λ slot. slot.is_present ≡ false) }
        ensures reserved { IfOk result (λ slot. room ≤ vec_capacity slot.bytes) }
    {
        Ok(Slot {
            name: String::from_str(alloc, name)?,
            bytes: Vec::with_capacity(alloc, room)?,
            is_present: false,
        })
    }

    /// Puts bytes for which there is room.
    pub fn set(&mut self, bytes: &[u8])
        requires { length bytes.now ≤ vec_capacity self.old.bytes }
        ensures name { self.new.name ≡ self.old.name }
        ensures present { self.new.is_present ≡ true }
        ensures bytes { self.new.bytes.items ≡ bytes.now }
        ensures capacity { vec_capacity self.old.bytes ≤ vec_capacity self.new.bytes }
    {
        self.bytes.clear();
        let _ = self.bytes.extend_from_slice(bytes);
        self.is_present = true;
    }
}

/// The index of the first slot with the name.
pub fn index_of(slots: &[Slot], name: &str) -> Option<usize>
    ensures first { result ≡ position (λ slot. bytes_eq (string_bytes slot.name) name.now) slots.now }
    ensures within { IfSome result (λ index. index < length slots.now) }
{
    slots.iter().position(|slot| slot.name.as_str() == name)
}
