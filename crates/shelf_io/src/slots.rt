//! What slots have under a name.
ghost use Rattle.std.specs.Prelude.{◌≡◌, ◌≤◌, ◌&&◌, length, find, map, string_bytes, option_copied};
ghost use Rattle.std.specs.Bool.{OnTrue, OnFalse};
ghost use Rattle.std.specs.FinMap as files;
ghost use Rattle.std.specs.Str.{bytes_eq};
ghost use Rattle.shelf_io.specs.Slots.{name_of, files_in, IsReserved};
ghost use Rattle.shelf_io.specs.SteadyShelf.{is_admitted};

use crate::slot::{Slot, index_of};

/// Whether a slot has the name.
pub fn is_admitted(slots: &[Slot], name: &str) -> bool
    ensures { result ≡ is_admitted (map name_of slots.now) name.now }
{
    index_of(slots, name).is_some()
}

/// The slot of the name, if it is present.
fn present<'a>(slots: &'a [Slot], name: &str) -> Option<&'a Slot>
    ensures { option_copied result
        ≡ find (λ slot. slot.is_present && bytes_eq (string_bytes slot.name) name.now) slots.now }
{
    slots
        .iter()
        .find(|slot| slot.is_present && slot.name.as_str() == name)
}

/// The bytes of the name, if it is present.
pub fn find<'a>(slots: &'a [Slot], name: &str) -> Option<&'a [u8]>
    ensures { option_copied result ≡ files.get (files_in slots.now) name.now }
{
    match present(slots, name) {
        Some(slot) => Some(slot.bytes.as_slice()),
        None => None,
    }
}

/// Puts the bytes under the name, if a slot has it.
pub fn store(slots: &mut Vec<Slot>, room: usize, name: &str, bytes: &[u8]) -> bool
    requires reserved { IsReserved room slots.old.items }
    requires fits { length bytes.now ≤ room }
    ensures reserved { IsReserved room slots.new.items }
    ensures names { map name_of slots.new.items ≡ map name_of slots.old.items }
    ensures found { result ≡ is_admitted (map name_of slots.old.items) name.now }
    ensures stored { OnTrue result (files_in slots.new.items
        ≡ files.insert (files_in slots.old.items) name.now bytes.now) }
    ensures same { OnFalse result (files_in slots.new.items ≡ files_in slots.old.items) }
{
    match index_of(slots, name) {
        Some(index) => {
            slots[index].set(bytes);
            true
        }
        None => false,
    }
}
