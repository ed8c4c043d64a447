//! Bytes within a room.
ghost use Rattle.std.specs.Prelude.{◌≡◌, ◌≤◌, IfOk, vec_len, vec_capacity};

use std::alloc::{AllocError, Global};

/// A room for bytes, which is made at the start. Bytes that do not fit are dropped.
#[derive(Drop)]
pub struct BoundedBytes {
    room: usize,
    bytes: Vec<u8>,
    is_whole: bool,
    ghost within: { vec_len bytes ≤ room },
    ghost reserved: { room ≤ vec_capacity bytes },
}

impl BoundedBytes {
    ghost use Rattle.shelf_io.specs.Bounded.{bounded, no_bytes, with_bytes};

    pub fn new(alloc: Global, room: usize) -> Result<BoundedBytes, AllocError>
        ensures { IfOk result (λ b. bounded b ≡ no_bytes room) }
    {
        Ok(BoundedBytes {
            room,
            bytes: Vec::with_capacity(alloc, room)?,
            is_whole: true,
        })
    }

    /// Takes all bytes, and stores those that fit.
    pub fn take(&mut self, bytes: &[u8])
        ensures { bounded self.new ≡ with_bytes (bounded self.old) bytes.now }
    {
        let spare = self.room - self.bytes.len();
        if bytes.len() > spare {
            self.is_whole = false;
        }
        let _ = self
            .bytes
            .extend_from_slice(&bytes[..bytes.len().min(spare)]);
    }

    /// The bytes in the room.
    pub fn as_slice(&self) -> &[u8]
        ensures { result.now ≡ (bounded self.now).in_room }
    {
        &self.bytes
    }
}
