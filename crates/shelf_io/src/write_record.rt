//! Writes that are recorded.
ghost use Rattle.std.specs.Prelude.{◌≡◌, take, IfOk};

use std::alloc::{AllocError, Global};

/// A write: the name, the bytes that were to be written, and how many of them the name has.
#[derive(Drop)]
pub struct WriteRecord {
    pub name: String,
    pub bytes: Vec<u8>,
    pub count: usize,
}

impl WriteRecord {
    ghost use Rattle.shelf_io.specs.Writes.{written_of};

    pub fn new(
        alloc: Global,
        name: &str,
        bytes: &[u8],
        count: usize,
    ) -> Result<WriteRecord, AllocError>
        ensures { IfOk result (λ w. written_of w
            ≡ record { name = name.now; bytes = bytes.now; count = count }) }
    {
        Ok(WriteRecord {
            name: String::from_str(alloc, name)?,
            bytes: Vec::from_slice(alloc, bytes)?,
            count,
        })
    }

    /// The bytes that the name has after the write.
    pub fn stored(&self) -> &[u8]
        ensures { result.now ≡ take (written_of self.now).count (written_of self.now).bytes }
    {
        &self.bytes[..self.count.min(self.bytes.len())]
    }
}
