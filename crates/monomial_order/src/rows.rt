//! Rows of an order by weights.
ghost use Rattle.std.specs.Prelude.{◌≡◌, IfOk};

use crate::Memory;
use std::alloc::Global;
use std::marker::Model;

/// A row of numbers, one for each place: monomials of the same degree are compared by the sum of
/// entry times exponent.
#[derive(Drop)]
pub struct Row {
    entries: Vec<u32>,
}

impl Model for Row {
    ghost use Rattle.std.specs.Prelude.{List, ℕ};

    ghost Value = { List ℕ };

    ghost view = { λ r. r.entries.items };
}

impl Row {
    pub fn new(alloc: Global, entries: &[u32]) -> Result<Row, Memory>
        ensures { IfOk result (λ r. r ≡ entries.now) }
    {
        Ok(Row {
            entries: entries.to_vec(alloc)?,
        })
    }

    pub fn entries(&self) -> &[u32]
        ensures { result.now ≡ self.now }
    {
        self.entries.as_slice()
    }
}
