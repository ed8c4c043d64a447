//! How the places of monomials are named.
ghost use Rattle.std.specs.Prelude.{◌≡◌, IfOk};

use crate::NameTable;
use monomial_order::Memory;

/// How places are named.
#[derive(Drop)]
pub enum Names {
    /// Each place has its name in the table.
    Listed(NameTable),
    /// From the place `skip` on, the prefix followed by 1, 2, ..
    Numbered { prefix: u8, skip: usize },
    /// The first `count` places have one letter followed by 1, 2, .., and the places after them another.
    Paired { first: u8, count: usize, second: u8 },
}

impl Names {
    pub(crate) fn copy(&self) -> Result<Names, Memory>
        ensures { IfOk result (λ n. n ≡ self.now) }
    {
        match self {
            Names::Listed(table) => Ok(Names::Listed(table.copy()?)),
            Names::Numbered { prefix, skip } => Ok(Names::Numbered {
                prefix: *prefix,
                skip: *skip,
            }),
            Names::Paired {
                first,
                count,
                second,
            } => Ok(Names::Paired {
                first: *first,
                count: *count,
                second: *second,
            }),
        }
    }
}
