//! Copies of lists.
ghost use Rattle.std.specs.Prelude.{◌≡◌, IfOk};

use monomial_order::{Memory, Monomial};
use std::alloc::Global;

/// Copies of the monomials.
pub(crate) fn copy_monomials(alloc: Global, list: &[Monomial]) -> Result<Vec<Monomial>, Memory>
    ensures { IfOk result (λ v. v.items ≡ list.now) }
{
    let mut copies = Vec::with_capacity(alloc, list.len())?;
    for m in list {
        copies.push(m.copy(alloc)?)?;
    }
    Ok(copies)
}
