//! Increasing lists of monomials.
ghost use Rattle.std.specs.Prelude.{IfOk, OnOk};
ghost use Rattle.toric_ideal.specs.Increasing.{AreComparable, IsComparable, IsInsertionIndex, IsInserted, IsSorted};
ghost use Rattle.monomial_order.specs.MonomialOrder.{IsIncreasing};

use monomial_order::{Memory, Monomial, Order};
use std::alloc::Global;

/// Inserts the monomial, unless it is in the list.
fn insert<O: Order>(o: &O, list: &mut Vec<Monomial>, m: Monomial) -> Result<(), Memory>
    requires increasing { IsIncreasing (O.order o.now) list.old.items }
    requires comparable { AreComparable (O.order o.now) list.old.items }
    requires monomial { IsComparable (O.order o.now) m }
    ensures { OnOk result (IsInserted (O.order o.now) list.old.items list.new.items m) }
{
    let index = insertion_index(o, list.as_slice(), &m);
    if index < list.len() && list[index] == m {
        return Ok(());
    }
    list.insert(index, m)?;
    Ok(())
}

/// The index of the monomial in the increasing list, or that at which it would be.
fn insertion_index<O: Order>(o: &O, list: &[Monomial], m: &Monomial) -> usize
    requires increasing { IsIncreasing (O.order o.now) list.now }
    requires comparable { AreComparable (O.order o.now) list.now }
    requires monomial { IsComparable (O.order o.now) m.now }
    ensures { IsInsertionIndex (O.order o.now) list.now m.now result }
{
    let mut low = 0;
    let mut high = list.len();
    'seek: while low < high {
        let middle = low + (high - low) / 2;
        if o.compare(&list[middle], m).is_lt() {
            low = middle + 1;
        } else {
            high = middle;
        }
    }
    low
}

/// The increasing list of copies of the monomials of the list.
pub fn sorted<O: Order>(alloc: Global, o: &O, list: &[Monomial]) -> Result<Vec<Monomial>, Memory>
    requires { AreComparable (O.order o.now) list.now }
    ensures { IfOk result (λ v. IsSorted (O.order o.now) list.now v.items) }
{
    let mut increasing = Vec::new(alloc);
    'list: for m in list {
        insert(o, &mut increasing, m.copy(alloc)?)?;
    }
    Ok(increasing)
}
