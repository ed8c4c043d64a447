//! Why weights and rows make no order.
ghost use Rattle.std.specs.Prelude.{◌≡◌, ◌≤◌, ◌<◌, ◌-◌, ℕ, IfSome, IfNone, All, Any, length, position, not, nat_eq, nat_lt};
ghost use Rattle.monomial_order.specs.Faults.{IsFault, IsWeighing, IsFirst, IsFirstHeavy, IsLight};
ghost use Rattle.monomial_order.specs.declared.order_fault.OrderFault.TheVariants.{Memory};

use crate::Memory;
use crate::rows::Row;
use std::alloc::{AllocError, AllocFailed};
use thiserror::Error;

/// Why weights and rows make no order. Weights, rows and entries are counted from 1.
#[derive(Debug, Drop, Error)]
pub enum OrderFault {
    /// There is no weight, or there are more than 32.
    #[error("an order has from 1 to 32 weights")]
    PlaceCount,
    /// There are more than 4 rows.
    #[error("an order has at most 4 rows")]
    TooManyRows,
    /// This weight is the first that is 0.
    #[error("weight {0} is zero")]
    ZeroWeight(usize),
    /// Row 0 is the weights: this weight is the first above 64. Else this row is the first with an
    /// entry above 1000, and this entry is the first such one.
    #[error("entry {1} of row {0} is too heavy")]
    TooHeavy(usize, usize),
    /// This row is the first that has not one entry for each weight.
    #[error("row {0} has not as many entries as there are weights")]
    RowLength(usize),
    /// Out of memory.
    #[error("out of memory")]
    Memory,
}

impl From<Memory> for OrderFault {
    ghost from_gives = { λ _ e. e ≡ Memory };

    fn from(_memory: Memory) -> OrderFault {
        OrderFault::Memory
    }
}

impl From<AllocError> for OrderFault {
    ghost from_gives = { λ _ e. e ≡ Memory };

    fn from(_error: AllocError) -> OrderFault {
        OrderFault::Memory
    }
}

/// The first fault, if there is one.
pub(crate) fn find_fault(weights: &[u32], rows: &[Row]) -> Option<OrderFault>
    ensures none { IfNone result (IsWeighing weights.now rows.now) }
    ensures fault { IfSome result (IsFault weights.now rows.now) }
{
    if weights.is_empty() || weights.len() > 32 {
        return Some(OrderFault::PlaceCount);
    }
    if rows.len() > 4 {
        return Some(OrderFault::TooManyRows);
    }
    if let Some(i) = first_zero(weights) {
        return Some(OrderFault::ZeroWeight(i + 1));
    }
    if let Some((row, i)) = find_heavy(weights, rows) {
        return Some(OrderFault::TooHeavy(row, i));
    }
    let row = first_uneven(rows, weights.len())?;
    Some(OrderFault::RowLength(row + 1))
}

fn find_heavy(weights: &[u32], rows: &[Row]) -> Option<(usize, usize)>
    requires { length rows.now ≤ 4 }
    ensures none { IfNone result (IsLight weights.now rows.now) }
    ensures some { IfSome result (λ at. IsFirstHeavy weights.now rows.now at.0 at.1) }
{
    if let Some(i) = first_above(weights, 64) {
        return Some((0, i + 1));
    }
    for (r, row) in rows.iter().enumerate() {
        if let Some(i) = first_above(row.entries(), 1000) {
            return Some((r + 1, i + 1));
        }
    }
    None
}

fn first_zero(numbers: &[u32]) -> Option<usize>
    ensures first { result ≡ position (λ n. nat_eq n 0) numbers.now }
    ensures none { IfNone result (All (λ n. 1 ≤ n) numbers.now) }
    ensures within { IfSome result (λ i. i < length numbers.now) }
{
    numbers.iter().position(|n| *n == 0)
}

fn first_above(numbers: &[u32], bound: u32) -> Option<usize>
    ensures first { result ≡ position (λ n. nat_lt bound n) numbers.now }
    ensures none { IfNone result (All (λ n. n ≤ bound) numbers.now) }
    ensures within { IfSome result (λ i. i < length numbers.now) }
{
    numbers.iter().position(|n| *n > bound)
}

fn first_uneven(rows: &[Row], places: usize) -> Option<usize>
    ensures first { result ≡ position (λ row. not (nat_eq (length row) places)) rows.now }
    ensures none { IfNone result (All (λ row. length row ≡ places) rows.now) }
    ensures within { IfSome result (λ i. i < length rows.now) }
{
    rows.iter().position(|row| row.entries().len() != places)
}
