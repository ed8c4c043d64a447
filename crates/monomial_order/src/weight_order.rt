//! The orders of monomials by weights.
ghost use Rattle.std.specs.Prelude.{◌≡◌, ◌≤◌, ◌<◌, ℕ, true, List, IfOk, IfErr, IsErrOf, ◌≢◌, length};
ghost use Rattle.monomial_order.specs.Limits.{exponent_max};
ghost use Rattle.monomial_order.specs.Monomial.{weighted_degree};
ghost use Rattle.monomial_order.specs.Orders.{weight_order, by_rows};
ghost use Rattle.monomial_order.specs.Ties.{tie_order};
ghost use Rattle.monomial_order.specs.Ranges.{all_between, are_rows};
ghost use Rattle.monomial_order.specs.laws.Ties.{weight_laws};
ghost use Rattle.monomial_order.specs.laws.Orders.{weight_small};

use crate::order_fault::{OrderFault, find_fault};
use crate::rows::Row;
use crate::sums::weighted_sum;
use crate::tie_break::{Tie, compare_tied};
use crate::{Memory, Monomial, Order};
use std::alloc::Global;
use std::cmp::Ordering;

/// The order that compares the degree by the weights, then each row in turn, and then breaks the
/// tie.
#[derive(Drop)]
pub struct WeightOrder {
    pub weights: Vec<u32>,
    pub rows: Vec<Row>,
    pub tie: Tie,
    ghost some_weight: { 1 ≤ length weights.items },
    ghost few_weights: { length weights.items ≤ 32 },
    ghost few_rows: { length rows.items ≤ 4 },
    ghost weights_in_range: { all_between 1 64 weights.items ≡ true },
    ghost rows_in_range: { are_rows (length weights.items) rows.items ≡ true },
}

impl WeightOrder {
    ghost use Rattle.monomial_order.specs.Faults.{IsFault, IsWeighing};

    pub fn new(
        alloc: Global,
        weights: &[u32],
        rows: &[Row],
        tie: Tie,
    ) -> Result<WeightOrder, OrderFault>
        ensures weights { IfOk result (λ o. o.weights.items ≡ weights.now) }
        ensures rows { IfOk result (λ o. o.rows.items ≡ rows.now) }
        ensures tie { IfOk result (λ o. o.tie ≡ tie) }
        ensures valid { IfOk result (λ _. IsWeighing weights.now rows.now) }
        ensures cause { IfErr result (IsFault weights.now rows.now) }
        ensures exact { (e : OrderFault) → e ≢ OrderFault.Memory → IsFault weights.now rows.now e →
            IsErrOf result e }
    {
        if let Some(fault) = find_fault(weights, rows) {
            return Err(fault);
        }
        Ok(WeightOrder {
            weights: weights.to_vec(alloc)?,
            rows: copied_rows(alloc, rows)?,
            tie,
        })
    }

    pub fn copy(&self, alloc: Global) -> Result<WeightOrder, Memory>
        ensures weights { IfOk result (λ o. o.weights.items ≡ self.now.weights.items) }
        ensures rows { IfOk result (λ o. o.rows.items ≡ self.now.rows.items) }
        ensures tie { IfOk result (λ o. o.tie ≡ self.now.tie) }
    {
        Ok(WeightOrder {
            weights: self.weights.to_vec(alloc)?,
            rows: copied_rows(alloc, self.rows.as_slice())?,
            tie: self.tie,
        })
    }

    pub fn weights(&self) -> &[u32]
        ensures { result.now ≡ self.now.weights.items }
    {
        self.weights.as_slice()
    }

    pub fn rows(&self) -> &[Row]
        ensures { result.now ≡ self.now.rows.items }
    {
        self.rows.as_slice()
    }

    pub fn tie(&self) -> Tie
        ensures { result ≡ self.now.tie }
    {
        self.tie
    }

    /// The order of two monomials of the same degree.
    fn compare_within_degree(&self, a: &[u16], b: &[u16]) -> Ordering
        requires left { weighted_degree self.now.weights.items a.now ≤ exponent_max }
        requires right { weighted_degree self.now.weights.items b.now ≤ exponent_max }
        ensures { result ≡ by_rows self.now.rows.items (tie_order self.now.tie) a.now b.now }
    {
        for row in self.rows.as_slice() {
            let by_row = weighted_sum(row.entries(), a).cmp(&weighted_sum(row.entries(), b));
            if by_row != Ordering::Equal {
                return by_row;
            }
        }
        compare_tied(self.tie, a, b)
    }
}

impl Order for WeightOrder {
    ghost order = { λ o. weight_order o.weights.items o.rows.items (tie_order o.tie) };

    fn compare(&self, a: &Monomial, b: &Monomial) -> Ordering {
        let by_degree = self.degree(a).cmp(&self.degree(b));
        if by_degree != Ordering::Equal {
            return by_degree;
        }
        self.compare_within_degree(a.as_slice(), b.as_slice())
    }

    fn degree(&self, m: &Monomial) -> u32 {
        weighted_sum(self.weights.as_slice(), m.as_slice())
    }

    fn places(&self) -> usize {
        self.weights.len()
    }

    ghost laws = { λ o. weight_laws o.weights.items o.rows.items o.tie o.weights_in_range };

    ghost small = { λ o. weight_small o.weights.items o.rows.items (tie_order o.tie) o.weights_in_range };
}

fn copied_rows(alloc: Global, rows: &[Row]) -> Result<Vec<Row>, Memory>
    ensures { IfOk result (λ v. v.items ≡ rows.now) }
{
    let mut copy = Vec::new(alloc);
    for row in rows {
        copy.push(Row::new(alloc, row.entries())?)?;
    }
    Ok(copy)
}
