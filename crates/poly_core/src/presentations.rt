//! Presentations.
ghost use Rattle.std.specs.Prelude.{◌≡◌, IfOk};
ghost use Rattle.poly_core.specs.Presentation.{IsSame, IsValid, weight_order_of};

use crate::{Names, Poly};
use monomial_order::{Memory, Order, WeightOrder, WordOrder};
use std::alloc::Global;
use word_field::Field;

/// A field, an order, the generators of an ideal and those of a subalgebra, with the names of the places and the order
/// of the words in the generators.
#[derive(Drop)]
pub struct Presentation<F: Field, O: Order> {
    pub field: F,
    pub order: O,
    pub names: Names,
    pub ideal: Vec<Poly<F>>,
    pub generators: Vec<Poly<F>>,
    pub gen_order: WordOrder,
}

impl<F: Field> Presentation<F, WeightOrder> {
    pub fn copy(&self, alloc: Global) -> Result<Presentation<F, WeightOrder>, Memory>
        ensures same { IfOk result (IsSame self.now) }
        ensures valid { IfOk result (λ p. IsValid F.ops weight_order_of self.now → IsValid F.ops weight_order_of p) }
    {
        Ok(Presentation {
            field: self.field,
            order: self.order.copy(alloc)?,
            names: self.names.copy()?,
            ideal: copy_list(alloc, self.ideal.as_slice())?,
            generators: copy_list(alloc, self.generators.as_slice())?,
            gen_order: self.gen_order.copy(alloc)?,
        })
    }
}

fn copy_list<F: Field>(alloc: Global, list: &[Poly<F>]) -> Result<Vec<Poly<F>>, Memory>
    ensures { IfOk result (λ v. v.items ≡ list.now) }
{
    let mut copies = Vec::with_capacity(alloc, list.len())?;
    for p in list {
        copies.push(p.copy(alloc)?)?;
    }
    Ok(copies)
}
