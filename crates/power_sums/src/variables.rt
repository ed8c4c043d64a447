//! The field, and the variables with their names and their order.
ghost use Rattle.std.specs.Prelude.{◌≡◌, ◌≤◌, ◌∷◌, ◌++◌, [], replicate, Contains, OnOk, IfOk};
ghost use Rattle.std.specs.List.{IsDistinct};
ghost use Rattle.std.specs.Str.{bytes_eq};
ghost use Rattle.power_sums.specs.PowerSums.{variable_names};

use monomial_order::{Memory, OrderFault, Tie, WeightOrder};
use poly_core::NameTable;
use std::alloc::Global;
use word_field::WordField;

/// The number of elements of the field.
const FIELD_SIZE: u32 = 32003;

pub(crate) fn field() -> WordField
    ensures { result.modulus ≡ 32003 }
{
    match WordField::new(FIELD_SIZE) {
        Some(field) => field,
        None => unreachable!(),
    }
}

/// The order by the degree and then lex.
pub(crate) fn order(alloc: Global, count: usize) -> Result<WeightOrder, Memory>
    requires some { 1 ≤ count }
    requires few { count ≤ 32 }
    ensures weights { IfOk result (λ o. o.weights.items ≡ replicate count 1) }
    ensures rows { IfOk result (λ o. o.rows.items ≡ []) }
    ensures tie { IfOk result (λ o. o.tie ≡ Tie.Lex) }
{
    let weights = vec![in alloc; 1u32; count]?;
    match WeightOrder::new(alloc, weights.as_slice(), &[], Tie::Lex) {
        Ok(order) => Ok(order),
        Err(OrderFault::Memory) => Err(Memory),
        Err(_) => unreachable!(),
    }
}

/// Puts a name at the end that is a new one.
fn push_new(names: &mut NameTable, name: &str) -> Result<(), Memory>
    requires { ¬ Contains names.old name.now }
    ensures pushed { OnOk result (names.new ≡ names.old ++ (name.now ∷ [])) }
    ensures distinct { OnOk result (IsDistinct bytes_eq names.new) }
{
    match names.push(name)? {
        true => Ok(()),
        false => unreachable!(),
    }
}

/// The names x1, x2, ..
pub(crate) fn names(alloc: Global, count: usize) -> Result<NameTable, Memory>
    requires { count ≤ 32 }
    ensures names { IfOk result (λ t. t ≡ variable_names count) }
    ensures distinct { IfOk result (IsDistinct bytes_eq) }
{
    let mut names = NameTable::new(alloc);
    for number in 1..count + 1 {
        let name = format!(in alloc; "x{number}")?;
        push_new(&mut names, name.as_str())?;
    }
    Ok(names)
}
