//! The presentations by power sums: x1^d + .. + xm^d for d from 1 to m.
#![tactic(auto)]

ghost use Rattle.std.specs.Prelude.{◌≡◌, ◌≤◌, IfOk};
ghost use Rattle.word_field.specs.Residues.{residues};
ghost use Rattle.word_field.specs.declared.WordField.{WordField};
ghost use Rattle.poly_core.specs.Presentation.{IsValid, presented, weight_order_of};
ghost use Rattle.power_sums.specs.PowerSums.{power_sums, variable_names};

mod generators;
mod variables;

use generators::{gen_order, generators};
use monomial_order::{Memory, WeightOrder};
use poly_core::{Names, Presentation};
use std::alloc::Global;
use variables::{field, names, order};
use word_field::WordField;

/// The presentation by the power sums of so many variables, with the exponents from 1 to their number: over the field
/// of 32003 elements, without an ideal, in the order by the degree and then lex.
pub fn power_sums(
    alloc: Global,
    count: usize,
) -> Result<Presentation<WordField, WeightOrder>, Memory>
    requires some { 1 ≤ count }
    requires few { count ≤ 32 }
    ensures valid { IfOk result (IsValid (λ (f : WordField). residues f.modulus) weight_order_of) }
    ensures presents { IfOk result (λ p.
        presented (λ (f : WordField). residues f.modulus) weight_order_of p ≡ power_sums count) }
    ensures names { IfOk result (λ p. p.names ≡ Names.Listed (variable_names count)) }
{
    let field = field();
    let order = order(alloc, count)?;
    let names = names(alloc, count)?;
    let generators = generators(alloc, &field, count)?;
    let gen_order = gen_order(alloc, count)?;
    Ok(Presentation {
        field,
        order,
        names: Names::Listed(names),
        ideal: Vec::new(alloc),
        generators,
        gen_order,
    })
}
