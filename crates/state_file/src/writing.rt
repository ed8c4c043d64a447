//! Writing states.
ghost use Rattle.std.specs.Prelude.{◌≡◌, ◌≤◌, false, IfOk};
ghost use Rattle.poly_core.specs.Presentation.{weight_order_of};
ghost use Rattle.completion.specs.Completion.{IsCompletion};
ghost use Rattle.state_file.specs.State.{state_of, IsStateOf};

use completion::Completion;
use monomial_order::{Memory, WeightOrder};
use std::alloc::Global;
use word_field::Field;

/// The state of a completion at its closed degree, of the second version. The witnesses are those of the completion.
pub fn write_state<F: Field>(
    alloc: Global,
    c: &Completion<F, WeightOrder>,
) -> Result<Vec<u8>, Memory>
    requires completion { IsCompletion F.ops weight_order_of c.now }
    requires not_begun { c.now.begun ≡ false }
    requires some { 1 ≤ c.now.degree }
    ensures { IfOk result
        (λ text. IsStateOf F.ops c.now.presentation c.now.degree text.items (state_of c.now)) }
{
    state_text::write(
        alloc,
        c.presentation(),
        c.closed_degree(),
        c.basis(),
        c.relations(),
    )
}
