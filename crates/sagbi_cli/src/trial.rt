//! The text of a trial.
ghost use Rattle.std.specs.Prelude.{string_bytes, IfOk};
ghost use Rattle.sagbi_cli.specs.Command.{trial_max, IsUpTo};
ghost use Rattle.sagbi_cli.specs.TrialText.{IsTrialText};

use monomial_order::Memory;
use outputs::summary;
use power_sums::power_sums;
use std::alloc::Global;

/// The summary of the power sums in number + 2 variables.
pub(crate) fn trial(alloc: Global, number: u32) -> Result<String, Memory>
    requires { IsUpTo trial_max number }
    ensures { IfOk result (λ s. IsTrialText number (string_bytes s)) }
{
    let bound = number + 2;
    let p = power_sums(alloc, bound as usize)?;
    summary(alloc, p, number, bound)
}
