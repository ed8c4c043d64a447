//! Laws of completion, as contracts of calls that do nothing.
ghost use Rattle.std.specs.Prelude.{◌≡◌, ℕ, ◌≤◌, List, false};
ghost use Rattle.polynomials.specs.Polynomial.{Polynomial};
ghost use Rattle.polynomials.specs.Subalgebra.{IsPresentation, IsReducedBasis, Presented};
ghost use Rattle.subalgebra_laws.specs.Bases.{IsClosedAt};
ghost use Rattle.subalgebra_laws.specs.Statements.{LeadsAreExactly};
ghost use Rattle.completion.specs.Closed.{HasLater};
ghost use Rattle.completion.specs.Completion.{elements_of, CompletionState, IsStanding};

use monomial_order::Order;
use word_field::Field;

/// If something new comes after the degree, the basis is not closed there.
pub fn later_is_open<F: Field>()
    ensures { (P : Presented F.Elem) (S : List (Polynomial F.Elem)) (c : ℕ) → HasLater P c S → ¬ IsClosedAt P c S }
{}

/// If nothing new comes after the closed degree, the elements are the reduced basis to each greater degree, and in
/// every degree the leads of the subalgebra are exactly the standard products of their leads.
pub fn complete_bases<F: Field, O: Order>()
    ensures basis { (P : Presented F.Elem) (s : CompletionState F O F.Elem) →
        IsPresentation P → IsStanding P s → s.begun ≡ false → IsClosedAt P s.degree (elements_of s) →
        (d : ℕ) → s.degree ≤ d → IsReducedBasis P d (elements_of s) }
    ensures leads { (P : Presented F.Elem) (s : CompletionState F O F.Elem) →
        IsPresentation P → IsStanding P s → s.begun ≡ false → IsClosedAt P s.degree (elements_of s) →
        (d : ℕ) → LeadsAreExactly P (elements_of s) d }
{
    subalgebra_laws::laws::closed_basis::<F>();
}
