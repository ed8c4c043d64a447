//! Laws of subduction, as contracts of calls that do nothing.
ghost use Rattle.std.specs.Prelude.{◌≡◌, ◌↔◌, []};
ghost use Rattle.polynomials.specs.Ideal.{Congruent};
ghost use Rattle.polynomials.specs.Subalgebra.{IsPresentation, Presented};
ghost use Rattle.subalgebra_laws.specs.Words.{IsCombination};
ghost use Rattle.witness.specs.declared.tracked.Tracked.{Tracked};
ghost use Rattle.witness.specs.Tracking.{values_of};
ghost use Rattle.subduction.specs.Basis.{BasisState, IsBasisOf};
ghost use Rattle.subduction.specs.declared.subduction.Subduced.{Subduced};
ghost use Rattle.subduction.specs.Subduced.{IsSubduced};

use word_field::Field;

/// What is left of t by a basis is unique, and its value depends on the value of t modulo the ideal alone. It is zero
/// exactly if that is the value of a sum of irreducible s-words.
pub fn results_are_unique<F: Field>()
    ensures results { (P : Presented F.Elem) (b : BasisState F F.Elem) → IsPresentation P → IsBasisOf P b →
        (t : Tracked F F.Elem) (r s : Subduced F F.Elem) → IsSubduced P b t r → IsSubduced P b t s → r ≡ s }
    ensures values { (P : Presented F.Elem) (b : BasisState F F.Elem) → IsPresentation P → IsBasisOf P b →
        (t u : Tracked F F.Elem) → Congruent P.field P.order.places P.ideal t.value u.value →
        (r s : Subduced F F.Elem) → IsSubduced P b t r → IsSubduced P b u s →
        (r.word_sum ≡ s.word_sum) × (r.rest.value ≡ s.rest.value) }
    ensures zero { (P : Presented F.Elem) (b : BasisState F F.Elem) → IsPresentation P → IsBasisOf P b →
        (t : Tracked F F.Elem) (r : Subduced F F.Elem) → IsSubduced P b t r →
        IsCombination P (values_of b.elements) t.value ↔ (r.rest.value ≡ []) }
{
    subalgebra_laws::laws::uniqueness::<F>();
}
