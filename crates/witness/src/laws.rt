//! The laws, over every presentation and list of elements.
ghost use Rattle.std.specs.Prelude.{◌+◌, All, List, length};
ghost use Rattle.polynomials.specs.Polynomial.{IsPoly};
ghost use Rattle.polynomials.specs.Subalgebra.{InSubalgebra, IsPresentation, Presented};
ghost use Rattle.witness.specs.declared.tracked.Tracked.{Tracked};
ghost use Rattle.witness.specs.Tracking.{values_of, IsLowerElement, Tracks};

use word_field::Field;

/// Elements whose witnesses use elements of smaller degree alone are members of the subalgebra. So is each value with a
/// witness over them.
pub fn tracked_elements_are_members<F: Field>()
    ensures elements { (P : Presented F.Elem) (s : List (Tracked F F.Elem)) → IsPresentation P →
        All (IsLowerElement P (values_of s)) s → All (λ t. InSubalgebra P t.value) s }
    ensures values { (P : Presented F.Elem) (s : List (Tracked F F.Elem)) (t : Tracked F F.Elem) → IsPresentation P →
        All (IsLowerElement P (values_of s)) s →
        IsPoly P.field (length P.generators + length s) t.by → Tracks P (values_of s) t → InSubalgebra P t.value }
{}
