//! Right sides over the elements of smaller degree.
ghost use Rattle.std.specs.Prelude.{◌≡◌, ◌+◌, ◌≤◌, List, length, false, All, IfSome};
ghost use Rattle.poly_core.specs.Presentation.{presented, IsValid};
ghost use Rattle.witness.specs.declared.tracked.Tracked.{Tracked};
ghost use Rattle.subduction.specs.Basis.{AreInParts, IsBasisOf};

use monomial_order::Order;
use poly_core::{Poly, Presentation};
use subduction::{Basis, lower_count};
use word_field::Field;

/// The right side of a word, if it has no letter of an element of the last degree.
pub(crate) fn lower_right_side<F: Field, O: Order>(
    p: &Presentation<F, O>,
    basis: &Basis<F, O>,
    right: Option<Poly<F>>,
) -> Option<Poly<F>>
    requires presentation { IsValid F.ops O.order p.now }
    requires basis { IsBasisOf (presented F.ops O.order p.now) basis.now }
    ensures same { IfSome result (λ e. right ≡ Some e) }
    ensures lower { let P = presented F.ops O.order p.now in
        IfSome result (λ e. (lower last : List (Tracked F F.Elem)) →
        AreInParts P basis.now.words.degree basis.now.elements lower last →
        All (λ t. length t.at ≤ P.order.places + length lower) e) }
{
    let right = right?;
    let count = lower_count(&p.order, basis.words().leads(), basis.words().degree());
    if has_letter_after(&right, p.order.places(), count) {
        None
    } else {
        Some(right)
    }
}

/// Whether a word of a sum has a letter behind the first n variables and the first k elements.
fn has_letter_after<F: Field>(sum: &Poly<F>, n: usize, k: usize) -> bool
    ensures { result ≡ false → All (λ t. length t.at ≤ n + k) sum.now }
{
    let terms = sum.terms();
    'terms: for t in terms {
        if t.at.places().saturating_sub(n) > k {
            return true;
        }
    }
    false
}
