//! The laws of reading a line, as contracts of calls that do nothing.
ghost use Rattle.std.specs.Prelude.{◌≡◌, ◌≤◌, ◌^◌, ◌↔◌, ℕ, List, Ok, Err};
ghost use Rattle.polynomials.specs.Polynomial.{Polynomial};
ghost use Rattle.polynomial_text.specs.Canonical.{AreDifferent};
ghost use Rattle.polynomial_text.specs.Grammar.{IsLine};
ghost use Rattle.polynomial_text.specs.GrammarFaults.{IsLineFault};
ghost use Rattle.polynomial_text.specs.PolyLine.{terms_of};

use crate::line_fault::LineKind;
use monomial_order::Order;
use poly_core::Names;
use word_field::Field;

/// A line is read as terms exactly if the grammar derives these terms from it. It has a fault exactly if that is the
/// one that is furthest left by the grammar.
pub fn reading_by_grammar<F: Field, O: Order>(field: &F, order: &O, names: &Names)
    requires { AreDifferent (O.order order.now).places names.now }
    ensures terms { (line : List ℕ) (terms : Polynomial F.Elem) →
        (terms_of (F.ops field.now) (O.order order.now) names.now line ≡ Ok terms)
        ↔ IsLine (F.ops field.now) (O.order order.now) names.now line terms }
    ensures fault { (line : List ℕ) (kind : LineKind) →
        (terms_of (F.ops field.now) (O.order order.now) names.now line ≡ Err kind)
        ↔ IsLineFault (F.ops field.now) (O.order order.now) names.now line kind }
{}

/// A size has 32 bits.
pub fn has_short_words<F: Field>(f: &F)
    ensures { (F.ops f.now).size ≤ 2 ^ 32 }
{
    let _size = f.size();
}
