//! Laws of values that are kept, as contracts of calls that do nothing.
ghost use Rattle.std.specs.Prelude.{◌≡◌, ℕ, ◌≤◌, ◌++◌, List, Contains};
ghost use Rattle.polynomials.specs.Polynomial.{Polynomial, lead_monomial};
ghost use Rattle.polynomials.specs.Subalgebra.{Presented, IsPresentation};
ghost use Rattle.word_values.specs.Values.{Table, AreHomogeneousElements, AreValues, AreWordsTo};

use word_field::Field;

/// Elements behind a list change no value that is kept.
pub fn growing<F: Field>()
    ensures values { (P : Presented F.Elem) (S T : List (Polynomial F.Elem)) (kept : Table F.Elem) →
        AreValues P S kept → AreValues P (S ++ T) kept }
    ensures degrees { (P : Presented F.Elem) (S T : List (Polynomial F.Elem)) (kept : Table F.Elem) (d : ℕ) →
        AreValues P S kept → AreWordsTo P S d kept → AreWordsTo P (S ++ T) d kept }
{
    subalgebra_laws::laws::growing::<F>();
}

/// No word of degree at most d that is kept has a letter of degree d. So elements of degree d at the end may be
/// exchanged for others.
pub fn exchanging<F: Field>()
    ensures values { (P : Presented F.Elem) (S U T : List (Polynomial F.Elem)) (kept : Table F.Elem) (d : ℕ) →
        IsPresentation P → AreHomogeneousElements P (S ++ U) →
        ((u : Polynomial F.Elem) → Contains U u → P.order.degree (lead_monomial u) ≡ d) →
        AreValues P (S ++ U) kept → AreWordsTo P (S ++ U) d kept → AreValues P (S ++ T) kept }
    ensures degrees { (P : Presented F.Elem) (S U T : List (Polynomial F.Elem)) (kept : Table F.Elem) (d : ℕ) →
        IsPresentation P → AreHomogeneousElements P (S ++ U) →
        ((u : Polynomial F.Elem) → Contains U u → P.order.degree (lead_monomial u) ≡ d) →
        AreValues P (S ++ U) kept → AreWordsTo P (S ++ U) d kept → AreWordsTo P (S ++ T) d kept }
{
    subalgebra_laws::laws::growing::<F>();
}
