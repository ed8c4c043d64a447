//! Laws of words: monomials in x_1, .., x_n and in one letter s_i for each member of a list of leads.
//!
//! No call does anything: each contract is the law.
#![tactic(auto)]

ghost use Rattle.std.specs.Prelude.{◌≡◌, ◌⊎◌, ◌↔◌, List, ℕ, length};
ghost use Rattle.monomial_order.specs.Monomial.{Divides, Exponents, IsMonomial, IsMultiple, product};
ghost use Rattle.monomial_order.specs.MonomialOrder.{IsMonomialOrder};
ghost use Rattle.word_laws.specs.Words.{image_of, word_order_of, AreLetters, IsLeast, IsMinimalReducible, IsReducible, IsSWord, IsSmaller, IsWord, Letters};

/// Words: their order, their images and their divisors.
pub fn word_laws()
    ensures order { (L : Letters) → AreLetters L →
        IsMonomialOrder (word_order_of L) }
    ensures image { (L : Letters) → AreLetters L →
        (w : Exponents) → IsMonomial (length L.degrees) (image_of L w) }
    ensures image_product { (L : Letters) → AreLetters L →
        (v w : Exponents) → image_of L (product v w) ≡ product (image_of L v) (image_of L w) }
    ensures degree { (L : Letters) → AreLetters L →
        (w : Exponents) → (word_order_of L).degree (image_of L w) ≡ (word_order_of L).degree w }
    ensures divisor { (L : Letters) → AreLetters L →
        (v w : Exponents) → IsWord L v → IsSWord L w → Divides v w → IsSWord L v }
    ensures smaller { (L : Letters) → AreLetters L →
        (v w : Exponents) → IsSWord L w → IsSmaller L w v → IsSWord L v }
{}

/// Each word has a least word with its image, and one only.
pub fn least_word_laws()
    ensures exists { (L : Letters) → AreLetters L →
        (w : Exponents) → IsWord L w → (v : Exponents) × IsLeast L (image_of L w) v }
    ensures unique { (L : Letters) → AreLetters L →
        (m u v : Exponents) → IsLeast L m u → IsLeast L m v → u ≡ v }
    ensures of_s_words { (L : Letters) → AreLetters L →
        (m u v : Exponents) → IsLeast L m v → IsSWord L u → image_of L u ≡ m → IsSWord L v }
{}

/// Reducible words are the multiples of the minimal ones; here the multiples of a list count as zero.
pub fn reducible_word_laws()
    ensures decided { (zeros : List Exponents) (L : Letters) → AreLetters L →
        (w : Exponents) → IsWord L w →
        IsReducible (IsMultiple zeros) L w ⊎ (IsReducible (IsMultiple zeros) L w → ⊥) }
    ensures multiples { (zeros : List Exponents) (L : Letters) → AreLetters L →
        (k w : Exponents) → IsWord L k → IsWord L w →
        IsReducible (IsMultiple zeros) L w → IsReducible (IsMultiple zeros) L (product k w) }
    ensures minimal { (zeros : List Exponents) (L : Letters) → AreLetters L →
        (w : Exponents) → IsWord L w →
        IsReducible (IsMultiple zeros) L w ↔
        ((u : Exponents) × IsMinimalReducible (IsMultiple zeros) L u × Divides u w) }
{}
