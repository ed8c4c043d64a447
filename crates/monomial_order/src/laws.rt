//! Laws of monomials and of their orders. No call does anything: each contract is the law.
ghost use Rattle.std.specs.Prelude.{◌≡◌, ◌≢◌, ◌<◌, ◌⊎◌, ◌↔◌, ℕ, []};
ghost use Rattle.std.specs.declared.cmp.Ordering.TheVariants.{Less};
ghost use Rattle.monomial_order.specs.Monomial.{Exponents, Divides, IsMonomial, IsTrimmed, least_common_multiple, product};
ghost use Rattle.monomial_order.specs.MonomialOrder.{HasSmallDegrees, IsMonomialOrder};
ghost use Rattle.monomial_order.specs.Ranks.{rank};

use crate::Order;

/// Products of monomials.
pub fn product_laws()
    ensures commutative { (m n : Exponents) → product m n ≡ product n m }
    ensures associative { (k m n : Exponents) → product (product k m) n ≡ product k (product m n) }
    ensures unit { (m : Exponents) → product m [] ≡ m }
    ensures trimmed { (m n : Exponents) → IsTrimmed m → IsTrimmed n → IsTrimmed (product m n) }
    ensures cancels { (k m n : Exponents) → IsTrimmed m → IsTrimmed n → product k m ≡ product k n → m ≡ n }
{}

/// Divisors and cofactors of monomials.
pub fn division_laws()
    ensures reflexive { (m : Exponents) → Divides m m }
    ensures transitive { (k m n : Exponents) → Divides k m → Divides m n → Divides k n }
    ensures antisymmetric { (m n : Exponents) → IsTrimmed m → IsTrimmed n →
        Divides m n → Divides n m → m ≡ n }
    ensures decided { (m n : Exponents) → Divides m n ⊎ (Divides m n → ⊥) }
    ensures factor { (m k : Exponents) → Divides m (product m k) }
    ensures cofactor { (m n : Exponents) → IsTrimmed m → IsTrimmed n → Divides m n →
        (k : Exponents) × IsTrimmed k × (product m k ≡ n) }
{}

/// Least common multiples of monomials.
pub fn least_common_multiple_laws()
    ensures left { (m n : Exponents) → Divides m (least_common_multiple m n) }
    ensures right { (m n : Exponents) → Divides n (least_common_multiple m n) }
    ensures least { (m n k : Exponents) → Divides m k → Divides n k → Divides (least_common_multiple m n) k }
    ensures trimmed { (m n : Exponents) → IsTrimmed m → IsTrimmed n → IsTrimmed (least_common_multiple m n) }
{}

/// An order of monomials.
pub fn order_laws<O: Order>(order: &O)
    ensures laws { IsMonomialOrder (O.order order.now) }
    ensures small { HasSmallDegrees (O.order order.now) }
    ensures one_below { let L = O.order order.now in (m : Exponents) → IsMonomial L.places m → m ≢ [] →
        L.compare [] m ≡ Less }
    ensures none_below_one { let L = O.order order.now in (m : Exponents) → IsMonomial L.places m →
        L.compare m [] ≢ Less }
{}

/// A smaller monomial has a smaller rank, so each decreasing sequence of monomials ends.
pub fn rank_falls<O: Order>(order: &O)
    ensures { let L = O.order order.now in (k m : Exponents) → IsMonomial L.places k → L.compare k m ≡ Less →
        rank L k < rank L m }
{}
