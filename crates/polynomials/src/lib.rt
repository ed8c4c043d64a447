//! Polynomials as formal sums: ideals, values, subalgebras and reduced bases, with their laws.
//!
//! No call does anything: each contract is the law.
#![tactic(auto)]

ghost use Rattle.std.specs.Prelude.{◌≡◌, ◌⊎◌, ℕ, ◌++◌, List, []};
ghost use Rattle.monomial_order.specs.Monomial.{Exponents, product, IsMonomial};
ghost use Rattle.polynomials.specs.Polynomial.{Polynomial, constant, minus, times, component, Same, IsDecreasing, IsHomogeneous, IsPoly};
ghost use Rattle.polynomials.specs.Value.{value};
ghost use Rattle.polynomials.specs.Ideal.{InIdeal};
ghost use Rattle.polynomials.specs.Subalgebra.{Presented, IsPresentation, AreGenerators, InSubalgebra, HasDegreesTo, HasHomogeneousLead, LeadsIdeal, IsNormalForm, IsReducedBasis};

use monomial_order::Order;
use word_field::Field;

/// Equality of coefficients is an equivalence that sums and products keep.
pub fn same_is_congruence<F: Field>(f: &F)
    ensures reflexive { let K = F.ops f.now in (p : Polynomial F.Elem) → Same K p p }
    ensures symmetric { let K = F.ops f.now in (p q : Polynomial F.Elem) → Same K p q → Same K q p }
    ensures transitive { let K = F.ops f.now in (p q r : Polynomial F.Elem) → Same K p q → Same K q r → Same K p r }
    ensures sums { let K = F.ops f.now in (p q r s : Polynomial F.Elem) →
        Same K p q → Same K r s → Same K (p ++ r) (q ++ s) }
    ensures products { let K = F.ops f.now in (p q r s : Polynomial F.Elem) →
        Same K p q → Same K r s → Same K (times K p r) (times K q s) }
{}

/// Polynomials are a commutative ring.
pub fn ring_laws<F: Field>(f: &F)
    ensures sum_comm { let K = F.ops f.now in (p q : Polynomial F.Elem) → Same K (p ++ q) (q ++ p) }
    ensures sum_assoc { let K = F.ops f.now in (p q r : Polynomial F.Elem) → Same K ((p ++ q) ++ r) (p ++ (q ++ r)) }
    ensures sum_zero { let K = F.ops f.now in (p : Polynomial F.Elem) → Same K (p ++ []) p }
    ensures sum_negated { let K = F.ops f.now in (p : Polynomial F.Elem) → Same K (minus K p p) [] }
    ensures product_comm { let K = F.ops f.now in (p q : Polynomial F.Elem) → Same K (times K p q) (times K q p) }
    ensures product_assoc { let K = F.ops f.now in (p q r : Polynomial F.Elem) →
        Same K (times K (times K p q) r) (times K p (times K q r)) }
    ensures product_one { let K = F.ops f.now in (p : Polynomial F.Elem) → Same K (times K (constant K K.one) p) p }
    ensures product_sum { let K = F.ops f.now in (p q r : Polynomial F.Elem) →
        Same K (times K p (q ++ r)) (times K p q ++ times K p r) }
{}

/// The value at a list keeps sums, products and constants.
pub fn value_is_homomorphism<F: Field>(f: &F)
    ensures same { let K = F.ops f.now in (h k : Polynomial F.Elem) (ps : List (Polynomial F.Elem)) →
        Same K h k → Same K (value K h ps) (value K k ps) }
    ensures sums { let K = F.ops f.now in (h k : Polynomial F.Elem) (ps : List (Polynomial F.Elem)) →
        Same K (value K (h ++ k) ps) (value K h ps ++ value K k ps) }
    ensures products { let K = F.ops f.now in (h k : Polynomial F.Elem) (ps : List (Polynomial F.Elem)) →
        Same K (value K (times K h k) ps) (times K (value K h ps) (value K k ps)) }
    ensures constants { let K = F.ops f.now in (c : F.Elem) (ps : List (Polynomial F.Elem)) →
        Same K (value K (constant K c) ps) (constant K c) }
{}

/// Two decreasing lists with the same coefficients are equal.
pub fn decreasing_form_is_unique<F: Field, O: Order>(f: &F, o: &O)
    ensures { let K = F.ops f.now in let order = O.order o.now in (p q : Polynomial F.Elem) →
        IsDecreasing K order p → IsDecreasing K order q → Same K p q → p ≡ q }
{}

/// An ideal is closed under sums and multiples, and that of homogeneous generators under homogeneous components.
pub fn ideal_laws<F: Field, O: Order>(f: &F, o: &O)
    ensures sums { let InI = InIdeal (F.ops f.now) (O.order o.now).places in
        (rs : List (Polynomial F.Elem)) (a b : Polynomial F.Elem) → InI rs a → InI rs b → InI rs (a ++ b) }
    ensures multiples { let K = F.ops f.now in let places = (O.order o.now).places in
        (rs : List (Polynomial F.Elem)) (q a : Polynomial F.Elem) →
        IsPoly K places q → InIdeal K places rs a → InIdeal K places rs (times K q a) }
    ensures parts { let K = F.ops f.now in let order = O.order o.now in
        (rs : List (Polynomial F.Elem)) (d : ℕ) (a : Polynomial F.Elem) → AreGenerators K order rs →
        InIdeal K order.places rs a → InIdeal K order.places rs (component order d a) }
{}

/// The leads of an ideal are closed under multiples and are leads of homogeneous members. A normal form modulo it is
/// unique. That of a homogeneous polynomial is zero or homogeneous of its degree, and no normal form has a monomial of
/// a degree above those of the polynomial.
pub fn normal_form_laws<F: Field>()
    ensures multiples { (P : Presented F.Elem) (k m : Exponents) → IsPresentation P →
        IsMonomial P.order.places k → LeadsIdeal P m → LeadsIdeal P (product k m) }
    ensures parts { (P : Presented F.Elem) (m : Exponents) → IsPresentation P →
        LeadsIdeal P m → (a : Polynomial F.Elem) × HasHomogeneousLead P m a }
    ensures unique { (P : Presented F.Elem) (a b c : Polynomial F.Elem) → IsPresentation P →
        IsNormalForm P a b → IsNormalForm P a c → Same P.field b c }
    ensures homogeneous { (P : Presented F.Elem) (d : ℕ) (a b : Polynomial F.Elem) → IsPresentation P →
        IsHomogeneous P.field P.order d a → IsNormalForm P a b →
        Same P.field b [] ⊎ IsHomogeneous P.field P.order d b }
    ensures degrees { (P : Presented F.Elem) (d : ℕ) (a b : Polynomial F.Elem) → IsPresentation P →
        HasDegreesTo P d a → IsNormalForm P a b → HasDegreesTo P d b }
{}

/// A subalgebra is closed under sums, products and homogeneous components.
pub fn membership_laws<F: Field>()
    ensures sums { (P : Presented F.Elem) (a b : Polynomial F.Elem) → IsPresentation P →
        InSubalgebra P a → InSubalgebra P b → InSubalgebra P (a ++ b) }
    ensures products { (P : Presented F.Elem) (a b : Polynomial F.Elem) → IsPresentation P →
        IsPoly P.field P.order.places a → InSubalgebra P a → InSubalgebra P b → InSubalgebra P (times P.field a b) }
    ensures parts { (P : Presented F.Elem) (d : ℕ) (a : Polynomial F.Elem) → IsPresentation P →
        InSubalgebra P a → InSubalgebra P (component P.order d a) }
{}

/// For each presentation and degree at most one list is the reduced basis.
pub fn reduced_basis_is_unique<F: Field>()
    ensures { (P : Presented F.Elem) (c : ℕ) (S T : List (Polynomial F.Elem)) → IsPresentation P →
        IsReducedBasis P c S → IsReducedBasis P c T → S ≡ T }
{}
