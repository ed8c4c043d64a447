//! Laws of the ideal to a degree, as contracts of calls that do nothing.
ghost use Rattle.std.specs.Prelude.{◌≡◌, ℕ, ◌+◌, ◌≤◌, List, Contains};
ghost use Rattle.monomial_order.specs.Monomial.{AreCoprime, Exponents};
ghost use Rattle.polynomials.specs.Polynomial.{Polynomial, IsPoly, IsLead, IsHomogeneous, IsDecreasing, lead_monomial};
ghost use Rattle.polynomials.specs.Ideal.{InIdeal};
ghost use Rattle.polynomials.specs.Subalgebra.{Presented, IsPresentation, LeadsIdeal, IsDecidedTo, AreZerosTo, IsNormalForm};
ghost use Rattle.quotient_gb.specs.Combinations.{HasLeadDivisor, HasStandardRepresentation};
ghost use Rattle.quotient_gb.specs.Criterion.{HasRepresentationBelow, ReducesGenerators, RepresentsPairs, ReducesPairs};
ghost use Rattle.quotient_gb.specs.IdealBasis.{AreMonicMembers};
ghost use Rattle.quotient_gb.specs.Quotient.{QuotientState, IsQuotientOf};

use word_field::Field;

/// The criterion to a degree. Let the generators of degree at most c have standard representations by monic members of
/// the ideal, and the S-polynomials too. Then each lead of the ideal of degree at most c is a multiple of the lead of a
/// member.
pub fn criterion<F: Field>()
    ensures reduced { (P : Presented F.Elem) → IsPresentation P → (c : ℕ) (G : List (Polynomial F.Elem)) →
        ReducesGenerators P c G → ReducesPairs P c G → (m : Exponents) → LeadsIdeal P m → P.order.degree m ≤ c →
        HasLeadDivisor G m }
    ensures below { (P : Presented F.Elem) → IsPresentation P → (c : ℕ) (G : List (Polynomial F.Elem)) →
        ReducesGenerators P c G → RepresentsPairs P c G → (m : Exponents) → LeadsIdeal P m → P.order.degree m ≤ c →
        HasLeadDivisor G m }
{}

/// The converse. Let the leads of monic members divide each lead of the ideal of degree at most c. Then each member of
/// the ideal whose lead has such a degree has a standard representation, and the S-polynomials have ones below.
pub fn members_reduce<F: Field>()
    ensures members { (P : Presented F.Elem) → IsPresentation P → (c : ℕ) (G : List (Polynomial F.Elem)) →
        AreMonicMembers P G →
        ((m : Exponents) → LeadsIdeal P m → P.order.degree m ≤ c → HasLeadDivisor G m) →
        (a : Polynomial F.Elem) → IsPoly P.field P.order.places a → InIdeal P.field P.order.places P.ideal a →
        ((m : Exponents) → IsLead P.field P.order a m → P.order.degree m ≤ c) →
        HasStandardRepresentation P.field P.order G a }
    ensures pairs { (P : Presented F.Elem) → IsPresentation P → (c : ℕ) (G : List (Polynomial F.Elem)) →
        AreMonicMembers P G →
        ((m : Exponents) → LeadsIdeal P m → P.order.degree m ≤ c → HasLeadDivisor G m) → RepresentsPairs P c G }
{}

/// If members and generators have a degree of at most D, the premises of the criterion at the degree D + D are those at
/// every degree.
pub fn holds_at_every_degree<F: Field>()
    ensures generators { (P : Presented F.Elem) → IsPresentation P → (D : ℕ) (G : List (Polynomial F.Elem)) →
        ((r : Polynomial F.Elem) → Contains P.ideal r → (d : ℕ) → IsHomogeneous P.field P.order d r → d ≤ D) →
        ReducesGenerators P (D + D) G → (c : ℕ) → ReducesGenerators P c G }
    ensures pairs { (P : Presented F.Elem) → IsPresentation P → (D : ℕ) (G : List (Polynomial F.Elem)) →
        AreMonicMembers P G →
        ((g : Polynomial F.Elem) → Contains G g → P.order.degree (lead_monomial g) ≤ D) →
        RepresentsPairs P (D + D) G → (c : ℕ) → RepresentsPairs P c G }
{}

/// The product criterion: the S-polynomial of two members with coprime leads has a representation below their product.
pub fn product_criterion<F: Field>()
    ensures { (P : Presented F.Elem) → IsPresentation P → (G : List (Polynomial F.Elem)) →
        AreMonicMembers P G →
        (g h : Polynomial F.Elem) → Contains G g → Contains G h →
        AreCoprime (lead_monomial g) (lead_monomial h) → HasRepresentationBelow P.field P.order G g h }
{}

/// A polynomial has one decreasing normal form at most.
pub fn normal_form_is_unique<F: Field>()
    ensures { (P : Presented F.Elem) → IsPresentation P → (a b c : Polynomial F.Elem) →
        IsDecreasing P.field P.order b → IsDecreasing P.field P.order c →
        IsNormalForm P a b → IsNormalForm P a c → b ≡ c }
{}

/// The leads of a quotient are zeros to its degree, and so decide the ideal to that degree.
pub fn quotients_decide<F: Field>()
    ensures zeros { (P : Presented F.Elem) → IsPresentation P → (q : QuotientState F.Elem) →
        IsQuotientOf P q → AreZerosTo P q.degree q.leads }
    ensures decided { (P : Presented F.Elem) → IsPresentation P → (q : QuotientState F.Elem) →
        IsQuotientOf P q → IsDecidedTo P q.degree }
{}
