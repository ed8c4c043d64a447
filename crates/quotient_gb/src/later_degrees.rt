//! Whether a basis to a degree is one to every degree.
ghost use Rattle.std.specs.Prelude.{◌≡◌, ℕ, ◌≤◌, ◌<◌, ◌⊎◌, [], true, false, IfOk, Contains};
ghost use Rattle.polynomials.specs.Polynomial.{Polynomial, IsCanonical, IsHomogeneous, degree_of};
ghost use Rattle.poly_core.specs.Presentation.{presented, AreCanonicalGenerators};
ghost use Rattle.polynomials.specs.Subalgebra.{IsPresentation};
ghost use Rattle.quotient_gb.specs.CriticalPairs.{IsCriticalPair};
ghost use Rattle.quotient_gb.specs.DegreeStep.{IsBasisTo, ReducesPairOf};
ghost use Rattle.quotient_gb.specs.Quotient.{closing_max, HasGeneratorAbove, HasOtherLead};
ghost use Rattle.quotient_gb.specs.declared.critical_pair.CriticalPair.{CriticalPair};

use crate::basis::Basis;
use crate::critical_pair::CriticalPair;
use crate::remainder::remainder_by;
use crate::s_polynomial::s_polynomial;
use monomial_order::{Memory, Order};
use poly_core::{Poly, Presentation};
use std::alloc::Global;
use word_field::Field;

/// Whether the lead of the polynomial has a degree above d.
fn is_above<F: Field, O: Order>(o: &O, a: &Poly<F>, d: u32) -> bool
    requires { (f : F) × IsCanonical (F.ops f) (O.order o.now) a.now }
    ensures yes { result ≡ true → d < degree_of (O.order o.now) a.now }
    ensures no { result ≡ false → (a.now ≡ []) ⊎ (degree_of (O.order o.now) a.now ≤ d) }
{
    match a.lead() {
        Some(first) => o.degree(&first.at) > d,
        None => false,
    }
}

/// Whether a generator of the ideal has a degree above d.
pub(crate) fn has_generator_above<F: Field, O: Order>(p: &Presentation<F, O>, d: u32) -> bool
    requires presentation { IsPresentation (presented F.ops O.order p.now) }
    requires ideal { AreCanonicalGenerators (F.ops p.now.field) (O.order p.now.order) p.now.ideal.items }
    ensures yes { result ≡ true → HasGeneratorAbove (presented F.ops O.order p.now) d }
    ensures no { result ≡ false → (r : Polynomial F.Elem) → Contains p.now.ideal.items r →
        (e : ℕ) → IsHomogeneous (F.ops p.now.field) (O.order p.now.order) e r → e ≤ d }
{
    'generators: for r in &p.ideal {
        if is_above(&p.order, r, d) {
            return true;
        }
    }
    false
}

/// Whether the S-polynomial of a critical pair reduces to zero.
fn reduces_to_zero<F: Field, O: Order>(
    alloc: Global,
    p: &Presentation<F, O>,
    basis: &Basis<F>,
    pair: &CriticalPair,
) -> Result<bool, Memory>
    requires presentation { IsPresentation (presented F.ops O.order p.now) }
    requires places { (O.order p.now.order).places ≤ 32 }
    requires basis { (c : ℕ) × (c ≤ closing_max) × IsBasisTo (presented F.ops O.order p.now) c basis.now }
    requires pair { IsCriticalPair (O.order p.now.order) basis.now.leads.items pair.now }
    ensures yes { IfOk result (λ r. r ≡ true →
        ReducesPairOf (presented F.ops O.order p.now) basis.now.members.items pair.now) }
    ensures no { IfOk result (λ r. r ≡ false →
        HasOtherLead (presented F.ops O.order p.now) basis.now.leads.items) }
{
    let a = s_polynomial(
        alloc,
        p,
        &basis.members[pair.first],
        &basis.members[pair.second],
    )?;
    let rest = remainder_by(alloc, p, basis, &a)?;
    Ok(rest.terms().is_empty())
}

/// Whether the S-polynomials of all critical pairs reduce to zero. Ends at the first that does not.
pub(crate) fn all_reduce_to_zero<F: Field, O: Order>(
    alloc: Global,
    p: &Presentation<F, O>,
    basis: &Basis<F>,
    pairs: &[CriticalPair],
) -> Result<bool, Memory>
    requires presentation { IsPresentation (presented F.ops O.order p.now) }
    requires places { (O.order p.now.order).places ≤ 32 }
    requires basis { (c : ℕ) × (c ≤ closing_max) × IsBasisTo (presented F.ops O.order p.now) c basis.now }
    requires pairs { (w : CriticalPair) → Contains pairs.now w →
        IsCriticalPair (O.order p.now.order) basis.now.leads.items w }
    ensures yes { IfOk result (λ r. r ≡ true → (w : CriticalPair) → Contains pairs.now w →
        ReducesPairOf (presented F.ops O.order p.now) basis.now.members.items w) }
    ensures no { IfOk result (λ r. r ≡ false →
        HasOtherLead (presented F.ops O.order p.now) basis.now.leads.items) }
{
    'pairs: for pair in pairs {
        if !reduces_to_zero(alloc, p, basis, pair)? {
            return Ok(false);
        }
    }
    Ok(true)
}
