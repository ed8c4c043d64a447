//! Monic members of the ideal, each with its lead.
ghost use Rattle.std.specs.Prelude.{◌≡◌, ◌<◌, ℕ, ◌≤◌, [], length, Contains, IfSome, IsNone, slice_index_or};
ghost use Rattle.monomial_order.specs.Limits.{exponent_max};
ghost use Rattle.std.specs.declared.cmp.Ordering.TheVariants.{Less};
ghost use Rattle.monomial_order.specs.Monomial.{IsMonomial, Divides, Exponents};
ghost use Rattle.polynomials.specs.Polynomial.{lead_monomial};
ghost use Rattle.quotient_gb.specs.Combinations.{HasLeadDivisor};
ghost use Rattle.quotient_gb.specs.DegreeStep.{HasLeads};

use monomial_order::{Monomial, Order};
use poly_core::Poly;
use std::alloc::Global;
use word_field::Field;

/// Members of the ideal with their leads, index by index.
#[derive(Drop)]
pub(crate) struct Basis<F: Field> {
    pub(crate) members: Vec<Poly<F>>,
    pub(crate) leads: Vec<Monomial>,
}

impl<F: Field> Basis<F> {
    /// No members.
    pub(crate) fn new(alloc: Global) -> Basis<F>
        ensures members { result.members.items ≡ [] }
        ensures leads { result.leads.items ≡ [] }
    {
        Basis {
            members: Vec::new(alloc),
            leads: Vec::new(alloc),
        }
    }

    /// The first member whose lead divides m.
    pub(crate) fn reducer(&self, m: &Monomial) -> Option<&Poly<F>>
        requires { HasLeads self.now }
        ensures member { IfSome result (λ g. Contains self.now.members.items g.now) }
        ensures divides { IfSome result (λ g. Divides (lead_monomial g.now) m.now) }
        ensures none { IsNone result → ¬ HasLeadDivisor self.now.members.items m.now }
    {
        'search: for i in 0..self.leads.as_slice().len() {
            if self.leads[i].divides(m) {
                return Some(&self.members[i]);
            }
        }
        None
    }
}

/// The index of the first lead that is greater than m, and the number of leads if there is none.
pub(crate) fn insertion_index<O: Order>(o: &O, leads: &[Monomial], m: &Monomial) -> usize
    requires leads { (n : Exponents) → Contains leads.now n → IsMonomial (O.order o.now).places n }
    requires small { (n : Exponents) → Contains leads.now n → (O.order o.now).degree n ≤ exponent_max }
    requires monomial { IsMonomial (O.order o.now).places m.now }
    requires degree { (O.order o.now).degree m.now ≤ exponent_max }
    ensures within { result ≤ length leads.now }
    ensures before { (i : ℕ) → i < result →
        (O.order o.now).compare m.now (slice_index_or leads.now i []) ≡ Less → ⊥ }
    ensures after { result < length leads.now →
        (O.order o.now).compare m.now (slice_index_or leads.now result []) ≡ Less }
{
    'seek: for i in 0..leads.len() {
        if o.compare(m, &leads[i]).is_lt() {
            return i;
        }
    }
    leads.len()
}
