//! S-polynomials.
ghost use Rattle.std.specs.Prelude.{◌≡◌, ◌≢◌, ◌≤◌, [], IfOk};
ghost use Rattle.monomial_order.specs.Limits.{exponent_max};
ghost use Rattle.monomial_order.specs.Monomial.{product, least_common_multiple, IsTrimmed, IsMonomial, Divides, Exponents};
ghost use Rattle.polynomials.specs.Polynomial.{Same, term_of, scaled, lead_monomial};
ghost use Rattle.poly_core.specs.Presentation.{presented};
ghost use Rattle.polynomials.specs.Subalgebra.{IsPresentation};
ghost use Rattle.quotient_gb.specs.Criterion.{AreCofactors, s_polynomial};
ghost use Rattle.quotient_gb.specs.Remainder.{IsCanonicalIn, IsReducerIn};

use monomial_order::{Memory, Monomial, Order};
use poly_core::{Poly, Presentation};
use std::alloc::Global;
use word_field::Field;

/// The least common multiple of the leads.
fn common_multiple<F: Field>(alloc: Global, g: &Poly<F>, h: &Poly<F>) -> Result<Monomial, Memory>
    requires g { g.now ≢ [] }
    requires h { h.now ≢ [] }
    ensures { IfOk result (λ m. m ≡ least_common_multiple (lead_monomial g.now) (lead_monomial h.now)) }
{
    let Some(g_first) = g.lead() else {
        unreachable!()
    };
    let Some(h_first) = h.lead() else {
        unreachable!()
    };
    g_first.at.lcm(alloc, &h_first.at)
}

/// The multiple of g by a monomial whose lead is `top`.
fn raised<F: Field, O: Order>(
    alloc: Global,
    p: &Presentation<F, O>,
    g: &Poly<F>,
    top: &Monomial,
) -> Result<Poly<F>, Memory>
    requires presentation { IsPresentation (presented F.ops O.order p.now) }
    requires g { IsReducerIn (presented F.ops O.order p.now) g.now }
    requires top { IsMonomial (O.order p.now.order).places top.now }
    requires divides { Divides (lead_monomial g.now) top.now }
    requires small { (O.order p.now.order).degree top.now ≤ exponent_max }
    ensures canonical { IfOk result (IsCanonicalIn (presented F.ops O.order p.now)) }
    ensures multiple { IfOk result (λ r. (u : Exponents) × IsTrimmed u × (product u (lead_monomial g.now) ≡ top.now) ×
        Same (F.ops p.now.field) r (scaled (F.ops p.now.field) (term_of u (F.ops p.now.field).one) g.now)) }
{
    let Some(first) = g.lead() else {
        unreachable!()
    };
    let Some(u) = top.quotient(alloc, &first.at)? else {
        unreachable!()
    };
    let multiple = Poly::times_term(alloc, &p.field, &p.order, g, p.field.one(), &u)?;
    Ok(multiple)
}

/// The difference of the multiples of g and h whose leads are the least common multiple of theirs.
pub(crate) fn s_polynomial<F: Field, O: Order>(
    alloc: Global,
    p: &Presentation<F, O>,
    g: &Poly<F>,
    h: &Poly<F>,
) -> Result<Poly<F>, Memory>
    requires presentation { IsPresentation (presented F.ops O.order p.now) }
    requires g { IsReducerIn (presented F.ops O.order p.now) g.now }
    requires h { IsReducerIn (presented F.ops O.order p.now) h.now }
    requires small { (O.order p.now.order).degree
        (least_common_multiple (lead_monomial g.now) (lead_monomial h.now)) ≤ exponent_max }
    ensures canonical { IfOk result (IsCanonicalIn (presented F.ops O.order p.now)) }
    ensures difference { IfOk result (λ r. (u v : Exponents) ×
        AreCofactors u (lead_monomial g.now) v (lead_monomial h.now) ×
        Same (F.ops p.now.field) r (s_polynomial (F.ops p.now.field) u g.now v h.now)) }
{
    let top = common_multiple(alloc, g, h)?;
    let left = raised(alloc, p, g, &top)?;
    let right = raised(alloc, p, h, &top)?;
    let difference = Poly::sub(alloc, &p.field, &p.order, &left, &right)?;
    Ok(difference)
}
