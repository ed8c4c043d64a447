//! Chains of terms in x and y over the field of 101 elements.
ghost use Rattle.std.specs.Prelude.{◌≡◌, [], OnOk};
ghost use Rattle.worked_rows.specs.Rings.{IsIn, IsRing};

use linked_terms::TermChain;
use monomial_order::{Monomial, Term};
use std::alloc::Global;
use std::test::Fail;
use word_field::{Field, WordField};
use worked_rows::rings::{Ring, X_AND_Y, polynomial, ring};
use worked_rows::rows::{ensure, number};

/// Adds a product such as `2*x times x + y`.
fn add(alloc: Global, p: &Ring, chain: &mut TermChain<WordField>, product: &str) -> Result<(), Fail>
    requires ring { IsRing p.now }
    requires chain { IsIn p.now chain.old.terms }
    ensures { OnOk result (IsIn p.now chain.new.terms) }
{
    let Some((factor, terms)) = product.split_once(" times ") else {
        return Err(Fail::new("no product"));
    };
    let factor = polynomial(alloc, p, factor)?;
    let terms = polynomial(alloc, p, terms)?;
    match factor.lead() {
        Some(t) => Ok(chain.add_scaled(&p.field, &p.order, terms.terms(), t.by, &t.at)?),
        None => {
            let one = Monomial::one(alloc);
            Ok(chain.add_scaled(&p.field, &p.order, terms.terms(), p.field.zero(), &one)?)
        }
    }
}

/// Whether it is the term, or there is none.
fn is_term(found: Option<&Term<u32>>, expected: Option<&Term<u32>>) -> bool {
    match (found, expected) {
        (Some(t), Some(e)) => t.at == e.at && t.by == e.by,
        (None, None) => true,
        _ => false,
    }
}

/// Takes the first term out, and compares it.
fn pop(
    p: &Ring,
    chain: &mut TermChain<WordField>,
    expected: Option<&Term<u32>>,
    step: &str,
) -> Result<(), Fail>
    requires { IsIn p.now chain.old.terms }
    ensures { IsIn p.now chain.new.terms }
{
    let _ring = p;
    let found = chain.pop_lead();
    ensure(is_term(found.as_ref(), expected), step)
}

/// Takes all terms out, and compares them.
fn pop_all(chain: &mut TermChain<WordField>, expected: &[Term<u32>], step: &str) -> Result<(), Fail>
    ensures { OnOk result (chain.new.terms ≡ []) }
{
    for e in expected {
        let found = chain.pop_lead();
        ensure(is_term(found.as_ref(), Some(e)), step)?;
    }
    ensure(chain.pop_lead().is_none(), step)
}

/// One step of a row.
fn follow(alloc: Global, p: &Ring, chain: &mut TermChain<WordField>, step: &str) -> Result<(), Fail>
    requires ring { IsRing p.now }
    requires chain { IsIn p.now chain.old.terms }
    ensures { OnOk result (IsIn p.now chain.new.terms) }
{
    let Some((word, operand)) = step.split_once(' ') else {
        return Err(Fail::new("no step"));
    };
    match word {
        "reserve" => Ok(chain.reserve(number(operand)? as usize)?),
        "add" => add(alloc, p, chain, operand),
        "pop" => {
            let expected = polynomial(alloc, p, operand)?;
            pop(p, chain, expected.lead(), step)
        }
        "has" => {
            let expected = polynomial(alloc, p, operand)?;
            pop_all(chain, expected.terms(), step)
        }
        "clear" => {
            chain.clear();
            Ok(())
        }
        "len" => ensure(chain.len() == number(operand)? as usize, step),
        "spare" => ensure(chain.spare() == number(operand)? as usize, step),
        _ => Err(Fail::new("no step")),
    }
}

/// The steps of a row, from the empty chain on.
fn see_steps(alloc: Global, row: &str) -> Result<(), Fail> {
    let p = ring(alloc, X_AND_Y)?;
    let mut chain = TermChain::new(alloc);
    for step in row.split(" | ") {
        follow(alloc, &p, &mut chain, step)?;
    }
    Ok(())
}

#[test]
fn sums_in_place(rt: HostRuntime) -> Result<(), Fail> {
    for row in [
        "len 0 | spare 0 | pop 0 | has 0",
        "reserve 4 | add 1 times x + y | add 1 times x + y | len 2 | spare 2 | pop 2*x | spare 3 | has 2*y",
        // The first term, a term in the middle, the last one and all of them cancel.
        "reserve 4 | add 1 times x + y + 1 | add 100 times x | spare 2 | has y + 1",
        "reserve 4 | add 1 times x + y + 1 | add 100 times y | spare 2 | has x + 1",
        "reserve 4 | add 1 times x + y + 1 | add 100 times 1 | spare 2 | has x + y",
        "reserve 6 | add 1 times x + y + 1 | add 100 times x + y + 1 | spare 6 | has 0",
        // A term above all others, one below, and both at once with one between.
        "reserve 2 | add 1 times y | add 1 times x | spare 0 | has x + y",
        "reserve 2 | add 1 times x | add 1 times y | spare 0 | has x + y",
        "reserve 5 | add 1 times x^2 + y | add x times x^2 + y + 1 | has x^3 + x^2 + x*y + x + y",
        // Spare nodes are used again.
        "reserve 2 | add 1 times x + y | pop x | add 1 times 1 | spare 0 | has y + 1 | spare 2",
        "reserve 3 | add 1 times x + y | add 100 times x | add 1 times x^2 + 1 | spare 0 | has x^2 + y + 1",
        "reserve 3 | add 1 times x + y + 1 | clear all | len 0 | spare 3 | add 1 times y | has y",
        // The factor zero, other factors, and more terms than there are spare nodes.
        "reserve 2 | add 0 times x + y | spare 2 | has 0",
        "reserve 4 | add 3*x*y times x + 2*y | add 2*x*y times x + y | has 5*x^2*y + 8*x*y^2",
        "add 1 times x + y + 1 | add 1 times x^2 + y | has x^2 + x + 2*y + 1",
    ] {
        see_steps(rt.alloc(), row)?;
    }
    Ok(())
}
