//! Subduction by bases of the generators, worked out by hand.
ghost use Rattle.std.specs.Prelude.{ℕ, ◌≡◌, ◌<◌, ◌≤◌, length, IfOk};
ghost use Rattle.word_field.specs.Residues.{residues};
ghost use Rattle.monomial_order.specs.MonomialOrder.{MonomialOrder};
ghost use Rattle.poly_core.specs.Presentation.{weight_order_of};
ghost use Rattle.polynomials.specs.Polynomial.{degree_of, IsCanonical};
ghost use Rattle.worked_rows.specs.Rings.{IsRing};
ghost use Rattle.worked_bases.specs.Elements.{IsGeneratorElement};
ghost use Rattle.worked_bases.specs.LowBases.{IsCase, IsLowBasis};

use crate::expansions::nonzero_generator;
use monomial_order::WeightOrder;
use poly_core::{Names, Poly};
use std::alloc::Global;
use std::test::Fail;
use subduction::{Basis, subduce};
use witness::Tracked;
use word_field::WordField;
use worked_rows::rings::{Ring, degree, polynomial, ring, text_of};
use worked_rows::rows::{ensure, judge, number, part};

/// The generators x + y and x*y.
const SUM_AND_PRODUCT: &str =
    "subalgebra 1\nfield 101\nvars x y\nweights 1 1\norder lex\nideal 0\ngenerators 2\nx + y\nx*y\nend\n";

/// The generator x + y modulo x^2 - y^2.
const SUM_ON_LINES: &str =
    "subalgebra 1\nfield 101\nvars x y\nweights 1 1\norder lex\nideal 1\nx^2 - y^2\ngenerators 1\nx + y\nend\n";

/// The generators x + y, x*y and x^2 + y^2, the last of which is a polynomial in the others.
const ONE_TOO_MANY: &str =
    "subalgebra 1\nfield 101\nvars x y\nweights 1 1\norder lex\nideal 0\ngenerators 3\nx + y\nx*y\nx^2 + y^2\nend\n";

/// The generators x^2 + y^2 and x^2 + x*y.
const QUADRICS: &str =
    "subalgebra 1\nfield 101\nvars x y\nweights 1 1\norder lex\nideal 0\ngenerators 2\nx^2 + y^2\nx^2 + x*y\nend\n";

/// A ring with a basis of its generators.
#[derive(Drop)]
pub(crate) struct Case {
    pub(crate) ring: Ring,
    pub(crate) basis: Basis<WordField, WeightOrder>,
}

/// Adds what is left of a generator of the last degree, if something is left.
fn add_rest(
    alloc: Global,
    p: &Ring,
    b: &mut Basis<WordField, WeightOrder>,
    t: &Tracked<WordField>,
) -> Result<(), Fail>
    requires valid { IsRing p.now }
    requires basis { IsLowBasis p.now b.old }
    requires element { IsGeneratorElement p.now t.now }
    requires degree { degree_of (weight_order_of p.now.order) t.now.value ≡ b.old.words.degree }
    requires low { b.old.words.degree ≤ 30000 }
    ensures { IfOk result (λ _. IsLowBasis p.now b.new) }
{
    let s = subduce(alloc, p, b, t)?;
    let Some(_first) = s.rest.value.lead() else {
        return Ok(());
    };
    b.push(alloc, p, s.rest)?;
    Ok(())
}

/// Adds what is left of a generator, if it has the last degree and something is left.
fn take_generator(
    alloc: Global,
    p: &Ring,
    b: &mut Basis<WordField, WeightOrder>,
    i: usize,
) -> Result<(), Fail>
    requires valid { IsRing p.now }
    requires basis { IsLowBasis p.now b.old }
    requires inside { i < length p.now.generators.items }
    ensures { IfOk result (λ _. IsLowBasis p.now b.new) }
{
    let t = nonzero_generator(alloc, p, i)?;
    let d = degree(p, &t.value);
    if d != b.words().degree() {
        return Ok(());
    }
    ensure(d <= 30_000, "a great degree")?;
    add_rest(alloc, p, b, &t)
}

/// Takes the generators of this degree.
fn take_degree(
    alloc: Global,
    p: &Ring,
    b: &mut Basis<WordField, WeightOrder>,
    d: u32,
) -> Result<(), Fail>
    requires valid { IsRing p.now }
    requires basis { IsLowBasis p.now b.old }
    ensures { IfOk result (λ _. IsLowBasis p.now b.new) }
{
    extend(alloc, p, b, d)?;
    'generators: for i in 0..p.generators.len() {
        take_generator(alloc, p, b, i)?;
    }
    b.settle(alloc, p)?;
    Ok(())
}

/// Extends the basis to a degree of at most 15000.
pub(crate) fn extend(
    alloc: Global,
    p: &Ring,
    b: &mut Basis<WordField, WeightOrder>,
    d: u32,
) -> Result<(), Fail>
    requires valid { IsRing p.now }
    requires basis { IsLowBasis p.now b.old }
    ensures { IfOk result (λ _. IsLowBasis p.now b.new) }
{
    ensure(d <= 15_000, "a great degree")?;
    b.extend_to(alloc, p, d)?;
    Ok(())
}

/// What the generators leave, degree by degree to the bound.
pub(crate) fn basis(
    alloc: Global,
    p: &Ring,
    bound: u32,
) -> Result<Basis<WordField, WeightOrder>, Fail>
    requires { IsRing p.now }
    ensures { IfOk result (IsLowBasis p.now) }
{
    let mut b = Basis::new(alloc, p)?;
    'degrees: for d in 0..bound {
        take_degree(alloc, p, &mut b, d + 1)?;
    }
    Ok(b)
}

/// The text of a sum of words in x1, x2, s1, s2, ..
pub(crate) fn words_text(alloc: Global, p: &Ring, e: &Poly<WordField>) -> Result<String, Fail>
    requires { (W : MonomialOrder) × IsCanonical (residues p.now.field.modulus) W e.now }
{
    let names = Names::Paired {
        first: b'x',
        count: 2,
        second: b's',
    };
    Ok(String::from_utf8(Poly::write(alloc, &p.field, e, &names)?)?)
}

/// The sum of words and the rest of the polynomial of a text.
fn subduced(
    alloc: Global,
    p: &Ring,
    b: &Basis<WordField, WeightOrder>,
    text: &str,
) -> Result<String, Fail>
    requires valid { IsRing p.now }
    requires basis { IsLowBasis p.now b.now }
{
    let value = polynomial(alloc, p, text)?;
    let d = degree(p, &value);
    ensure(d <= b.words().degree(), "out of reach")?;
    ensure(d <= 30_000, "out of reach")?;
    let by = Poly::zero(alloc);
    let s = subduce(alloc, p, b, &Tracked { value, by })?;
    let word_sum = words_text(alloc, p, &s.word_sum)?;
    let rest = text_of(alloc, p, &s.rest.value)?;
    Ok(format!(in alloc; "{word_sum}; {rest}")?)
}

/// A ring with what its generators leave to this degree.
fn begin(alloc: Global, presentation: &str, bound: u32) -> Result<Case, Fail>
    ensures { IfOk result (λ c. IsCase c.ring c.basis) }
{
    let ring = ring(alloc, presentation)?;
    let basis = basis(alloc, &ring, bound)?;
    Ok(Case { ring, basis })
}

/// Extends the basis of a case to a degree of at most 15000.
fn extend_case(alloc: Global, case: &mut Case, d: u32) -> Result<(), Fail>
    requires { IsCase case.old.ring case.old.basis }
    ensures { IfOk result (λ _. IsCase case.new.ring case.new.basis) }
{
    extend(alloc, &case.ring, &mut case.basis, d)
}

/// The basis of the generators to the degree of a row's first part, extended to the degree of its second part.
pub(crate) fn case_of(alloc: Global, presentation: &str, row: &str) -> Result<Case, Fail>
    ensures { IfOk result (λ c. IsCase c.ring c.basis) }
{
    let first = number(part(row, 0))?;
    let second = number(part(row, 1))?;
    let mut case = begin(alloc, presentation, first)?;
    extend_case(alloc, &mut case, second)?;
    Ok(case)
}

/// The sum of words and the rest of the polynomial of a text, and whether the basis is closed.
fn answer(alloc: Global, case: &mut Case, text: &str) -> Result<String, Fail>
    requires { IsCase case.old.ring case.old.basis }
{
    let found = subduced(alloc, &case.ring, &case.basis, text)?;
    let closed = case.basis.closed(alloc, &case.ring)?;
    Ok(format!(in alloc; "{found}; {closed}")?)
}

/// Fails unless a row has the answer of its case.
fn see_answer(alloc: Global, case: &mut Case, row: &str) -> Result<(), Fail>
    requires { IsCase case.old.ring case.old.basis }
{
    let answer = answer(alloc, case, part(row, 2))?;
    judge(row, answer.as_str())
}

/// Fails unless a row has the answer of the basis of the generators to its first part's degree, extended to the degree
/// of its second part.
fn check(alloc: Global, presentation: &str, row: &str) -> Result<(), Fail> {
    let mut case = case_of(alloc, presentation, row)?;
    see_answer(alloc, &mut case, row)
}

#[test]
fn words_and_rests(rt: HostRuntime) -> Result<(), Fail> {
    // the degree of the generators, that of the basis, a polynomial | words; rest; whether the basis is closed
    for row in [
        "2 | 2 | x^2 + y^2 | s1^2 + 99*s2; 0; true",
        "2 | 2 | y | 0; y; true",
        "2 | 2 | x^2 + y^2 + x + y | s1^2 + 99*s2 + s1; 0; true",
        "2 | 2 | x^2 + y | s1^2 + 99*s2; 100*y^2 + y; true",
        "2 | 2 | 5 | 5; 0; true",
        "2 | 2 | 0 | 0; 0; true",
    ] {
        check(rt.alloc(), SUM_AND_PRODUCT, row)?;
    }
    Ok(())
}

#[test]
fn rests_modulo_an_ideal(rt: HostRuntime) -> Result<(), Fail> {
    for row in [
        "1 | 1 | x | s1; 100*y; false",
        "1 | 2 | x^2 | 0; y^2; true",
        "1 | 2 | x*y + y^2 + x + y | s1; x*y + y^2; true",
    ] {
        check(rt.alloc(), SUM_ON_LINES, row)?;
    }
    Ok(())
}

#[test]
fn elements_of_one_degree(rt: HostRuntime) -> Result<(), Fail> {
    let row = "2 | 2 | x^2 + y^2 | s1^2 + 99*s2; 0; true";
    check(rt.alloc(), ONE_TOO_MANY, row)?;
    // the elements are x*y + 100*y^2 and x^2 + y^2; x*s1 and y*s2 have one image, and so have y^2*s2 and s1^2
    for row in [
        "2 | 2 | x*y | s1; y^2; false",
        "2 | 3 | x^2 + x*y | s1 + s2; 0; false",
        "2 | 4 | 3*x^2 | 3*s2; 98*y^2; true",
    ] {
        check(rt.alloc(), QUADRICS, row)?;
    }
    Ok(())
}
