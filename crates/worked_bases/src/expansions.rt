//! Witnesses in the generators alone, over the generators x + y, x*y and x*y^2. They are the elements s1, s2 and s3,
//! and s4 is x*y^3.
ghost use Rattle.std.specs.Prelude.{◌≡◌, ℕ, ◌+◌, ◌≤◌, ◌<◌, All, IfOk, IsTrue, List, length};
ghost use Rattle.word_field.specs.Residues.{residues};
ghost use Rattle.monomial_order.specs.declared.word_order.WordOrder.{WordOrder};
ghost use Rattle.polynomials.specs.Polynomial.{Polynomial, AllAt, IsCanonical};
ghost use Rattle.polynomial_text.specs.Degrees.{IsLow};
ghost use Rattle.witness.specs.Tracking.{by_order, values_of, HasPlaces, IsWitnessOrder};
ghost use Rattle.worked_rows.specs.Rings.{IsIn, IsRing};
ghost use Rattle.worked_bases.specs.Elements.{IsBasis, IsGeneratorElement, IsLowPair, IsMade, IsNext, IsPair, UsesBelow};
ghost use Rattle.worked_bases.specs.Rings.{of_ring};

use monomial_order::{Order, Term, WordOrder};
use poly_core::{Names, Poly};
use polynomial_text::read_poly;
use std::alloc::Global;
use std::test::Fail;
use witness::{Tracked, element, expand, generator, product, scale, sum};
use word_field::{Field, WordField};
use worked_rows::rings::{Ring, degree, ring, text_of};
use worked_rows::rows::{ensure, judge, part};

/// The generators x + y, x*y and x*y^2 over the field of 101 elements.
const SUM_AND_PRODUCTS: &str =
    "subalgebra 1\nfield 101\nvars x y\nweights 1 1\norder lex\nideal 0\ngenerators 3\nx + y\nx*y\nx*y^2\nend\n";

/// The names of the letters.
const LETTERS: &str =
    "subalgebra 1\nfield 101\nvars g1 g2 g3 s1 s2 s3 s4\nweights 1 1 1 1 1 1 1\norder lex\nideal 0\ngenerators 0\n\
     end\n";

/// Elements, and the order of witnesses over them.
#[derive(Drop)]
struct Basis {
    order: WordOrder,
    elements: Vec<Tracked<WordField>>,
}

/// A generator that is not zero.
pub(crate) fn nonzero_generator(
    alloc: Global,
    p: &Ring,
    i: usize,
) -> Result<Tracked<WordField>, Fail>
    requires valid { IsRing p.now }
    requires inside { i < length p.now.generators.items }
    ensures { IfOk result (IsGeneratorElement p.now) }
{
    let t = generator(alloc, p, i + 1)?;
    ensure(degree(p, &t.value) > 0, "a generator that is zero")?;
    Ok(t)
}

/// The generators as elements.
fn generators(alloc: Global, p: &Ring) -> Result<Vec<Tracked<WordField>>, Fail>
    requires { IsRing p.now }
    ensures { IfOk result (λ s. All (IsGeneratorElement p.now) s.items) }
{
    let mut s = Vec::new(alloc);
    'generators: for i in 0..p.generators.len() {
        s.push(nonzero_generator(alloc, p, i)?)?;
    }
    Ok(s)
}

/// The order of witnesses over these elements.
fn witness_order(alloc: Global, p: &Ring, s: &[Tracked<WordField>]) -> Result<WordOrder, Fail>
    requires valid { IsRing p.now }
    requires elements { All (IsGeneratorElement p.now) s.now }
    ensures { IfOk result (IsWitnessOrder (of_ring p.now) (values_of s.now)) }
{
    let mut w = p.gen_order.copy(alloc)?;
    'elements: for t in s {
        let d = degree(p, &t.value);
        ensure(1 <= d && d <= 30_000, "a great degree")?;
        w.push_place(d)?;
    }
    Ok(w)
}

/// The letter of an element that has this degree, counted from 0.
fn letter(
    alloc: Global,
    p: &Ring,
    w: &WordOrder,
    s: &[Tracked<WordField>],
    i: usize,
    d: u32,
) -> Result<Tracked<WordField>, Fail>
    requires valid { IsRing p.now }
    requires elements { All (IsGeneratorElement p.now) s.now }
    requires room { HasPlaces (length p.now.generators.items + length s.now) w.now }
    ensures pair { IfOk result (IsPair p.now w.now) }
    ensures low { IfOk result (IsLowPair p.now w.now) }
    ensures made { IfOk result (IsMade p.now w.now (values_of s.now) d) }
{
    ensure(i < s.len(), "no such element")?;
    let x = &s[i];
    ensure(degree(p, &x.value) == d, "another degree")?;
    Ok(element(alloc, p, &x.value, i + 1)?)
}

/// The product of two letters.
fn letter_product(
    alloc: Global,
    p: &Ring,
    w: &WordOrder,
    a: &Tracked<WordField>,
    b: &Tracked<WordField>,
) -> Result<Tracked<WordField>, Fail>
    requires valid { IsRing p.now }
    requires a { IsPair p.now w.now a.now }
    requires low { IsLowPair p.now w.now a.now }
    requires b { IsPair p.now w.now b.now }
    requires low_b { IsLowPair p.now w.now b.now }
    ensures pair { IfOk result (IsPair p.now w.now) }
    ensures made { IfOk result (λ t. (fs : List (Polynomial ℕ)) (d e : ℕ) →
        IsMade p.now w.now fs d a.now → IsMade p.now w.now fs e b.now → IsMade p.now w.now fs (d + e) t) }
{
    Ok(product(alloc, p, w, a, b)?)
}

/// a + 100*b.
fn difference(
    alloc: Global,
    p: &Ring,
    w: &WordOrder,
    a: &Tracked<WordField>,
    b: &Tracked<WordField>,
) -> Result<Tracked<WordField>, Fail>
    requires valid { IsRing p.now }
    requires a { IsPair p.now w.now a.now }
    requires b { IsPair p.now w.now b.now }
    ensures pair { IfOk result (IsPair p.now w.now) }
    ensures made { IfOk result (λ t. (fs : List (Polynomial ℕ)) (d : ℕ) →
        IsMade p.now w.now fs d a.now → IsMade p.now w.now fs d b.now → IsMade p.now w.now fs d t) }
{
    let negated = scale(alloc, p, b, p.field.from_word(100))?;
    Ok(sum(alloc, p, w, a, &negated)?)
}

/// Whether each letter of a word has a degree below this one.
fn word_uses_below(exponents: &[u16], degrees: &[u32], d: u32) -> bool
    ensures { IsTrue result → UsesBelow degrees.now d exponents.now }
{
    let (exponent, exponents) = match exponents.split_first() {
        Some(parts) => parts,
        None => return true,
    };
    let (degree, degrees) = match degrees.split_first() {
        Some(parts) => parts,
        None => return false,
    };
    (*exponent == 0 || *degree < d) && word_uses_below(exponents, degrees, d)
}

/// The same for each term.
fn uses_below(terms: &[Term<u32>], degrees: &[u32], d: u32) -> bool
    ensures { IsTrue result → AllAt (UsesBelow degrees.now d) terms.now }
{
    match terms.split_first() {
        Some((t, rest)) => {
            word_uses_below(t.at.as_slice(), degrees, d) && uses_below(rest, degrees, d)
        }
        None => true,
    }
}

/// The text of a witness.
fn witness_text(alloc: Global, p: &Ring, h: &Poly<WordField>) -> Result<String, Fail>
    requires { (w : WordOrder) × IsCanonical (residues p.now.field.modulus) (by_order w) h.now }
{
    let names = Names::Paired {
        first: b'g',
        count: 3,
        second: b's',
    };
    Ok(String::from_utf8(Poly::write(alloc, &p.field, h, &names)?)?)
}

/// Compares the value and its witness with a text.
fn judge_element(alloc: Global, p: &Ring, t: &Tracked<WordField>, text: &str) -> Result<(), Fail>
    requires valid { IsRing p.now }
    requires pair { (w : WordOrder) × IsPair p.now w t.now }
{
    let value = text_of(alloc, p, &t.value)?;
    let by = witness_text(alloc, p, &t.by)?;
    let found = format!(in alloc; "{value} by {by}")?;
    judge(text, found.as_str())
}

/// s1*s3.
fn first_by_third(
    alloc: Global,
    p: &Ring,
    w: &WordOrder,
    s: &[Tracked<WordField>],
) -> Result<Tracked<WordField>, Fail>
    requires valid { IsRing p.now }
    requires elements { All (IsGeneratorElement p.now) s.now }
    requires room { HasPlaces (length p.now.generators.items + length s.now) w.now }
    ensures pair { IfOk result (IsPair p.now w.now) }
    ensures made { IfOk result (IsMade p.now w.now (values_of s.now) 4) }
{
    let a = letter(alloc, p, w, s, 0, 1)?;
    judge_element(alloc, p, &a, "x + y by s1")?;
    let c = letter(alloc, p, w, s, 2, 3)?;
    let t = letter_product(alloc, p, w, &a, &c)?;
    Ok(t)
}

/// s2^2.
fn second_squared(
    alloc: Global,
    p: &Ring,
    w: &WordOrder,
    s: &[Tracked<WordField>],
) -> Result<Tracked<WordField>, Fail>
    requires valid { IsRing p.now }
    requires elements { All (IsGeneratorElement p.now) s.now }
    requires room { HasPlaces (length p.now.generators.items + length s.now) w.now }
    ensures pair { IfOk result (IsPair p.now w.now) }
    ensures made { IfOk result (IsMade p.now w.now (values_of s.now) 4) }
{
    let b = letter(alloc, p, w, s, 1, 2)?;
    let t = letter_product(alloc, p, w, &b, &b)?;
    Ok(t)
}

/// s1*s3 + 100*s2^2.
fn products_difference(
    alloc: Global,
    p: &Ring,
    w: &WordOrder,
    s: &[Tracked<WordField>],
) -> Result<Tracked<WordField>, Fail>
    requires valid { IsRing p.now }
    requires elements { All (IsGeneratorElement p.now) s.now }
    requires room { HasPlaces (length p.now.generators.items + length s.now) w.now }
    ensures pair { IfOk result (IsPair p.now w.now) }
    ensures made { IfOk result (IsMade p.now w.now (values_of s.now) 4) }
{
    let first = first_by_third(alloc, p, w, s)?;
    let second = second_squared(alloc, p, w, s)?;
    let t = difference(alloc, p, w, &first, &second)?;
    Ok(t)
}

/// The element s1*s3 + 100*s2^2, which is x*y^3.
fn fourth(
    alloc: Global,
    p: &Ring,
    w: &WordOrder,
    s: &[Tracked<WordField>],
) -> Result<Tracked<WordField>, Fail>
    requires valid { IsRing p.now }
    requires elements { All (IsGeneratorElement p.now) s.now }
    requires room { HasPlaces (length p.now.generators.items + length s.now) w.now }
    ensures { IfOk result (IsNext p.now w.now (values_of s.now) 4) }
{
    let t = products_difference(alloc, p, w, s)?;
    judge_element(alloc, p, &t, "x*y^3 by s1*s3 + 100*s2^2")?;
    ensure(degree(p, &t.value) == 4, "another degree")?;
    ensure(
        uses_below(t.by.terms(), w.s_degrees.as_slice(), 4),
        "a letter of no smaller degree",
    )?;
    Ok(t)
}

/// The generators as elements, with the order of witnesses over them.
fn generator_basis(alloc: Global, p: &Ring) -> Result<Basis, Fail>
    requires { IsRing p.now }
    ensures elements { IfOk result (λ b. All (IsGeneratorElement p.now) b.elements.items) }
    ensures order { IfOk result (λ b. IsWitnessOrder (of_ring p.now) (values_of b.elements.items) b.order) }
{
    let elements = generators(alloc, p)?;
    let order = witness_order(alloc, p, elements.as_slice())?;
    Ok(Basis { order, elements })
}

/// The generators and the fourth element.
fn four_elements(alloc: Global, p: &Ring) -> Result<Basis, Fail>
    requires { IsRing p.now }
    ensures { IfOk result (λ b. IsBasis p.now b.order b.elements.items) }
{
    let mut b = generator_basis(alloc, p)?;
    b.order.push_place(4)?;
    let t = fourth(alloc, p, &b.order, b.elements.as_slice())?;
    b.elements.push(t)?;
    Ok(b)
}

/// The witness of a text. The letters are named as the variables of the other presentation.
fn witness(
    alloc: Global,
    p: &Ring,
    letters: &Ring,
    w: &WordOrder,
    text: &str,
) -> Result<Poly<WordField>, Fail>
    requires { IsRing letters.now }
    ensures canonical { IfOk result (IsCanonical (residues p.now.field.modulus) (by_order w.now)) }
    ensures low { IfOk result (IsLow (by_order w.now)) }
{
    ensure(w.places() == letters.order.places(), "other letters")?;
    match read_poly(alloc, &p.field, w, &letters.names, text.as_bytes()) {
        Ok(h) => Ok(h),
        Err(_) => Err(Fail::new("no witness")),
    }
}

/// The expansion of the witness of a text.
fn expansion(
    alloc: Global,
    p: &Ring,
    letters: &Ring,
    w: &WordOrder,
    s: &[Tracked<WordField>],
    text: &str,
) -> Result<String, Fail>
    requires valid { IsRing p.now }
    requires letters { IsRing letters.now }
    requires basis { IsBasis p.now w.now s.now }
{
    let h = witness(alloc, p, letters, w, text)?;
    let e = expand(alloc, p, w, s, &h)?;
    witness_text(alloc, p, &e)
}

/// Compares the expansion of a row's witness over the basis.
fn see_expansion(alloc: Global, p: &Ring, letters: &Ring, b: &Basis, row: &str) -> Result<(), Fail>
    requires valid { IsRing p.now }
    requires letters { IsRing letters.now }
    requires basis { IsBasis p.now b.now.order b.now.elements.items }
{
    let found = expansion(
        alloc,
        p,
        letters,
        &b.order,
        b.elements.as_slice(),
        part(row, 0),
    )?;
    judge(row, found.as_str())
}

/// Compares each of the expansions over the basis.
fn see_expansions(alloc: Global, p: &Ring, letters: &Ring, b: &Basis) -> Result<(), Fail>
    requires valid { IsRing p.now }
    requires letters { IsRing letters.now }
    requires basis { IsBasis p.now b.now.order b.now.elements.items }
{
    for row in [
        "s1*s3 + 100*s2^2 | g1*g3 + 100*g2^2",
        // two steps: a letter of degree 4, and letters of smaller degrees
        "s4 | g1*g3 + 100*g2^2",
        "s1*s4 + 100*s2*s3 | g1^2*g3 + 100*g1*g2^2 + 100*g2*g3",
        "s1 | g1",
        "g1*s2 + s3 | g1*g2 + g3",
        "g1 + s1 | 2*g1",
        "g2 + 100*s2 | 0",
        "g1*g3 + g2 | g1*g3 + g2",
        "s1^2*s3^2 + s2^3 + 5 | g1^2*g3^2 + g2^3 + 5",
        "0 | 0",
    ] {
        see_expansion(alloc, p, letters, b, row)?;
    }
    Ok(())
}

/// The same over the generators and the fourth element.
fn see_four(alloc: Global, p: &Ring, letters: &Ring) -> Result<(), Fail>
    requires valid { IsRing p.now }
    requires letters { IsRing letters.now }
{
    let b = four_elements(alloc, p)?;
    see_expansions(alloc, p, letters, &b)
}

#[test]
fn witnesses_in_the_generators_alone(rt: HostRuntime) -> Result<(), Fail> {
    let alloc = rt.alloc();
    let p = ring(alloc, SUM_AND_PRODUCTS)?;
    let letters = ring(alloc, LETTERS)?;
    see_four(alloc, &p, &letters)
}
