//! Calls of words, with their conditions tested first.
ghost use Rattle.std.specs.Prelude.{◌≡◌, ◌≢◌, ◌≤◌, length, IfOk, IsNone, IsSome};
ghost use Rattle.monomial_order.specs.Monomial.{weighted_degree, Exponents, IsMonomial, IsMultiple};
ghost use Rattle.word_laws.specs.Words.{image_of, IsSWord};

use crate::zeros::{CLOSING_MAX, DEGREE_MAX, are_zeros, degree_of, has_up_to};
use monomial_order::{Monomial, Tie, WeightOrder};
use std::alloc::Global;
use std::test::Fail;
use toric_ideal::Words;
use worked_rows::rows::ensure;

/// The degrees of the x.
pub(crate) fn x_degrees(words: &Words) -> &[u32]
    ensures { result.now ≡ words.now.letters.degrees }
{
    words.order().x_degrees.as_slice()
}

/// Lists to the degree with these zeros.
pub(crate) fn extend(
    alloc: Global,
    words: &mut Words,
    c: u32,
    zeros: &[Monomial],
) -> Result<(), Fail> {
    ensure(c <= DEGREE_MAX, "a great degree")?;
    ensure(are_zeros(x_degrees(words), c, zeros), "no list of zeros")?;
    let d = words.degree();
    ensure(
        has_up_to(x_degrees(words), d, words.zeros(), zeros),
        "a zero is left out",
    )?;
    ensure(
        has_up_to(x_degrees(words), d, zeros, words.zeros()),
        "a late zero",
    )?;
    words.extend_to(alloc, c, zeros)?;
    Ok(())
}

/// The degree of a monomial in the x, which is at most the listed one.
fn listed_degree(words: &Words, m: &Monomial) -> Result<u32, Fail>
    ensures monomial { IfOk result (λ _. IsMonomial (length words.now.letters.degrees) m.now) }
    ensures degree { IfOk result (λ d. d ≡ weighted_degree words.now.letters.degrees m.now) }
    ensures listed { IfOk result (λ d. d ≤ words.now.degree) }
{
    ensure(m.places() <= x_degrees(words).len(), "another letter")?;
    let d = degree_of(x_degrees(words), m.as_slice()).ok_or("a great degree")?;
    ensure(d <= words.degree(), "a great degree")?;
    Ok(d)
}

/// The least word with the image of a monomial in the x.
pub(crate) fn least(alloc: Global, words: &Words, m: &Monomial) -> Result<Option<Monomial>, Fail>
    ensures monomial { IfOk result (λ _. IsMonomial (length words.now.letters.degrees) m.now) }
    ensures degree { IfOk result (λ _. weighted_degree words.now.letters.degrees m.now ≤ words.now.degree) }
    ensures standard { IfOk result (λ v. IsSome v → ¬ IsMultiple words.now.zeros m.now) }
{
    let _degree = listed_degree(words, m)?;
    let _leads = words.leads();
    Ok(words.least(alloc, m)?)
}

/// The least s-word with a standard monomial as its image.
pub(crate) fn factor(alloc: Global, words: &Words, m: &Monomial) -> Result<Option<Monomial>, Fail>
    ensures monomial { IfOk result (λ _. IsMonomial (length words.now.letters.degrees) m.now) }
    ensures standard { IfOk result (λ _. ¬ IsMultiple words.now.zeros m.now) }
    ensures none { IfOk result (λ v. IsNone v
        → (u : Exponents) → IsSWord words.now.letters u → image_of words.now.letters u ≢ m.now) }
{
    ensure(least(alloc, words, m)?.is_some(), "not standard")?;
    Ok(words.factor(alloc, m)?)
}

/// Makes the monomial the next lead, once it is seen to be a new one.
pub(crate) fn push(alloc: Global, words: &mut Words, m: &Monomial) -> Result<(), Fail> {
    ensure(factor(alloc, words, m)?.is_none(), "no new lead")?;
    ensure(listed_degree(words, m)? == words.degree(), "another degree")?;
    words.push_lead(alloc, m)?;
    Ok(())
}

/// Settles by the degrees of the x and the tie.
pub(crate) fn settle(alloc: Global, words: &mut Words, tie: Tie) -> Result<(), Fail> {
    let order = WeightOrder::new(alloc, x_degrees(words), &[], tie)?;
    words.settle(alloc, &order)?;
    Ok(())
}

/// Copies of the monomials.
fn copies(alloc: Global, list: &[Monomial]) -> Result<Vec<Monomial>, Fail>
    ensures { IfOk result (λ v. v.items ≡ list.now) }
{
    let mut copies = Vec::with_capacity(alloc, list.len())?;
    for m in list {
        copies.push(m.copy(alloc)?)?;
    }
    Ok(copies)
}

/// Whether the words are closed at their degree.
pub(crate) fn is_closed(alloc: Global, words: &mut Words) -> Result<bool, Fail> {
    ensure(words.degree() <= CLOSING_MAX, "a great degree")?;
    let zeros = copies(alloc, words.zeros())?;
    Ok(words.closed(alloc, zeros.as_slice())?)
}
