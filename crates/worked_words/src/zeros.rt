//! Tests of lists that are to be the zeros of words.
ghost use Rattle.std.specs.Prelude.{◌≡◌, ◌≤◌, ◌<◌, All, Contains, true, IfSome, IsTrue};
ghost use Rattle.monomial_order.specs.Limits.{degree_max};
ghost use Rattle.monomial_order.specs.Monomial.{Divides, Exponents, weighted_degree};
ghost use Rattle.monomial_order.specs.Ranges.{all_between};
ghost use Rattle.toric_ideal.specs.Listing.{AreZeros, IsZero};

use monomial_order::Monomial;

/// The greatest degree that is listed to, and of a letter.
pub const DEGREE_MAX: u32 = 30_000;

/// The greatest degree at which words or a quotient may be asked whether they are closed.
pub const CLOSING_MAX: u32 = 15_000;

/// Whether each degree is from 1 to `DEGREE_MAX`.
pub fn are_degrees(degrees: &[u32]) -> bool
    ensures { IsTrue result → all_between 1 degree_max degrees.now ≡ true }
{
    match degrees.split_first() {
        Some((degree, rest)) => 1 <= *degree && *degree <= DEGREE_MAX && are_degrees(rest),
        None => true,
    }
}

/// The degree, if it can be counted.
pub fn degree_of(degrees: &[u32], exponents: &[u16]) -> Option<u32>
    ensures { IfSome result (λ d. d ≡ weighted_degree degrees.now exponents.now) }
{
    let (degree, degrees) = match degrees.split_first() {
        Some(parts) => parts,
        None => return Some(0),
    };
    let (exponent, exponents) = match exponents.split_first() {
        Some(parts) => parts,
        None => return Some(0),
    };
    let rest = degree_of(degrees, exponents)?;
    degree.checked_mul(*exponent as u32)?.checked_add(rest)
}

/// Whether it is a monomial in the x of a degree from 1 to c.
fn is_zero(degrees: &[u32], c: u32, z: &Monomial) -> bool
    ensures { IsTrue result → IsZero degrees.now c z.now }
{
    match degree_of(degrees, z.as_slice()) {
        Some(degree) => z.places() <= degrees.len() && 1 <= degree && degree <= c,
        None => false,
    }
}

/// Whether neither monomial divides the other.
fn are_apart(z: &Monomial, y: &Monomial) -> bool
    ensures { IsTrue result → (¬ Divides z.now y.now) × (¬ Divides y.now z.now) }
{
    !z.divides(y) && !y.divides(z)
}

/// Whether no divisor and no multiple of the monomial is in the list.
fn is_apart(z: &Monomial, list: &[Monomial]) -> bool
    ensures { IsTrue result → All (λ y. (¬ Divides z.now y) × (¬ Divides y z.now)) list.now }
{
    match list.split_first() {
        Some((y, rest)) => are_apart(z, y) && is_apart(z, rest),
        None => true,
    }
}

/// Whether the monomial can be put before the zeros of the degree c.
fn can_precede(degrees: &[u32], c: u32, z: &Monomial, list: &[Monomial]) -> bool
    ensures zero { IsTrue result → IsZero degrees.now c z.now }
    ensures apart { IsTrue result → All (λ y. (¬ Divides z.now y) × (¬ Divides y z.now)) list.now }
{
    is_zero(degrees, c, z) && is_apart(z, list)
}

/// Whether the list can be the zeros of the degree c.
pub fn are_zeros(degrees: &[u32], c: u32, zeros: &[Monomial]) -> bool
    ensures { IsTrue result → AreZeros degrees.now c zeros.now }
{
    match zeros.split_first() {
        Some((z, rest)) => can_precede(degrees, c, z, rest) && are_zeros(degrees, c, rest),
        None => true,
    }
}

/// Whether the monomial is in the list.
fn has(list: &[Monomial], z: &Monomial) -> bool
    ensures { IsTrue result → Contains list.now z.now }
{
    match list.split_first() {
        Some((y, rest)) => y.as_slice() == z.as_slice() || has(rest, z),
        None => false,
    }
}

/// Whether the monomial has a degree above d.
fn is_above(degrees: &[u32], d: u32, z: &Monomial) -> bool
    ensures { IsTrue result → d < weighted_degree degrees.now z.now }
{
    match degree_of(degrees, z.as_slice()) {
        Some(degree) => d < degree,
        None => false,
    }
}

/// Whether each member of `some` of degree at most d is in `all`.
pub fn has_up_to(degrees: &[u32], d: u32, some: &[Monomial], all: &[Monomial]) -> bool
    ensures { IsTrue result
        → (z : Exponents) → weighted_degree degrees.now z ≤ d → Contains some.now z → Contains all.now z }
{
    match some.split_first() {
        Some((z, rest)) => {
            (is_above(degrees, d, z) || has(all, z)) && has_up_to(degrees, d, rest, all)
        }
        None => true,
    }
}
