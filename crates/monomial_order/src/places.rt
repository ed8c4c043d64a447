//! Lists of exponents, place by place.
ghost use Rattle.std.specs.Prelude.{◌≡◌, ◌≤◌, ◌+◌, ◌-◌, ◌↔◌, ℕ, IsTrue, length, take};
ghost use Rattle.monomial_order.specs.Limits.{exponent_max};
ghost use Rattle.monomial_order.specs.Monomial.{exponent, product, least_common_multiple, Divides, IsTrimmed};

/// How many places are left when the zeros at the end are left out.
pub(crate) fn used_places(exponents: &[u16]) -> usize
    ensures within { result ≤ length exponents.now }
    ensures trimmed { IsTrimmed (take result exponents.now) }
    ensures zeros { (i : ℕ) → result ≤ i → exponent exponents.now i ≡ 0 }
    ensures least { (n : ℕ) → ((i : ℕ) → n ≤ i → exponent exponents.now i ≡ 0) → result ≤ n }
{
    let mut used = exponents.len();
    while used > 0 && exponents[used - 1] == 0 {
        used -= 1;
    }
    used
}

/// Adds exponents, of which there are no more than sums.
pub(crate) fn add_places(sums: &mut [u16], exponents: &[u16])
    requires short { length exponents.now ≤ length sums.old }
    requires fits { (i : ℕ) → exponent sums.old i + exponent exponents.now i ≤ exponent_max }
    ensures { sums.new ≡ product sums.old exponents.now }
{
    for i in 0..exponents.len() {
        sums[i] += exponents[i];
    }
}

/// Subtracts exponents, none of which is the greater one.
pub(crate) fn subtract_places(rest: &mut [u16], exponents: &[u16])
    requires short { length exponents.now ≤ length rest.old }
    requires fits { Divides exponents.now rest.old }
    ensures { (i : ℕ) → exponent rest.new i ≡ exponent rest.old i - exponent exponents.now i }
{
    for i in 0..exponents.len() {
        rest[i] -= exponents[i];
    }
}

/// Takes the greater exponents, of which there are no more than maxima.
pub(crate) fn raise_places(maxima: &mut [u16], exponents: &[u16])
    requires { length exponents.now ≤ length maxima.old }
    ensures { maxima.new ≡ least_common_multiple maxima.old exponents.now }
{
    for i in 0..exponents.len() {
        maxima[i] = maxima[i].max(exponents[i]);
    }
}

pub(crate) fn divides_places(a: &[u16], b: &[u16]) -> bool
    requires { IsTrimmed a.now }
    ensures { IsTrue result ↔ Divides a.now b.now }
{
    if a.len() > b.len() {
        return false;
    }
    for i in 0..a.len() {
        if a[i] > b[i] {
            return false;
        }
    }
    true
}
