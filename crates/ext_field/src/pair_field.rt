//! The fields of pairs.

ghost use Rattle.std.specs.Prelude.{◌≡◌, ◌≢◌, ◌↔◌, ◌<◌, ◌≤◌, ◌+◌, ◌-◌, ◌*◌, ◌%◌, true, IsSome, IfSome};
ghost use Rattle.ext_field.specs.PairField.{pairs, is_square, is_pair_size};
ghost use Rattle.ext_field.specs.laws.Pairs.{pairs_field};
ghost use Rattle.ext_field.specs.laws.Equal.{pairs_eq};

use super::pair::Pair;
use word_field::Field;

/// The field of the pairs of numbers below a prime.
#[derive(Clone, Copy)]
pub struct PairField {
    pub prime: u32,
    /// The square of (0, 1).
    pub square: Pair,
    /// 65536 divided by `prime`, rounded up.
    reciprocal: u32,
    pub ghost chosen: { is_square prime square.low square.high ≡ true },
    ghost rounded: { 65536 ≤ prime * reciprocal },
    ghost closest: { prime * reciprocal < 65536 + prime },
}

impl PairField {
    /// The field of size `q`, if it is a field of pairs.
    pub fn new(q: u32) -> Option<PairField>
        ensures listed { IsSome result ↔ (is_pair_size q ≡ true) }
        ensures size { IfSome result (λ f. f.prime * f.prime ≡ q) }
    {
        match q {
            4 => Some(PairField {
                prime: 2,
                square: Pair { low: 1, high: 1 },
                reciprocal: 32768,
            }),
            9 => Some(PairField {
                prime: 3,
                square: Pair { low: 2, high: 0 },
                reciprocal: 21846,
            }),
            49 => Some(PairField {
                prime: 7,
                square: Pair { low: 6, high: 0 },
                reciprocal: 9363,
            }),
            _ => None,
        }
    }

    /// The remainder of `n` by the prime, by a product with the reciprocal.
    fn remainder(&self, n: u32) -> u32
        requires { n < 256 }
        ensures { result ≡ n % self.now.prime }
    {
        n - (n * self.reciprocal >> 16) * self.prime
    }

    /// The sum of two numbers modulo the prime.
    fn sum(&self, a: u32, b: u32) -> u32
        requires left { a < self.now.prime }
        requires right { b < self.now.prime }
        ensures { result ≡ (a + b) % self.now.prime }
    {
        let both = a + b;
        if both < self.prime {
            both
        } else {
            both - self.prime
        }
    }

    /// The difference of two numbers modulo the prime.
    fn difference(&self, a: u32, b: u32) -> u32
        requires left { a < self.now.prime }
        requires right { b < self.now.prime }
        ensures { result ≡ (a + (self.now.prime - b)) % self.now.prime }
    {
        if a < b { a + (self.prime - b) } else { a - b }
    }

    /// The inverse of a number modulo the prime, which is its fifth power.
    fn inverse(&self, n: u32) -> u32
        requires below { n < self.now.prime }
        ensures below { result < self.now.prime }
        ensures inverts { n ≢ 0 → n * result % self.now.prime ≡ 1 }
    {
        let square = self.remainder(n * n);
        self.remainder(self.remainder(square * square) * n)
    }
}

impl Field for PairField {
    type Elem = Pair;

    ghost ops = { λ f. pairs f.prime f.square.low f.square.high };

    fn zero(&self) -> Pair {
        Pair { low: 0, high: 0 }
    }

    fn one(&self) -> Pair {
        Pair { low: 1, high: 0 }
    }

    fn add(&self, a: Pair, b: Pair) -> Pair {
        Pair {
            low: self.sum(a.low, b.low),
            high: self.sum(a.high, b.high),
        }
    }

    fn sub(&self, a: Pair, b: Pair) -> Pair {
        Pair {
            low: self.difference(a.low, b.low),
            high: self.difference(a.high, b.high),
        }
    }

    fn neg(&self, a: Pair) -> Pair {
        Pair {
            low: self.difference(0, a.low),
            high: self.difference(0, a.high),
        }
    }

    fn mul(&self, a: Pair, b: Pair) -> Pair {
        let both = a.high * b.high;
        Pair {
            low: self.remainder(a.low * b.low + self.square.low * both),
            high: self.remainder(a.low * b.high + a.high * b.low + self.square.high * both),
        }
    }

    // The conjugate of `a` divided by the norm, their product.
    fn inv(&self, a: Pair) -> Option<Pair> {
        let conjugate = Pair {
            low: a.low + self.square.high * a.high,
            high: self.prime - a.high,
        };
        let norm = self.remainder(
            a.low * conjugate.low + self.square.low * a.high * conjugate.high,
        );
        if norm == 0 {
            return None;
        }
        let by = self.inverse(norm);
        Some(Pair {
            low: self.remainder(conjugate.low * by),
            high: self.remainder(conjugate.high * by),
        })
    }

    fn from_word(&self, w: u64) -> Pair {
        let number = (w % self.size() as u64) as u32;
        Pair {
            low: number % self.prime,
            high: number / self.prime,
        }
    }

    fn to_word(&self, a: Pair) -> u32 {
        a.low + self.prime * a.high
    }

    fn size(&self) -> u32 {
        self.prime * self.prime
    }

    ghost laws = { λ f. pairs_field f.prime f.square.low f.square.high f.chosen };

    ghost eq_is = { pairs_eq };
}
