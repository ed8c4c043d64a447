//! The place of a name.
ghost use Rattle.std.specs.Prelude.{◌≡◌, ◌≢◌, ◌<◌, ◌≤◌, ◌+◌, ◌-◌, ◌^◌, ◌↔◌, ℕ, ◌∷◌, length, slice_index};
ghost use Rattle.std.specs.Prelude.{IsTrue, IfSome, IsNone};
ghost use Rattle.std.specs.Fmt.{decimal};
ghost use Rattle.poly_core.specs.declared.place_names.Names.TheVariants as ways;
ghost use Rattle.polynomial_text.specs.Canonical.{AreDifferent};
ghost use Rattle.polynomial_text.specs.PolyLine.{place_of};

use poly_core::{NameTable, Names};

/// Whether there is neither a sign nor a zero that leads other digits.
fn is_plain(digits: &[u8]) -> bool
    ensures { IsTrue result
        ↔ ((slice_index digits.now 0 ≢ 43) × (slice_index digits.now 0 ≡ 48 → length digits.now ≡ 1)) }
{
    match digits {
        [b'+', ..] => false,
        [b'0', _, ..] => false,
        _ => true,
    }
}

/// The number whose decimal the digits are.
fn number(digits: &[u8]) -> Option<u64>
    ensures some { IfSome result (λ n. (digits.now ≡ decimal n) × (n < 2 ^ 64)) }
    ensures none { IsNone result → (n : ℕ) → n < 2 ^ 64 → digits.now ≡ decimal n → ⊥ }
{
    if !is_plain(digits) {
        return None;
    }
    match str::from_utf8(digits) {
        Ok(text) => text.parse::<u64>().ok(),
        Err(_) => None,
    }
}

/// The place of a name in a table, among the first so many.
fn listed_place(table: &NameTable, count: usize, word: &[u8]) -> Option<usize>
    requires { AreDifferent count (ways.Listed table.now) }
    ensures { result ≡ place_of (ways.Listed table.now) count word.now }
{
    let Ok(name) = str::from_utf8(word) else {
        return None;
    };
    match table.place(name) {
        Some(i) if i < count.min(table.len()) => Some(i),
        _ => None,
    }
}

/// The place from `skip` on, below `count`, whose name is the prefix and its number.
fn numbered_place(prefix: u8, skip: usize, count: usize, word: &[u8]) -> Option<usize>
    ensures within { IfSome result (λ i. (skip ≤ i) × (i < count)) }
    ensures at { IfSome result (λ i. word.now ≡ prefix ∷ decimal (i + 1 - skip)) }
    ensures none { IsNone result → (i : ℕ) → skip ≤ i → i < count → word.now ≡ prefix ∷ decimal (i + 1 - skip) → ⊥ }
{
    let [first, digits @ ..] = word else {
        return None;
    };
    if *first != prefix || count <= skip {
        return None;
    }
    match number(digits) {
        Some(n) if 1 <= n && n <= (count - skip) as u64 => Some(skip + (n - 1) as usize),
        _ => None,
    }
}

/// The place with a name, among the first so many.
pub(crate) fn place(names: &Names, count: usize, word: &[u8]) -> Option<usize>
    requires { AreDifferent count names.now }
    ensures { result ≡ place_of names.now count word.now }
{
    match names {
        Names::Listed(table) => listed_place(table, count, word),
        Names::Numbered { prefix, skip } => numbered_place(*prefix, *skip, count, word),
        Names::Paired {
            first,
            count: firsts,
            second,
        } => match numbered_place(*first, 0, count.min(*firsts), word) {
            Some(place) => Some(place),
            None => numbered_place(*second, *firsts, count, word),
        },
    }
}
