//! The words of a command.
ghost use Rattle.std.specs.Prelude.{◌≡◌, ◌≢◌, ℕ, ◌≤◌, ◌↔◌, IsTrue, IfSome, IfNone, List, Some, length, codes, slice_get};
ghost use Rattle.std.specs.Fmt.{decimal};
ghost use Rattle.sagbi_cli.specs.Command.{AreNameAndBound, BeginsWithDigit, IsCommand, IsNoCommand, IsPicked, IsUpTo};

use crate::WordList;
use completion::{BOUND_MAX, Pick};

/// The greatest number of a trial.
const TRIAL_MAX: u32 = 8;

/// What the words of a command line ask for.
#[derive(Clone, Copy)]
pub enum Command<'a> {
    /// The report on a presentation to a bound.
    Complete {
        pres: &'a str,
        bound: u32,
        pick: Pick,
    },
    /// The answers to queries, by the reduced basis to a bound.
    Ask {
        pres: &'a str,
        bound: u32,
        queries: &'a str,
    },
    /// The relations to a bound.
    Relations {
        pres: &'a str,
        bound: u32,
    },
    /// The summary of a completion of power sums.
    Trial {
        number: u32,
    },
}

/// Whether there is a first byte, and it is a digit from 1 on.
fn begins_with_digit(word: &[u8]) -> bool
    ensures { IsTrue result ↔ BeginsWithDigit word.now }
{
    match word {
        [first, ..] => *first >= b'1' && *first <= b'9',
        [] => false,
    }
}

/// The number from 1 to `most` whose decimal the word is.
fn number_of(word: &str, most: u32) -> Option<u32>
    requires { most ≤ BOUND_MAX }
    ensures some { IfSome result (λ n. IsUpTo most n × (word.now ≡ decimal n)) }
    ensures none { IfNone result ((n : ℕ) → IsUpTo most n → word.now ≢ decimal n) }
{
    if !begins_with_digit(word.as_bytes()) {
        return None;
    }
    match word.parse::<u32>() {
        Ok(n) if 1 <= n && n <= most => Some(n),
        _ => None,
    }
}

/// Whether the word at an index is this text.
fn is_at(words: &WordList, index: usize, text: &str) -> bool
    ensures { IsTrue result ↔ (slice_get words.now index ≡ Some text.now) }
{
    index < words.len() && words.get(index) == text
}

/// The name and the bound behind the first word.
fn name_and_bound(words: &WordList) -> Option<(&str, u32)>
    requires { 3 ≤ length words.now }
    ensures some { IfSome result (λ c. AreNameAndBound c.0.now c.1
        × (slice_get words.now 1 ≡ Some c.0.now) × (slice_get words.now 2 ≡ Some (decimal c.1))) }
    ensures none { IfNone result ((name : List ℕ) (bound : ℕ) → AreNameAndBound name bound →
        slice_get words.now 1 ≡ Some name → slice_get words.now 2 ≢ Some (decimal bound)) }
{
    let name = words.get(1);
    if name.is_empty() {
        return None;
    }
    let bound = number_of(words.get(2), BOUND_MAX)?;
    Some((name, bound))
}

/// Which candidates are taken first, by the words behind the bound.
fn pick_of(words: &WordList) -> Option<Pick>
    ensures some { IfSome result (IsPicked words.now) }
    ensures none { IfNone result ((pick : Pick) → IsPicked words.now pick → ⊥) }
{
    match words.len() {
        3 => Some(Pick::First),
        4 if is_at(words, 3, "last") => Some(Pick::Last),
        _ => None,
    }
}

/// `complete PRES D` or `complete PRES D last`.
fn complete(words: &WordList) -> Option<Command<'_>>
    requires first { slice_get words.now 0 ≡ Some (codes "complete") }
    ensures some { IfSome result (IsCommand words.now) }
    ensures none { IfNone result (IsNoCommand words.now) }
{
    let pick = pick_of(words)?;
    let (pres, bound) = name_and_bound(words)?;
    Some(Command::Complete { pres, bound, pick })
}

/// `ask PRES D QUERIES`.
fn ask(words: &WordList) -> Option<Command<'_>>
    requires first { slice_get words.now 0 ≡ Some (codes "ask") }
    ensures some { IfSome result (IsCommand words.now) }
    ensures none { IfNone result (IsNoCommand words.now) }
{
    if words.len() != 4 {
        return None;
    }
    let (pres, bound) = name_and_bound(words)?;
    let queries = words.get(3);
    if queries.is_empty() || queries == pres {
        return None;
    }
    Some(Command::Ask {
        pres,
        bound,
        queries,
    })
}

/// `relations PRES D`.
fn relations(words: &WordList) -> Option<Command<'_>>
    requires first { slice_get words.now 0 ≡ Some (codes "relations") }
    ensures some { IfSome result (IsCommand words.now) }
    ensures none { IfNone result (IsNoCommand words.now) }
{
    if words.len() != 3 {
        return None;
    }
    let (pres, bound) = name_and_bound(words)?;
    Some(Command::Relations { pres, bound })
}

/// `trial N`.
fn trial(words: &WordList) -> Option<Command<'_>>
    requires first { slice_get words.now 0 ≡ Some (codes "trial") }
    ensures some { IfSome result (IsCommand words.now) }
    ensures none { IfNone result (IsNoCommand words.now) }
{
    if words.len() != 2 {
        return None;
    }
    let number = number_of(words.get(1), TRIAL_MAX)?;
    Some(Command::Trial { number })
}

/// The command of these words.
pub fn asked(words: &WordList) -> Option<Command<'_>>
    ensures some { IfSome result (IsCommand words.now) }
    ensures none { IfNone result (IsNoCommand words.now) }
{
    if is_at(words, 0, "complete") {
        complete(words)
    } else if is_at(words, 0, "ask") {
        ask(words)
    } else if is_at(words, 0, "relations") {
        relations(words)
    } else if is_at(words, 0, "trial") {
        trial(words)
    } else {
        None
    }
}
