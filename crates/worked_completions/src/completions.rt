//! Completions of the presentations of texts, and the calls that go on with one. Each call answers with a text.
ghost use Rattle.std.specs.Prelude.{◌≤◌, ◌<◌, IfOk};
ghost use Rattle.worked_completions.specs.Completions.{IsAtRest, IsBegun};

use completion::{BOUND_MAX, Completion, Pick};
use monomial_order::WeightOrder;
use std::alloc::Global;
use std::test::Fail;
use word_field::WordField;
use worked_rows::rings::ring;
use worked_rows::rows::{ensure, number};

/// A completion of what a text presents.
pub(crate) type RingCompletion = Completion<WordField, WeightOrder>;

/// A new completion.
pub(crate) fn started(alloc: Global, presentation: &str) -> Result<RingCompletion, Fail>
    ensures { IfOk result IsAtRest }
{
    let p = ring(alloc, presentation)?;
    Ok(Completion::new(alloc, p)?)
}

/// A degree that can be closed.
fn bound(text: &str) -> Result<u32, Fail>
    ensures { IfOk result (λ d. d ≤ BOUND_MAX) }
{
    let d = number(text)?;
    ensure(d <= BOUND_MAX, "a bound out of reach")?;
    Ok(d)
}

/// The closed degree.
fn closed_text(alloc: Global, d: u32) -> Result<String, Fail> {
    Ok(format!(in alloc; "{d}")?)
}

/// Fails if there is no next degree.
fn has_next(c: &RingCompletion) -> Result<(), Fail>
    ensures { IfOk result (λ _. c.now.degree < BOUND_MAX) }
{
    ensure(c.closed_degree() < BOUND_MAX, "a bound out of reach")?;
    Ok(())
}

/// Runs to a degree. The answer is the closed degree.
pub(crate) fn run(
    alloc: Global,
    c: &mut RingCompletion,
    pick: Pick,
    text: &str,
) -> Result<String, Fail>
    requires { IsAtRest c.old }
    ensures { IfOk result (λ _. IsAtRest c.new) }
{
    let d = bound(text)?;
    c.run_to(alloc, d, pick)?;
    let closed = closed_text(alloc, c.closed_degree())?;
    Ok(closed)
}

/// Begins the next degree and then runs. The answer is the closed degree.
pub(crate) fn begin_and_run(
    alloc: Global,
    c: &mut RingCompletion,
    pick: Pick,
    text: &str,
) -> Result<String, Fail>
    requires { IsAtRest c.old }
    ensures { IfOk result (λ _. IsAtRest c.new) }
{
    let d = bound(text)?;
    has_next(c)?;
    c.begin_degree(alloc)?;
    c.run_to(alloc, d, pick)?;
    let closed = closed_text(alloc, c.closed_degree())?;
    Ok(closed)
}

/// Goes back to a degree. The answer is the closed degree.
pub(crate) fn cut(alloc: Global, c: &mut RingCompletion, text: &str) -> Result<String, Fail>
    requires { IsAtRest c.old }
    ensures { IfOk result (λ _. IsAtRest c.new) }
{
    let d = number(text)?;
    ensure(d <= c.closed_degree(), "no such degree")?;
    c.cut_to(alloc, d)?;
    let closed = closed_text(alloc, c.closed_degree())?;
    Ok(closed)
}

/// Indexes, with blanks between them.
fn indexes(alloc: Global, text: &str) -> Result<Vec<usize>, Fail> {
    let mut list = Vec::new(alloc);
    for word in text.split_whitespace() {
        list.push(word.parse::<usize>()?)?;
    }
    Ok(list)
}

/// Closes the next degree with picks. The answer is the closed degree.
pub(crate) fn close_with(alloc: Global, c: &mut RingCompletion, picks: &str) -> Result<String, Fail>
    requires { IsAtRest c.old }
    ensures { IfOk result (λ _. IsAtRest c.new) }
{
    let picks = indexes(alloc, picks)?;
    has_next(c)?;
    c.close_with(alloc, picks.as_slice())?;
    let closed = closed_text(alloc, c.closed_degree())?;
    Ok(closed)
}

/// Takes the candidate at an index.
fn take(alloc: Global, c: &mut RingCompletion, k: usize) -> Result<(), Fail>
    requires { IsBegun c.old }
    ensures { IfOk result (λ _. IsBegun c.new) }
{
    ensure(k < c.pending(), "no such candidate")?;
    c.take(alloc, k)?;
    Ok(())
}

/// Takes the candidates at indexes, one after another. The answer is how many wait, at first and after each.
fn take_each(alloc: Global, c: &mut RingCompletion, indexes: &[usize]) -> Result<String, Fail>
    requires { IsBegun c.old }
    ensures { IfOk result (λ _. IsBegun c.new) }
{
    let mut counts = format!(in alloc; "{}", c.pending())?;
    'indexes: for k in indexes {
        take(alloc, c, *k)?;
        counts.push_str(format!(in alloc; " {}", c.pending())?.as_str())?;
    }
    Ok(counts)
}

/// Begins the next degree, takes its candidates at indexes and ends it. The answer is how many candidates wait, at
/// first and after each that is taken.
pub(crate) fn close_by_hand(
    alloc: Global,
    c: &mut RingCompletion,
    text: &str,
) -> Result<String, Fail>
    requires { IsAtRest c.old }
    ensures { IfOk result (λ _. IsAtRest c.new) }
{
    let indexes = indexes(alloc, text)?;
    has_next(c)?;
    c.begin_degree(alloc)?;
    let counts = take_each(alloc, c, indexes.as_slice())?;
    ensure(c.pending() == 0, "a candidate waits")?;
    c.close_degree(alloc)?;
    Ok(counts)
}
