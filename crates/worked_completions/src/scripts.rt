//! Scripts: lines with a call, what it is called with, and the answer that it must give.
ghost use Rattle.std.specs.Prelude.{IfOk};
ghost use Rattle.worked_completions.specs.Completions.{IsAtRest};

use crate::answers::{answered, basis, is_complete, relations, report, state, subduced};
use crate::completions::{
    RingCompletion, begin_and_run, close_by_hand, close_with, cut, run, started,
};
use crate::state_lines::{element_line, relation_line};
use completion::Pick;
use std::alloc::Global;
use std::test::Fail;
use worked_rows::rows::{judge, part};

/// The answer of a call that shows what a completion has.
fn shown(alloc: Global, c: &RingCompletion, call: &str, argument: &str) -> Result<String, Fail>
    requires { IsAtRest c.now }
{
    match call {
        "element" => element_line(alloc, c, argument),
        "relation" => relation_line(alloc, c, argument),
        "basis" => basis(alloc, c),
        "relations" => relations(alloc, c),
        "state" => state(alloc, c),
        _ => Err(Fail::new("no such call")),
    }
}

/// The answer of a call that asks a completion.
fn asked(alloc: Global, c: &mut RingCompletion, call: &str, argument: &str) -> Result<String, Fail>
    requires { IsAtRest c.old }
    ensures { IfOk result (λ _. IsAtRest c.new) }
{
    match call {
        "report" => report(alloc, c),
        "complete" => is_complete(alloc, c),
        "subduce" => subduced(alloc, c, argument),
        "answer" => answered(alloc, c, argument),
        _ => {
            let answer = shown(alloc, c, call, argument)?;
            Ok(answer)
        }
    }
}

/// The answer of a call.
fn called(alloc: Global, c: &mut RingCompletion, pick: Pick, line: &str) -> Result<String, Fail>
    requires { IsAtRest c.old }
    ensures { IfOk result (λ _. IsAtRest c.new) }
{
    let argument = part(line, 1);
    match part(line, 0) {
        "run" => run(alloc, c, pick, argument),
        "begin and run" => begin_and_run(alloc, c, pick, argument),
        "close" => close_with(alloc, c, argument),
        "cut" => cut(alloc, c, argument),
        "take" => close_by_hand(alloc, c, argument),
        call => asked(alloc, c, call, argument),
    }
}

/// Fails unless the call of a line has its answer.
fn see(alloc: Global, c: &mut RingCompletion, pick: Pick, line: &str) -> Result<(), Fail>
    requires { IsAtRest c.old }
    ensures { IfOk result (λ _. IsAtRest c.new) }
{
    let answer = called(alloc, c, pick, line)?;
    judge(line, answer.as_str())
}

/// Fails unless each call of a script has its answer, one after the other.
fn see_all(alloc: Global, c: &mut RingCompletion, pick: Pick, script: &[&str]) -> Result<(), Fail>
    requires { IsAtRest c.old }
{
    'lines: for line in script {
        see(alloc, c, pick, line)?;
    }
    Ok(())
}

/// The same on a new completion.
fn check(alloc: Global, presentation: &str, pick: Pick, script: &[&str]) -> Result<(), Fail> {
    let mut c = started(alloc, presentation)?;
    see_all(alloc, &mut c, pick, script)
}

/// The same for runs that take the first candidate, and for those that take the last one.
pub(crate) fn check_both(alloc: Global, presentation: &str, script: &[&str]) -> Result<(), Fail> {
    check(alloc, presentation, Pick::First, script)?;
    check(alloc, presentation, Pick::Last, script)
}
