//! The text that a command prints.
ghost use Rattle.std.specs.Prelude.{◌≡◌, ◌≤◌, IfErr, IfOk, IsErrOf, Some};
ghost use Rattle.poly_core.specs.Presentation.{weight_order_of, IsValid};
ghost use Rattle.shelf_io.specs.Counts.{HasRisen};
ghost use Rattle.shelf_io.specs.Shelf.{Files};
ghost use Rattle.std.specs.FinMap as map;
ghost use Rattle.presentation_text.specs.Reading.{queries as queries_of};
ghost use Rattle.sagbi_cli.specs.Command.{AreInRange, IsUpTo};
ghost use Rattle.sagbi_cli.specs.Loading.{StopsAs};
ghost use Rattle.sagbi_cli.specs.Outcome.{after_loading, outcome_of};
ghost use Rattle.sagbi_cli.specs.Output.{AreAnswered, IsOutput};

use crate::loading::{presentation, queries};
use crate::trial::trial;
use crate::{Command, Input, Outcome, Stop};
use completion::{BOUND_MAX, Pick};
use monomial_order::WeightOrder;
use outputs::{answers, relations, report};
use poly_core::Presentation;
use presentation_text::AnyPresentation;
use shelf_io::Shelf;
use std::alloc::Global;
use word_field::Field;

/// `complete`.
fn complete<H: Shelf>(
    alloc: Global,
    shelf: &mut H,
    pres: &str,
    bound: u32,
    pick: Pick,
) -> Result<Vec<u8>, Stop>
    requires bound { IsUpTo BOUND_MAX bound }
    ensures output { (files : Files) → H.holds shelf.old ≡ Some files →
        IfOk result (λ text. IsOutput files (Command.Complete pres.entry bound pick) text.items) }
    ensures stops { (files : Files) → H.holds shelf.old ≡ Some files →
        IfErr result (StopsAs (outcome_of files (Command.Complete pres.entry bound pick))) }
    ensures map { H.holds shelf.new ≡ H.holds shelf.old }
    ensures failed { IsErrOf result Stop.Shelf → HasRisen (H.faults shelf.old) (H.faults shelf.new) }
{
    match presentation(alloc, shelf, pres)? {
        AnyPresentation::Word(p) => Ok(report(alloc, p, bound, pick)?),
        AnyPresentation::Pair(p) => Ok(report(alloc, p, bound, pick)?),
    }
}

/// The answers to the queries of a name.
fn answered<F: Field, H: Shelf>(
    alloc: Global,
    p: Presentation<F, WeightOrder>,
    shelf: &mut H,
    bound: u32,
    name: &str,
) -> Result<Vec<u8>, Stop>
    requires valid { IsValid F.ops weight_order_of p }
    requires bound { IsUpTo BOUND_MAX bound }
    ensures output { (files : Files) → H.holds shelf.old ≡ Some files →
        IfOk result (λ text. AreAnswered F.ops p files name.now bound text.items) }
    ensures stops { (files : Files) → H.holds shelf.old ≡ Some files → IfErr result (StopsAs
        (after_loading Input.Queries (map.get files name.now)
        (queries_of (F.ops p.field) (weight_order_of p.order) p.names) (λ _. Outcome.Done))) }
    ensures map { H.holds shelf.new ≡ H.holds shelf.old }
    ensures counted { H.faults shelf.old ≤ H.faults shelf.new }
    ensures failed { IsErrOf result Stop.Shelf → HasRisen (H.faults shelf.old) (H.faults shelf.new) }
{
    let list = queries(alloc, &p, shelf, name)?;
    Ok(answers(alloc, p, bound, list.as_slice())?)
}

/// `ask`.
fn ask<H: Shelf>(
    alloc: Global,
    shelf: &mut H,
    pres: &str,
    bound: u32,
    asked: &str,
) -> Result<Vec<u8>, Stop>
    requires bound { IsUpTo BOUND_MAX bound }
    ensures output { (files : Files) → H.holds shelf.old ≡ Some files →
        IfOk result (λ text. IsOutput files (Command.Ask pres.entry bound asked.entry) text.items) }
    ensures stops { (files : Files) → H.holds shelf.old ≡ Some files →
        IfErr result (StopsAs (outcome_of files (Command.Ask pres.entry bound asked.entry))) }
    ensures map { H.holds shelf.new ≡ H.holds shelf.old }
    ensures failed { IsErrOf result Stop.Shelf → HasRisen (H.faults shelf.old) (H.faults shelf.new) }
{
    let given = presentation(alloc, shelf, pres)?;
    match given {
        AnyPresentation::Word(p) => answered(alloc, p, shelf, bound, asked),
        AnyPresentation::Pair(p) => answered(alloc, p, shelf, bound, asked),
    }
}

/// `relations`.
fn related<H: Shelf>(alloc: Global, shelf: &mut H, pres: &str, bound: u32) -> Result<Vec<u8>, Stop>
    requires bound { IsUpTo BOUND_MAX bound }
    ensures output { (files : Files) → H.holds shelf.old ≡ Some files →
        IfOk result (λ text. IsOutput files (Command.Relations pres.entry bound) text.items) }
    ensures stops { (files : Files) → H.holds shelf.old ≡ Some files →
        IfErr result (StopsAs (outcome_of files (Command.Relations pres.entry bound))) }
    ensures map { H.holds shelf.new ≡ H.holds shelf.old }
    ensures failed { IsErrOf result Stop.Shelf → HasRisen (H.faults shelf.old) (H.faults shelf.new) }
{
    match presentation(alloc, shelf, pres)? {
        AnyPresentation::Word(p) => Ok(relations(alloc, p, bound)?),
        AnyPresentation::Pair(p) => Ok(relations(alloc, p, bound)?),
    }
}

/// The text that a command prints.
pub(crate) fn output<H: Shelf>(
    alloc: Global,
    command: &Command<'_>,
    shelf: &mut H,
) -> Result<Vec<u8>, Stop>
    requires numbers { AreInRange command.now }
    ensures output { (files : Files) → H.holds shelf.old ≡ Some files →
        IfOk result (λ text. IsOutput files command.now text.items) }
    ensures stops { (files : Files) → H.holds shelf.old ≡ Some files →
        IfErr result (StopsAs (outcome_of files command.now)) }
    ensures map { H.holds shelf.new ≡ H.holds shelf.old }
    ensures failed { IsErrOf result Stop.Shelf → HasRisen (H.faults shelf.old) (H.faults shelf.new) }
{
    match *command {
        Command::Complete { pres, bound, pick } => complete(alloc, shelf, pres, bound, pick),
        Command::Ask {
            pres,
            bound,
            queries,
        } => ask(alloc, shelf, pres, bound, queries),
        Command::Relations { pres, bound } => related(alloc, shelf, pres, bound),
        Command::Trial { number } => Ok(trial(alloc, number)?.into_bytes()),
    }
}
