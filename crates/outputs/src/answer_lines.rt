//! The lines that answer queries.
ghost use Rattle.std.specs.Prelude.{◌≡◌, ℕ, ◌≤◌, List, ◌++◌, codes, false, string_bytes, All, IfOk, OnOk};
ghost use Rattle.std.specs.Fmt.{decimal};
ghost use Rattle.poly_core.specs.Presentation.{presented, IsValid};
ghost use Rattle.poly_core.specs.Text.{poly_text, AreNamed, AreValues};
ghost use Rattle.polynomial_text.specs.Degrees.{IsLow};
ghost use Rattle.polynomials.specs.Polynomial.{IsCanonical};
ghost use Rattle.witness.specs.Tracking.{by_order};
ghost use Rattle.completion.specs.Completion.{elements_of, IsCompletion, IsUnchanged};
ghost use Rattle.membership.specs.declared.reply.Reply.{Reply};
ghost use Rattle.membership.specs.Answer.{IsCanonicalReply};
ghost use Rattle.outputs.specs.Answers.{answer_line, AreAnswers, IsAnswerText, IsAnswerTo};
ghost use Rattle.outputs.specs.Completing.{IsNew};

use crate::completing::complete;
use completion::{BOUND_MAX, Completion, Pick};
use membership::{Reply, answer};
use monomial_order::{Memory, Order};
use poly_core::{Names, Poly, Presentation};
use std::alloc::{AllocError, Global};
use word_field::Field;

/// The names of the generators.
const GENERATORS: Names = Names::Numbered {
    prefix: b'g',
    skip: 0,
};

fn beyond_line(alloc: Global, degree: u32) -> Result<String, AllocError>
    ensures { IfOk result (λ s. string_bytes s ≡ codes "beyond " ++ (decimal degree ++ codes "\n")) }
{
    format!(in alloc; "beyond {degree}\n")
}

/// Appends a word, a polynomial and the end of the line.
fn push_poly<F: Field>(
    alloc: Global,
    text: &mut Vec<u8>,
    word: &[u8],
    f: &F,
    a: &Poly<F>,
    names: &Names,
) -> Result<(), Memory>
    requires values { AreValues (F.ops f.now) a.now }
    requires named { AreNamed names.now a.now }
    ensures { OnOk result (text.new.items ≡
        text.old.items ++ (word.now ++ (poly_text (F.ops f.now) names.now a.now ++ codes "\n"))) }
{
    let poly = Poly::write(alloc, f, a, names)?;
    text.extend_from_slice(word)?;
    text.extend_from_slice(&poly)?;
    text.extend_from_slice(b"\n")?;
    Ok(())
}

/// Appends the line of an answer.
fn push_line<F: Field, O: Order>(
    alloc: Global,
    text: &mut Vec<u8>,
    p: &Presentation<F, O>,
    reply: &Reply<F>,
) -> Result<(), Memory>
    requires valid { IsValid F.ops O.order p.now }
    requires canonical { IsCanonicalReply (F.ops p.now.field) (O.order p.now.order)
        (by_order p.now.gen_order) reply.now }
    ensures { OnOk result
        (text.new.items ≡ text.old.items ++ answer_line (F.ops p.now.field) p.now.names reply.now) }
{
    match reply {
        Reply::Beyond(degree) => {
            let line = beyond_line(alloc, *degree)?;
            text.extend_from_slice(line.as_bytes())?;
            Ok(())
        }
        Reply::Member(h) => push_poly(alloc, text, b"member ", &p.field, h, &GENERATORS),
        Reply::No(r) => push_poly(alloc, text, b"no ", &p.field, r, &p.names),
    }
}

/// Appends the line that answers a query.
fn push_answer<F: Field, O: Order>(
    alloc: Global,
    text: &mut Vec<u8>,
    c: &mut Completion<F, O>,
    query: &Poly<F>,
) -> Result<(), Memory>
    requires completion { IsCompletion F.ops O.order c.old }
    requires not_begun { c.old.begun ≡ false }
    requires some { 1 ≤ c.old.degree }
    requires canonical { IsCanonical (F.ops c.old.presentation.field) (O.order c.old.presentation.order) query.now }
    requires low { IsLow (O.order c.old.presentation.order) query.now }
    ensures completion { IsCompletion F.ops O.order c.new }
    ensures unchanged { IsUnchanged c.old c.new }
    ensures line { OnOk result ((reply : Reply F F.Elem) ×
        IsAnswerTo F.ops O.order c.old.presentation c.old.degree (elements_of c.old) query.now reply ×
        (text.new.items ≡ text.old.items ++
        answer_line (F.ops c.old.presentation.field) c.old.presentation.names reply)) }
{
    let reply = answer(alloc, c, query)?;
    push_line(alloc, text, c.presentation(), &reply)
}

/// Appends the lines that answer queries.
fn push_answers<F: Field, O: Order>(
    alloc: Global,
    text: &mut Vec<u8>,
    c: &mut Completion<F, O>,
    queries: &[Poly<F>],
) -> Result<(), Memory>
    requires completion { IsCompletion F.ops O.order c.old }
    requires not_begun { c.old.begun ≡ false }
    requires some { 1 ≤ c.old.degree }
    requires canonical { let P = presented F.ops O.order c.old.presentation in
        All (IsCanonical P.field P.order) queries.now }
    requires low { All (IsLow (O.order c.old.presentation.order)) queries.now }
    ensures { OnOk result ((lines : List ℕ) × (text.new.items ≡ text.old.items ++ lines) ×
        AreAnswers F.ops O.order c.old.presentation c.old.degree (elements_of c.old) queries.now lines) }
{
    'queries: for query in queries {
        push_answer(alloc, text, c, query)?;
    }
    Ok(())
}

/// The lines that answer queries by a completion.
fn answers_by<F: Field, O: Order>(
    alloc: Global,
    c: &mut Completion<F, O>,
    queries: &[Poly<F>],
) -> Result<Vec<u8>, Memory>
    requires completion { IsCompletion F.ops O.order c.old }
    requires not_begun { c.old.begun ≡ false }
    requires some { 1 ≤ c.old.degree }
    requires canonical { let P = presented F.ops O.order c.old.presentation in
        All (IsCanonical P.field P.order) queries.now }
    requires low { All (IsLow (O.order c.old.presentation.order)) queries.now }
    ensures { IfOk result (λ text. AreAnswers F.ops O.order c.old.presentation c.old.degree (elements_of c.old)
        queries.now text.items) }
{
    let mut text = Vec::new(alloc);
    push_answers(alloc, &mut text, c, queries)?;
    Ok(text)
}

/// Runs a new completion to a bound, and answers.
fn run_answers<F: Field, O: Order>(
    alloc: Global,
    c: &mut Completion<F, O>,
    bound: u32,
    queries: &[Poly<F>],
) -> Result<Vec<u8>, Memory>
    requires new { IsNew F.ops O.order c.old }
    requires some { 1 ≤ bound }
    requires small { bound ≤ BOUND_MAX }
    requires canonical { let P = presented F.ops O.order c.old.presentation in
        All (IsCanonical P.field P.order) queries.now }
    requires low { All (IsLow (O.order c.old.presentation.order)) queries.now }
    ensures { IfOk result (λ text. IsAnswerText F.ops O.order c.old.presentation bound queries.now text.items) }
{
    complete(alloc, c, bound, Pick::First)?;
    answers_by(alloc, c, queries)
}

/// The lines that answer queries, by the reduced basis to a bound.
pub fn answers<F: Field, O: Order>(
    alloc: Global,
    p: Presentation<F, O>,
    bound: u32,
    queries: &[Poly<F>],
) -> Result<Vec<u8>, Memory>
    requires valid { IsValid F.ops O.order p }
    requires some { 1 ≤ bound }
    requires small { bound ≤ BOUND_MAX }
    requires canonical { All (IsCanonical (F.ops p.field) (O.order p.order)) queries.now }
    requires low { All (IsLow (O.order p.order)) queries.now }
    ensures { IfOk result (λ text. IsAnswerText F.ops O.order p bound queries.now text.items) }
{
    let mut c = Completion::new(alloc, p)?;
    let text = run_answers(alloc, &mut c, bound, queries);
    drop(c);
    text
}
