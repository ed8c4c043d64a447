//! The candidates of a degree.
ghost use Rattle.std.specs.Prelude.{◌≡◌, ℕ, ◌≤◌, ◌<◌, ◌++◌, ◌∷◌, [], length, map, filter, nat_eq, sum, take, drop, All, IfOk, OnOk, OnErr, IsTrue, ◌↔◌, None};
ghost use Rattle.std.specs.List.{range_with_len};
ghost use Rattle.word_laws.specs.Words.{word_order_of};
ghost use Rattle.toric_ideal.specs.Listing.{IsListing};
ghost use Rattle.degree_queue.specs.DegreeQueue.{list_of, SameElsewhere};
ghost use Rattle.poly_core.specs.Presentation.{presented, IsValid};
ghost use Rattle.witness.specs.Tracking.{values_of};
ghost use Rattle.subduction.specs.Basis.{IsBasisOf};
ghost use Rattle.completion.specs.Candidates.{AreCandidates, AreWordsAt, IsGeneratorAt};

use degree_queue::{DEGREE_MAX, DegreeQueue};
use monomial_order::{Memory, Monomial, Order};
use poly_core::{Poly, Presentation};
use std::alloc::Global;
use subduction::Basis;
use toric_ideal::{Rule, Words};
use word_field::Field;

/// The generator, or the word of the degree, at an index.
#[derive(Clone, Copy, Debug, PartialEq, Eq)]
pub enum Candidate {
    Generator(usize),
    Word(usize),
}

/// A minimal reducible s-word of the degree. Its right side is kept if it has letters of smaller degrees alone.
#[derive(Drop)]
pub struct Found<F: Field> {
    pub word: Monomial,
    pub right: Option<Poly<F>>,
}

/// Whether none of the first letters, so many, is in the word.
fn has_none_of_first(count: usize, w: &Monomial) -> bool
    ensures { IsTrue result ↔ (sum (take count w.now) ≡ 0) }
{
    'letters: for i in 0..count {
        if w.exponent(i) != 0 {
            return false;
        }
    }
    true
}

/// The index from which on the rules have the degree of the words.
fn last_rules(words: &Words) -> usize
    requires { IsListing words.now }
    ensures within { result ≤ length words.now.rules }
    ensures before { All (λ r. (word_order_of words.now.letters).degree r.word < words.now.degree)
        (take result words.now.rules) }
    ensures from { All (λ r. (word_order_of words.now.letters).degree r.word ≡ words.now.degree)
        (drop result words.now.rules) }
{
    let rules = words.rules();
    let order = words.order();
    let least = words.degree();
    let mut start = rules.len();
    'back: while start > 0 {
        let at = start - 1;
        let rule = &rules[at];
        if order.degree(&rule.word) < least {
            return start;
        }
        start = at;
    }
    start
}

/// How many x there are.
fn count_x(words: &Words) -> usize
    ensures { result ≡ length words.now.letters.degrees }
{
    words.order().x_degrees.as_slice().len()
}

/// Copies of the words of rules that have none of the first letters, so many, without right sides.
fn s_words<F: Field>(alloc: Global, count: usize, rules: &[Rule]) -> Result<Vec<Found<F>>, Memory>
    ensures words { IfOk result (λ v. map (λ f. f.word) v.items
        ≡ map (λ r. r.word) (filter (λ r. nat_eq (sum (take count r.word)) 0) rules.now)) }
    ensures rights { IfOk result (λ v. All (λ f. f.right ≡ None) v.items) }
{
    let mut found = Vec::new(alloc);
    'rules: for rule in rules {
        if has_none_of_first(count, &rule.word) {
            let word = rule.word.copy(alloc)?;
            found.push(Found { word, right: None })?;
        }
    }
    Ok(found)
}

/// The minimal reducible s-words of the degree of a basis, in increasing order.
pub(crate) fn words_at<F: Field, O: Order>(
    alloc: Global,
    _p: &Presentation<F, O>,
    basis: &Basis<F, O>,
) -> Result<Vec<Found<F>>, Memory>
    requires presentation { IsValid F.ops O.order _p.now }
    requires basis { IsBasisOf (presented F.ops O.order _p.now) basis.now }
    ensures words { IfOk result (λ v. AreWordsAt (presented F.ops O.order _p.now) (values_of basis.now.elements)
        basis.now.words.degree (map (λ f. f.word) v.items)) }
    ensures rights { IfOk result (λ v. All (λ f. f.right ≡ None) v.items) }
{
    subalgebra_laws::laws::decisions::<F>();
    let words = basis.words();
    let start = last_rules(words);
    let count = count_x(words);
    let (_lower, last) = words.rules().split_at(start);
    let found = s_words(alloc, count, last)?;
    Ok(found)
}

/// Whether the generator at an index has degree d.
fn has_degree<F: Field, O: Order>(p: &Presentation<F, O>, i: usize, d: u32) -> bool
    requires presentation { IsValid F.ops O.order p.now }
    requires inside { i < length p.now.generators.items }
    ensures { IsTrue result ↔ IsGeneratorAt (presented F.ops O.order p.now) d i }
{
    let generators = p.generators.as_slice();
    match Poly::degree(&p.order, &generators[i]) {
        Some(degree) => degree == d,
        None => false,
    }
}

/// Puts a candidate last in degree d.
fn push_candidate(
    queue: &mut DegreeQueue<Candidate>,
    d: u32,
    candidate: Candidate,
) -> Result<(), Memory>
    requires { d ≤ DEGREE_MAX }
    ensures last { OnOk result (list_of queue.new d ≡ list_of queue.old d ++ candidate ∷ []) }
    ensures others { SameElsewhere d queue.old queue.new }
{
    match queue.push(d, candidate) {
        Ok(()) => Ok(()),
        Err(_back) => Err(Memory),
    }
}

/// Puts the generators of degree d into the queue.
fn queue_generators<F: Field, O: Order>(
    p: &Presentation<F, O>,
    queue: &mut DegreeQueue<Candidate>,
    d: u32,
) -> Result<(), Memory>
    requires presentation { IsValid F.ops O.order p.now }
    requires small { d ≤ DEGREE_MAX }
    requires empty { list_of queue.old d ≡ [] }
    ensures candidates { OnOk result (AreCandidates (presented F.ops O.order p.now) d 0 (list_of queue.new d)) }
    ensures others { SameElsewhere d queue.old queue.new }
{
    'generators: for i in 0..p.generators.len() {
        if has_degree(p, i, d) {
            push_candidate(queue, d, Candidate::Generator(i))?;
        }
    }
    Ok(())
}

/// Puts the indexes of n words behind what the queue has in degree d.
fn queue_words(queue: &mut DegreeQueue<Candidate>, d: u32, n: usize) -> Result<(), Memory>
    requires { d ≤ DEGREE_MAX }
    ensures words { OnOk result
        (list_of queue.new d ≡ list_of queue.old d ++ map Candidate.Word (range_with_len 0 n)) }
    ensures others { SameElsewhere d queue.old queue.new }
{
    'words: for j in 0..n {
        push_candidate(queue, d, Candidate::Word(j))?;
    }
    Ok(())
}

/// Takes out all candidates of degree d.
fn clear_degree(queue: &mut DegreeQueue<Candidate>, d: u32)
    ensures none { list_of queue.new d ≡ [] }
    ensures others { SameElsewhere d queue.old queue.new }
{
    'items: while let Some(_candidate) = queue.pop_back(d) {}
}

/// Puts the candidates of degree d into the queue, or some of them.
fn queue_all<F: Field, O: Order>(
    p: &Presentation<F, O>,
    queue: &mut DegreeQueue<Candidate>,
    d: u32,
    n: usize,
) -> Result<(), Memory>
    requires presentation { IsValid F.ops O.order p.now }
    requires small { d ≤ DEGREE_MAX }
    requires empty { list_of queue.old d ≡ [] }
    ensures candidates { OnOk result (AreCandidates (presented F.ops O.order p.now) d n (list_of queue.new d)) }
    ensures others { SameElsewhere d queue.old queue.new }
{
    queue_generators(p, queue, d)?;
    queue_words(queue, d, n)
}

/// Puts the candidates of degree d into the queue: the generators of this degree, and the indexes of n words. If memory
/// runs out, none is there.
pub(crate) fn queue_candidates<F: Field, O: Order>(
    p: &Presentation<F, O>,
    queue: &mut DegreeQueue<Candidate>,
    d: u32,
    n: usize,
) -> Result<(), Memory>
    requires presentation { IsValid F.ops O.order p.now }
    requires small { d ≤ DEGREE_MAX }
    requires empty { list_of queue.old d ≡ [] }
    ensures candidates { OnOk result (AreCandidates (presented F.ops O.order p.now) d n (list_of queue.new d)) }
    ensures none { OnErr result (list_of queue.new d ≡ []) }
    ensures others { SameElsewhere d queue.old queue.new }
{
    let queued = queue_all(p, queue, d, n);
    if queued.is_err() {
        clear_degree(queue, d);
    }
    queued
}
