//! Queues and stacks by degree.
use degree_queue::{DEGREE_MAX, DegreeQueue, DegreeStacks};
use std::alloc::Global;
use std::test::Fail;
use worked_rows::rows::{ensure, judge, number, part};

type Queue = DegreeQueue<String>;

fn push(alloc: Global, queue: &mut Queue, degree: u32, item: &str) -> Result<(), Fail> {
    ensure(degree <= DEGREE_MAX, "a degree that is too great")?;
    let pushed = queue.push(degree, String::from_str(alloc, item)?);
    ensure(pushed.is_ok(), "out of memory")
}

fn pop_at(queue: &mut Queue, degree: u32, k: usize) -> Result<String, Fail> {
    ensure(k < queue.len(degree), "no such index")?;
    Ok(queue.pop_at(degree, k))
}

/// The items of a degree, as `[a b]`.
fn items(alloc: Global, queue: &Queue, degree: u32) -> Result<String, Fail> {
    let mut text = String::from_str(alloc, "[")?;
    for k in 0..queue.len(degree) {
        text.push_str(if k == 0 { "" } else { " " })?;
        text.push_str(queue.get(degree, k).as_str())?;
    }
    text.push_str("]")?;
    Ok(text)
}

/// Writes the answer of a step, if it has one: of `at 3 1`, `front 3`, `back 3` or `all 3`, and not of `push 3 a`.
fn step(alloc: Global, queue: &mut Queue, step: &str, out: &mut String) -> Result<(), Fail> {
    let mut words = step.split(' ');
    let verb = words.next().unwrap_or("");
    let degree = number(words.next().unwrap_or(""))?;
    let what = words.next().unwrap_or("");
    let popped = match verb {
        "push" => return push(alloc, queue, degree, what),
        "at" => Some(pop_at(queue, degree, number(what)? as usize)?),
        "front" => queue.pop_front(degree),
        "back" => queue.pop_back(degree),
        _ => Some(items(alloc, queue, degree)?),
    };
    out.push_str(if out.is_empty() { "" } else { " " })?;
    out.push_str(popped.as_ref().map_or("-", |item| item.as_str()))?;
    Ok(())
}

/// The answers of the steps on a new queue.
fn answers(alloc: Global, row: &str) -> Result<String, Fail> {
    let mut queue = DegreeQueue::new(alloc);
    let mut out = String::new(alloc);
    for text in part(row, 0).split(", ") {
        step(alloc, &mut queue, text, &mut out)?;
    }
    Ok(out)
}

#[test]
fn queues_are_their_lists(rt: HostRuntime) -> Result<(), Fail> {
    for row in [
        "push 3 a, push 3 b, push 3 c, at 3 1, back 3, front 3, front 3 | b c a -",
        // no item at all
        "front 0, back 0, all 0 | - - []",
        // one item, taken from each end
        "push 0 a, all 0, back 0, all 0, push 0 b, front 0, back 0 | [a] a [] b -",
        // two degrees by turns
        "push 1 a, push 2 p, push 1 b, push 2 q, push 1 c, at 1 1, all 1, all 2, front 2, back 1, all 1, all 2 | \
         b [a c] [p q] p c [a] [q]",
        // both ends and the middle
        "push 5 a, push 5 b, push 5 c, push 5 d, push 5 e, at 5 0, at 5 3, at 5 1, all 5 | a e c [b d]",
        // on both sides of the middle
        "push 2 a, push 2 b, push 2 c, push 2 d, push 2 e, push 2 f, push 2 g, at 2 4, at 2 2, at 2 3, all 2 | \
         e c f [a b d g]",
        // one node after another from the same index
        "push 1 a, push 1 b, push 1 c, push 1 d, at 1 1, at 1 1, at 1 1, at 1 0, all 1, push 1 e, all 1 | \
         b c d a [] [e]",
        // free nodes are used again in the same degree and in another
        "push 1 a, push 1 b, front 1, push 2 c, push 1 d, all 1, all 2, back 1, push 2 e, push 2 f, all 2, all 1 | \
         a [b d] [c] d [c e f] [b]",
        // all nodes are free, and then there is one more item than nodes
        "push 4 a, push 4 b, push 4 c, back 4, back 4, back 4, back 4, push 3 d, push 3 e, push 3 f, push 3 g, \
         all 3, all 4 | c b a - [d e f g] []",
        // degrees that were never used, also above the greatest
        "push 7 a, all 6, front 6, back 8, all 30001, front 4294967295, all 7 | [] - - [] - [a]",
        // the greatest degree, and the least
        "push 30000 a, push 0 b, push 30000 c, all 30000, all 0, all 29999, at 30000 1, front 30000, back 30000, \
         front 0 | [a c] [b] [] c a - b",
        // equal items are different nodes
        "push 6 a, push 6 a, push 6 b, push 6 a, at 6 2, front 6, all 6 | b a [a a]",
    ] {
        judge(row, answers(rt.alloc(), row)?.as_str())?;
    }
    Ok(())
}

#[test]
fn stacks_give_back_the_last(rt: HostRuntime) -> Result<(), Fail> {
    let mut stacks = DegreeStacks::new(rt.alloc());
    ensure(stacks.push(3, 'a').is_ok(), "out of memory")?;
    ensure(stacks.push(0, 'p').is_ok(), "out of memory")?;
    ensure(stacks.push(3, 'b').is_ok(), "out of memory")?;
    ensure(stacks.pop(3) == Some('b'), "not the last of two")?;
    ensure(stacks.push(3, 'c').is_ok(), "out of memory")?;
    for (degree, item) in [
        (3, Some('c')),
        (3, Some('a')),
        (3, None),
        // degrees that were never used, also above the greatest
        (1, None),
        (4294967295, None),
        (0, Some('p')),
        (0, None),
    ] {
        ensure(stacks.pop(degree) == item, "another item")?;
    }
    Ok(())
}
