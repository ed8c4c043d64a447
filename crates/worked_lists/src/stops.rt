//! Rows of calls on shelves and sinks, and a worked case of the law of stages.
ghost use Rattle.std.specs.Prelude.{◌≡◌, ℕ, [], ◌∷◌, length, Some};
ghost use Rattle.shelf_io.specs.Shelf.{Files};
ghost use Rattle.shelf_io.specs.Stages.{save, IsFromStage};
ghost use Rattle.shelf_io.specs.MemoryShelf.{shelf_state, held_files};
ghost use Rattle.shelf_io.specs.Writes.{IsStopSince};

use shelf_io::laws::{saves_go_on, stops_at_stages};
use shelf_io::*;
use std::alloc::Global;
use std::test::Fail;

/// A word of a call, and an empty one if the call ends before.
fn word(call: &str, index: usize) -> &str {
    call.split(' ').nth(index).unwrap_or("")
}

fn text_of(alloc: Global, bytes: &[u8]) -> Result<String, Fail> {
    Ok(String::from_utf8(bytes.to_vec(alloc)?)?)
}

/// What `write NAME TEXT` or `load NAME MAX` answers.
fn call_shelf<H: Shelf>(alloc: Global, shelf: &mut H, call: &str) -> Result<String, Fail> {
    let name = word(call, 1);
    if word(call, 0) == "write" {
        let answer = shelf.write(alloc, name, word(call, 2).as_bytes());
        return Ok(format!(in alloc; "{answer:?}")?);
    }
    match shelf.load(alloc, name, word(call, 2).parse::<u64>().ok()) {
        Ok(Loaded::Bytes(bytes)) => text_of(alloc, &bytes),
        answer => Ok(format!(in alloc; "{answer:?}")?),
    }
}

/// The same of a shelf in memory, with its settings.
fn call_memory(alloc: Global, shelf: &mut MemoryShelf, call: &str) -> Result<String, Fail> {
    let name = word(call, 1);
    match word(call, 0) {
        "put" => shelf.put(name, word(call, 2).as_bytes())?,
        "fail" => shelf.fail_at(name.parse::<u64>()?)?,
        "stop" => shelf.stop_at(name.parse::<u64>()?, word(call, 2).parse::<usize>()?),
        "get" => return text_of(alloc, shelf.get(name).unwrap_or(b"absent")),
        "faults" => return Ok(format!(in alloc; "{}", shelf.fault_count())?),
        _ => return call_shelf(alloc, shelf, call),
    }
    text_of(alloc, b"done")
}

/// The calls of a row, and what each answers.
const STOPS: [&str; 8] = [
    // a stopped write leaves a front of its bytes, and all later calls fail
    "stop 1 2 = done | write n abcd = Err(Failed) | get n = ab | load n = Err(Failed) | write m c = Err(Failed) \
     | get m = absent | get n = ab | faults = 3",
    // a stop at a load leaves nothing
    "put n ab = done | stop 1 1 = done | load n = Err(Failed) | write n cd = Err(Failed) | get n = ab | faults = 2",
    // nothing of the text is left, or all of it
    "put n ab = done | stop 1 0 = done | write n cd = Err(Failed) | get n = ",
    "put n ab = done | stop 1 9 = done | write n cde = Err(Failed) | get n = cde | load n = Err(Failed)",
    // the stop decides what a call leaves that is to fail too
    "fail 1 = done | stop 1 1 = done | write n ab = Err(Failed) | get n = a | faults = 1",
    // a call before the stop fails alone
    "fail 1 = done | stop 3 1 = done | write n ab = Err(Failed) | get n = absent | write n ab = Ok(()) \
     | write n cd = Err(Failed) | get n = c | faults = 2",
    // calls up to the stop are as ever, and the last stop counts
    "stop 1 1 = done | stop 3 1 = done | write n ab = Ok(()) | load n 1 = Ok(TooLong) | load n 2 = Err(Failed) \
     | write n cd = Err(Failed) | get n = ab | faults = 2",
    // a stop at a call that was made
    "write n ab = Ok(()) | load m = Ok(Missing) | stop 1 1 = done | write n cd = Err(Failed) | get n = ab",
];

#[test]
fn stops_of_a_shelf_in_memory(rt: HostRuntime) -> Result<(), Fail> {
    for row in &STOPS {
        let mut shelf = MemoryShelf::new(rt.alloc());
        for step in row.split(" | ") {
            let (call, expected) = step.split_once(" = ").ok_or("no answer")?;
            let answer = call_memory(rt.alloc(), &mut shelf, call)?;
            assert_eq!(rt; answer.as_str(), expected, "{step} in {row}");
        }
    }
    Ok(())
}

/// The same of a steady shelf.
fn call_steady(alloc: Global, shelf: &mut SteadyShelf, call: &str) -> Result<String, Fail> {
    if word(call, 0) == "admit" {
        shelf.admit(word(call, 1))?;
        return text_of(alloc, b"done");
    }
    call_shelf(alloc, shelf, call)
}

const STEADY: [&str; 4] = [
    "admit n = done | write n ab = Ok(()) | load n = ab | load m = Ok(Missing)",
    // a name that is admitted twice has what it had
    "admit n = done | load n = Ok(Missing) | write n abcdefgh = Ok(()) | admit n = done | load n 8 = abcdefgh \
     | load n 7 = Ok(TooLong)",
    // a write past the room, and one of a name that was not admitted, change no other name
    "admit n = done | admit m = done | write m ab = Ok(()) | write n abcdefghi = Ok(()) | write k c = Ok(()) \
     | load m = ab | load k = Ok(Missing)",
    "admit n = done | write n abc = Ok(()) | write n  = Ok(()) | load n = ",
];

#[test]
fn steady_shelves(rt: HostRuntime) -> Result<(), Fail> {
    for row in &STEADY {
        let mut shelf = SteadyShelf::new(rt.alloc(), 8);
        for step in row.split(" | ") {
            let (call, expected) = step.split_once(" = ").ok_or("no answer")?;
            let answer = call_steady(rt.alloc(), &mut shelf, call)?;
            assert_eq!(rt; answer.as_str(), expected, "{step} in {row}");
        }
    }
    Ok(())
}

/// How many bytes the sink takes of each piece.
fn counts_taken<K: Sink>(alloc: Global, sink: &mut K, pieces: &str) -> Result<String, Fail> {
    let mut counts = String::new(alloc);
    for piece in pieces.split_whitespace() {
        if !piece.is_empty() {
            let count = sink.put(piece.as_bytes())?;
            counts.push_str(format!(in alloc; "{count} ")?.as_str())?;
        }
    }
    Ok(counts)
}

#[test]
fn sinks_in_memory(rt: HostRuntime) -> Result<(), Fail> {
    for (room, pieces, counts, bytes) in [
        (8, "ab", "2 ", "ab"),
        // past the room
        (3, "ab cd e", "2 2 1 ", "abc"),
        (0, "ab", "2 ", ""),
    ] {
        let mut steady = SteadySink::new(rt.alloc(), room)?;
        let taken = counts_taken(rt.alloc(), &mut steady, pieces)?;
        assert_eq!(rt; taken.as_str(), counts);
        assert_eq!(rt; steady.bytes(), bytes.as_bytes());
        let mut sink = MemorySink::new(rt.alloc(), 2, room)?;
        let taken = counts_taken(rt.alloc(), &mut sink, pieces)?;
        assert_eq!(rt; taken.as_str(), counts);
        assert_eq!(rt; sink.bytes(), bytes.as_bytes());
    }
    Ok(())
}

/// Writes two names one after the other. After a stop at any moment the files are at a stage of these writes.
fn save_both<H: Shelf>(
    alloc: Global,
    shelf: &mut H,
    first: &str,
    second: &str,
    bytes: &[u8],
) -> Result<(), WriteFault>
    ensures { (files held found : Files) (start : ℕ) → H.holds shelf.old ≡ Some files → H.holds shelf.new ≡ Some held
        → H.moment shelf.old ≡ Some start → H.may_be_found shelf.new start found
        → IsFromStage files (save first.now bytes.now ∷ save second.now bytes.now ∷ []) 0 found }
{
    saves_go_on::<H>();
    stops_at_stages::<H>();
    shelf.write(alloc, first, bytes)?;
    shelf.write(alloc, second, bytes)
}

/// The same over a shelf in memory.
fn save_both_in_memory(
    alloc: Global,
    shelf: &mut MemoryShelf,
    first: &str,
    second: &str,
    bytes: &[u8],
) -> Result<(), WriteFault>
    ensures { (found : Files) → IsStopSince (shelf_state shelf.new).writes (length (shelf_state shelf.old).writes) found
        → IsFromStage (held_files (shelf_state shelf.old))
        (save first.now bytes.now ∷ save second.now bytes.now ∷ []) 0 found }
{
    save_both(alloc, shelf, first, second, bytes)
}

/// What two saves answer and leave, if the call of this number is stopped.
fn two_saved(alloc: Global, stop: u64) -> Result<String, Fail> {
    let mut shelf = MemoryShelf::new(alloc);
    shelf.put("m", b"old")?;
    shelf.stop_at(stop, 1);
    let saved = save_both_in_memory(alloc, &mut shelf, "n", "m", b"ab");
    let first = text_of(alloc, shelf.get("n").unwrap_or(b"absent"))?;
    let second = text_of(alloc, shelf.get("m").unwrap_or(b"absent"))?;
    Ok(format!(in alloc; "{saved:?} {first} {second}")?)
}

#[test]
fn two_saves(rt: HostRuntime) -> Result<(), Fail> {
    assert_eq!(rt; two_saved(rt.alloc(), 1)?.as_str(), "Err(Failed) a old");
    assert_eq!(rt; two_saved(rt.alloc(), 2)?.as_str(), "Err(Failed) ab a");
    assert_eq!(rt; two_saved(rt.alloc(), 3)?.as_str(), "Ok(()) ab ab");
    Ok(())
}
