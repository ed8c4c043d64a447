//! The program: a presentation is read and completed to a degree, and what is asked of it is printed.
#![tactic(auto)]

mod command;
pub mod laws;
mod loading;
mod message;
mod outcome;
mod output;
mod put;
mod run;
mod stop;
#[cfg(test)]
mod tests;
mod trial;
mod word_list;

pub use command::Command;
use monomial_order::Memory;
pub use outcome::Outcome;
pub use run::run;
use shelf_io::{FileShelf, StreamSink};
use std::alloc::Global;
use std::env;
use std::io::ErrorKind;
use std::process::ExitCode;
pub use stop::{Input, Stop};
pub use word_list::WordList;

/// The words after the program's name; none if one of them is no text.
fn words_of(rt: &HostRuntime) -> Result<WordList, Memory> {
    let alloc: Global = rt.alloc();
    let mut words = WordList::new(alloc);
    match env::args(rt) {
        Ok(args) => {
            for word in args.skip(1) {
                words.push(word.as_str())?;
            }
            Ok(words)
        }
        Err(e) if e.kind() == ErrorKind::OutOfMemory => Err(Memory),
        Err(_) => Ok(words),
    }
}

fn main(rt: HostRuntime) -> ExitCode {
    match words_of(&rt) {
        Ok(words) => {
            let mut shelf = FileShelf::new(&rt);
            let mut out = StreamSink::new(rt.stdout());
            let mut note = StreamSink::new(rt.stderr());
            ExitCode::from(run(rt.alloc(), &words, &mut shelf, &mut out, &mut note))
        }
        Err(Memory) => ExitCode::from(7),
    }
}
