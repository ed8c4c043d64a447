//! Calls that are counted, of which the named ones fail.
ghost use Rattle.std.specs.Prelude.{◌≡◌, ◌≤◌, OnOk, OnErr};
ghost use Rattle.std.specs.Bool.{OnTrue};
ghost use Rattle.shelf_io.specs.Counts.{HasRisen};

use crate::ShelfMemory;
use crate::counts::next_count;
use std::alloc::Global;

/// How many calls were made, which numbers fail, from which number on all fail, and how often a call has failed.
#[derive(Drop)]
pub struct Calls {
    made: u64,
    failing: Vec<u64>,
    stop: Option<u64>,
    faults: u64,
}

impl Calls {
    ghost use Rattle.shelf_io.specs.Calls.{no_calls, tally, is_stop, next_fails, after_call, with_failing, with_stop};

    pub fn new(alloc: Global) -> Self
        ensures { tally result ≡ no_calls }
    {
        Calls {
            made: 0,
            failing: Vec::new(alloc),
            stop: None,
            faults: 0,
        }
    }

    /// The call of this number, counted from 1, is to fail.
    pub fn fail_at(&mut self, call: u64) -> Result<(), ShelfMemory>
        ensures ok { OnOk result (tally self.new ≡ with_failing (tally self.old) call) }
        ensures err { OnErr result (tally self.new ≡ tally self.old) }
    {
        self.failing.push(call)?;
        Ok(())
    }

    /// The call of this number and all later ones are to fail.
    pub fn stop_at(&mut self, call: u64)
        ensures { tally self.new ≡ with_stop (tally self.old) call }
    {
        self.stop = Some(call);
    }

    /// Whether the next call is the first that the stop lets fail.
    pub fn is_stop(&self) -> bool
        ensures { result ≡ is_stop (tally self.now) }
    {
        match self.stop {
            Some(call) => call == next_count(self.made),
            None => false,
        }
    }

    /// Whether the next call fails.
    fn next_fails(&self) -> bool
        ensures { result ≡ next_fails (tally self.now) }
    {
        let next = next_count(self.made);
        let is_stopped = match self.stop {
            Some(call) => call <= next,
            None => false,
        };
        self.failing.contains(&next) || is_stopped
    }

    /// Counts a call, and answers whether it fails.
    pub fn begin(&mut self) -> bool
        ensures fails { result ≡ next_fails (tally self.old) }
        ensures after { tally self.new ≡ after_call (tally self.old) }
        ensures counted { (tally self.old).faults ≤ (tally self.new).faults }
        ensures raised { OnTrue result (HasRisen (tally self.old).faults (tally self.new).faults) }
    {
        let fails = self.next_fails();
        self.made = next_count(self.made);
        if fails {
            self.faults = next_count(self.faults);
        }
        fails
    }

    pub fn faults(&self) -> u64
        ensures { result ≡ (tally self.now).faults }
    {
        self.faults
    }
}
