//! Counters of faults.
ghost use Rattle.std.specs.Prelude.{◌≡◌, ◌≤◌};
ghost use Rattle.shelf_io.specs.Counts.{raised, HasRisen};

/// One more, or the last value of a counter.
pub fn next_count(count: u64) -> u64
    ensures next { result ≡ raised count }
    ensures rises { HasRisen count result }
    ensures counted { count ≤ result }
{
    if count < u64::MAX { count + 1 } else { count }
}
