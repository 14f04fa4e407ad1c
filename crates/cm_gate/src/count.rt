//! Counts of faults.

ghost use Rattle.std.specs.Prelude.{◌≡◌, ◌<◌, ◌≤◌, ◌^◌};
ghost use Rattle.cm_io.specs.CountsInside.{count_after};

use std::marker::Model;

/// How often something failed, from 0 to 2^64 - 1, where the count stays.
#[derive(Drop)]
pub(crate) struct FaultCount {
    count: u64,
}

impl Model for FaultCount {
    ghost use Rattle.std.specs.Prelude.{ℕ};

    ghost Value = { ℕ };

    ghost view = { λ c. c.count };
}

impl FaultCount {
    /// A count of no faults.
    pub(crate) fn new() -> FaultCount
        ensures { result ≡ 0 }
    {
        FaultCount { count: 0 }
    }

    /// How many calls have failed.
    pub(crate) fn get(&self) -> u64
        ensures { result ≡ self.now }
    {
        self.count
    }

    /// Counts a call, which failed or didn't.
    pub(crate) fn count(&mut self, failed: bool)
        ensures count { self.new ≡ count_after failed self.old }
        ensures later { self.old ≤ self.new }
        ensures bound { self.new < 2 ^ 64 }
    {
        let count = self.count;
        if failed {
            self.count = count.saturating_add(1);
        }
    }
}
