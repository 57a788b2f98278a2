//! Counts of calls and of what went wrong, and which calls are to fail.
ghost use Rattle.std.specs.Prelude.{◌≡◌, ◌↔◌, ◌+◌, ◌≤◌, IsTrue, Contains, min};
ghost use Rattle.outside_io.specs.CallPlans.{plan_of, after_call, IsListed};
ghost use Rattle.outside_io.specs.Counts.{Rose};

use crate::limits::LAST_COUNT;
use std::marker::Model;

/// A count of one more, which stands still at its last value.
pub(crate) fn raised(count: u64) -> u64
    ensures rose { Rose count result }
    ensures no_fall { count ≤ result }
{
    if count < LAST_COUNT {
        count + 1
    } else {
        LAST_COUNT
    }
}

/// How many calls were made, and the numbers of those that are to fail. The first call has number 1.
#[derive(Drop)]
pub(crate) struct Calls {
    made: u64,
    failing: Vec<u64>,
}

impl Model for Calls {
    ghost use Rattle.outside_io.specs.CallPlans.{CallPlan};

    ghost Value = { CallPlan };

    ghost view = { λ calls. record { made = calls.made; failing = calls.failing.items } };
}

impl Calls {
    /// No call was made yet.
    pub(crate) fn new(failing: Vec<u64>) -> Calls
        ensures { result ≡ plan_of failing.items }
    {
        Calls { made: 0, failing }
    }

    /// How many calls were made.
    pub(crate) fn made(&self) -> u64
        ensures { result ≡ self.now.made }
    {
        self.made
    }

    /// Counts a call, and says whether it is to fail.
    pub(crate) fn is_next_to_fail(&mut self) -> bool
        ensures counted { self.new ≡ after_call self.old }
        ensures listed { IsTrue result ↔ IsListed self.new }
    {
        self.made = self.made.saturating_add(1);
        self.failing.contains(&self.made)
    }
}
