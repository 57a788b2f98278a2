//! How much of a library was opened.
ghost use Rattle.std.specs.Prelude.{◌≡◌, ◌+◌, ◌<◌};

use std::marker::Model;
use std::sync::ledger::{Blank, Ledger};
use step_count::Steps;

/// How much of a library was opened, in steps: one for the paint of a cell, and one for each tile of a visit.
///
/// A library alone makes such a count. What has no more than a reader makes none, so each step that it takes is in the count that it was
/// handed.
#[derive(Drop)]
pub struct Opened<L: Ledger> {
    steps: Steps<L>,
}

impl<L: Ledger> Model for Opened<L> {
    ghost use Rattle.std.specs.Prelude.{ℕ};

    ghost Value = { ℕ };

    ghost view = { λ opened. opened.steps };
}

impl<L: Ledger> Opened<L> {
    // A count of nothing opened, in the ledger that the blank stands for.
    pub(crate) fn new(blank: Blank) -> Opened<L>
        requires name { blank.name ≡ L.name }
        requires parts { blank.parts ≡ L.parts }
        requires some_part { 0 < blank.parts }
        ensures { result ≡ 0 }
    {
        Opened {
            steps: Steps::new(blank),
        }
    }

    // Counts one step.
    pub(crate) fn tick(&mut self)
        ensures { self.new ≡ self.old + 1 }
    {
        self.steps.tick();
    }

    // Counts this many steps.
    pub(crate) fn add(&mut self, count: u64)
        ensures { self.new ≡ self.old + count }
    {
        self.steps.add(count);
    }
}
