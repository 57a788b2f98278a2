//! What tells a run with a fault from the run without.
ghost use Rattle.std.specs.Prelude.{◌≡◌, ◌<◌, All, length};
ghost use Rattle.fault_replay.specs.VectorRuns.Running.{FitsNodes, states_of};
ghost use Rattle.fault_grade.specs.steps.Comparing.{are_apart, asked_count, is_apart, is_shown_apart, least_of};
ghost use Rattle.fault_grade.specs.Grades.{are_opposed};

use fault_replay::vector_runs::{Seen, WatchedRun};
use names_lists::Name;
use switch_net::Level;
use vector_files::VecLine;

// Whether one is 0 and the other is 1.
fn are_opposed(one: Level, other: Level) -> bool
    ensures { result ≡ are_opposed one other }
{
    match (one, other) {
        (Level::Zero, Level::One) | (Level::One, Level::Zero) => true,
        _ => false,
    }
}

// Whether what the run without a fault showed of a node tells this one apart, whose last phase settled.
fn is_shown_apart(run: &WatchedRun, named: &(Name, u32), seen: &Seen) -> bool
    requires { named.now.1 < length (states_of run.now) }
    ensures { result ≡ is_shown_apart (states_of run.now) named.now seen.now }
{
    seen.settled && are_opposed(seen.value, run.level(named.1))
}

// The same of some nodes.
fn are_apart(run: &WatchedRun, asked: &[(Name, u32)], seen: &[Seen]) -> bool
    requires { All (λ named. named.1 < length (states_of run.now)) asked.now }
    ensures { result ≡ are_apart (states_of run.now) asked.now seen.now }
{
    for (named, shown) in asked.iter().zip(seen) {
        if is_shown_apart(run, named, shown) {
            return true;
        }
    }
    false
}

/// Whether the line tells the run apart from the one without a fault, of which it showed this.
pub fn is_apart(run: &WatchedRun, line: &VecLine, seen: &[Seen]) -> bool
    requires { FitsNodes (length (states_of run.now)) line.now }
    ensures { result ≡ is_apart run.now.settled (states_of run.now) line.now seen.now }
{
    match line {
        VecLine::Show(asked) => run.has_settled() && are_apart(run, asked.items(), seen),
        _ => false,
    }
}

/// How many nodes a line shows.
pub fn asked_count(line: &VecLine) -> usize
    ensures { result ≡ asked_count line.now }
{
    match line {
        VecLine::Show(asked) => asked.items().len(),
        _ => 0,
    }
}

/// The least of the lines that detect a fault, where this one does or does not.
pub fn least_of(found: Option<u32>, detects: bool, line: u32) -> Option<u32>
    ensures { result ≡ least_of found detects line }
{
    match found {
        _ if !detects => found,
        Some(other) if other < line => found,
        _ => Some(line),
    }
}
