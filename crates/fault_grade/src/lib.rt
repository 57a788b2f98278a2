//! Grades the vectors of a network: which of its faults they detect, and at which lines.
//!
//! A fault is a node that is stuck at 0 or at 1. The vectors are run once without a fault, and then once with each of them, up to the first
//! line that detects it where the numbers of the lines rise, and else to the end. A run with a fault works out alone what differs from
//! what the run without changed (`fault_replay`). It keeps nothing of what it shows: that of the run without a fault is enough, with which
//! it is compared as it goes.
//!
//! # How the proof goes
//!
//! That a line detects a fault is said of where the two runs stand before it, so nothing need be known of the lines behind it: a run that
//! ends early has all that its answer speaks of. Before each line it is known where both runs stand, what the one without a fault shows
//! from there on, and the least line that tells them apart of those before (`Comparisons`). A line that tells other runs of the same lines
//! apart tells these apart, since each has one outcome. Where numbers rise, the first line that is found is the least of all.
//!
//! What is found is a grade from whichever states the network begins in, since there is one list of them; and a least number is one, so
//! there is one list of grades (`GradeLaws`).
#![tactic(auto)]

mod comparing;
mod detecting;
mod faults;
mod grading;
mod laws;
mod limits;

pub use faults::GradeFault;
pub use grading::{Graded, grade, has_too_many_faults};
pub use laws::grades_are_unique;
pub use limits::MOST_FAULTS;
