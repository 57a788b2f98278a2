//! Runs vectors on a network: what each line sets, frees, runs and shows; and tells what runs show in which a node is stuck.
//!
//! # How the proof goes
//!
//! Each line does what it says and adds its replies, which its own function ensures. Along the lines a run grows at its end by one line
//! (`RunningLines`). Since no name has two nodes, power and ground are one node each or none, so the states in which the network begins
//! follow from these two (`RailStates`, `NameSearch`). After a settled phase the network rests, and where inputs alone are set then, it rests
//! but for them (`RestingRuns`), so the next phase begins with what they lead to. A fresh network has no other sizes and inputs than those, hence one that is made
//! fresh again is as it was.
//!
//! A run has one outcome since each line has one: a phase by the law of phases, which asks for a sound network with a state for each node,
//! and every line that fits the network keeps both (`LineOutcomes`). Whether a node has a name can be decided, so a network begins in one
//! list of states (`Starts`). A run is cut between any two lines (`SplitRuns`). Lines that only show change nothing, and a step leaves
//! the states of a settled phase as they are, which is what it means that each node is at rest.
//!
//! A watched run takes the same lines one by one, but for those of the stuck node, which are left out of the list as a whole: the lines that
//! count of two lists are those of the one and then those of the other, so a watched run grows by a line as others do, and what it shows has
//! one outcome (`WatchedRuns`).
#![tactic(auto)]

mod laws;
mod progress;
mod rails;
mod replies;
mod runs;
mod stuck_faults;
mod watching;

pub use laws::{runs_are_unique, shown_values_are_steady, watches_are_unique};
pub use progress::Progress;
pub use rails::{Rails, make_fresh, make_net_fresh, rails_of, start_states};
pub use replies::{VecReply, level_byte};
pub use runs::{run_to_end, run_vectors};
pub use stuck_faults::StuckFault;
pub use watching::{Seen, WatchedRun, watch};
