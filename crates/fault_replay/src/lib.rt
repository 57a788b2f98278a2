//! Runs in which a node is stuck, beside a run in which none is. What the run without a fault changed is recorded once, step by step. A run
//! with a fault then takes those changes over, and works out alone what differs: the vicinities of the nodes that have another state than
//! there, and of the stuck node. So it costs what its fault changes, and not what the vectors do.
//!
//! Where a phase without the fault didn't settle within its steps, or there was no room for them, its end is recorded alone, and the run
//! with the fault takes that phase by itself; past the end of the record it takes all phases so.
//!
//! # How the proof goes
//!
//! The two runs have the same nodes and switches, and but for the stuck node the same inputs and sizes (`AreAlikeBut`). In between all
//! nodes with different states are told (`IsAlong`). Seeds are those nodes, the ends of the switches that these gate, and what switches
//! join to the stuck node. By the law of two runs (`replay_laws`) a node in no vicinity of a seed becomes in a step of the one run what it
//! becomes in a step of the other: so copying the recorded changes there, and working out the step in those vicinities, is a step of the run
//! with the fault (`Beside`). The inputs and the stuck node keep their states by the definition of a step. What differs behind the step is
//! among the vicinities that were looked at, and is told again.
//!
//! A recorded phase ends where the network without the fault rests: from there on its changes are none, and the run with the fault takes
//! steps in the same way until it rests as well or has no step left in its budget, and is then ended as any phase is (`PhaseEnds`). Phases
//! and the lines between them lead from one pair of states beside each other to the next (`Lines`).
#![tactic(auto)]

mod changing;
mod limits;
mod recording;
mod records;
mod replaying;
mod runs;

pub use recording::record;
pub use records::PhaseRecord;
pub use runs::ReplayedRun;
pub use vector_runs;
