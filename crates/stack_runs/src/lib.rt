//! What `generate` runs on the network of a stack of rows of tiles, and what it reports of the circuit and of the run.
//!
//! `specs/StackVectors.antt` has the vectors, `specs/Outcomes.antt` what comes of them, and `specs/Summaries.antt` the report.
//!
//! # How the proof goes
//!
//! The vectors are made with an index of the names of nodes, in which each name has the node that it has in the network, so they are
//! those of the network, and their nodes are the network's (`NamedAlike`). All lines but the last set nodes and reply nothing, and so the
//! replies are what is told of one phase (`OnePhase`).
#![tactic(auto)]

mod inputs;
mod outcomes;
mod summaries;

pub use outcomes::{Outcome, run_stack};
pub use summaries::{Summary, summary_of};
