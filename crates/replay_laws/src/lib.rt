//! Two runs that differ in little: what a step of the one says of the same step of the other. A law alone.
//!
//! # How the proof goes
//!
//! A node that no difference reaches has a vicinity in which both runs are alike: its nodes have the same states and, as roots, the same
//! strengths; the switches that end there have gates in the same states; and an input that conducts into it is one of both runs, in one
//! state. So each definite path to a node of the vicinity has a match in the other run, no weaker: the same path, or its last hops from
//! such an input on. Paths are therefore overcome in both runs or in none, unblocked paths match one by one, their roots have the same
//! states, and the node has one steady value in both (`proofs/TwoRuns.antt`). It is the argument by which a step depends on a part of one
//! network alone, for two networks that have the same nodes and switches, but not the same inputs and sizes.
#![tactic(auto)]

mod laws;

pub use laws::replay_law;
