//! Networks of switches, as a switch-level simulator sees a circuit: nodes that store charge or are
//! inputs, and transistors that join them. The definitions of this crate say what such a network
//! does in a step and in a phase, and what becomes of nodes that would never settle. A network has with it the arrays in which its steps are worked
//! out: its switches, sorted by their nodes at each terminal, and sets of nodes.
//!
//! # How the proof goes
//!
//! A path is a root and a list of hops, the last hop first, so a prefix of a path is a tail of its
//! list and every argument on paths is a recursion on that list (`Paths`). That a node has one
//! steady value rests on one fact: each definite path has an unblocked one to the same end that is
//! at least as strong (`Unique`, by the levels of strength and within a level along the path). From
//! it follow that a step and a phase have one outcome (`Phases`). So have the rounds that follow
//! where a phase does not settle: what they force is X, and all other nodes are steady when they end
//! (`Forcing`). What a node becomes depends on its part of the network alone (`Locality`), so a node
//! outside the vicinities of what changed keeps its value (`Vicinities`). The switches are sorted by
//! counting (`Counting`): those of a node start behind all switches of lower nodes, and each stands
//! behind the earlier ones of its node. `Listing` has what keeps a set of nodes and its list together.
#![tactic(auto)]

mod adjacency;
mod arrays;
mod laws;
mod limits;
mod network;
mod node_set;
mod switches;
mod terminals;

pub use adjacency::{Adjacency, SortedSwitches};
pub use arrays::{Strengths, Work};
pub use laws::{
    forcing_law, phase_law, quiet_node_law, simple_path_law, steady_value_law, unsettled_phase_law,
};
pub use limits::{LARGEST_SIZE, MOST_NODES, MOST_SWITCHES};
pub use network::{NamedNet, Net};
pub use node_set::NodeSet;
pub use switches::{Level, Switch, SwitchKind};
pub use terminals::{Side, Terminal};
