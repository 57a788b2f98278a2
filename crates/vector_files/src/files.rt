//! What a vector file says, as a whole and in each of its lines.

use names_lists::{List, Name};
use switch_net::Level;

/// What a line of a vector file asks for. Nodes are named by their numbers in the network.
#[derive(Debug, Drop)]
pub enum VecLine {
    /// The node becomes an input in this state.
    Set(u32, Level),
    /// The node stores charge, and keeps its state.
    Free(u32),
    /// The node has this size, from 1 to 3, which counts while it stores charge.
    Size(u32, u8),
    /// A phase is run.
    Phase,
    /// The states of nodes are told, under the names by which they are asked for.
    Show(List<(Name, u32)>),
}

/// The lines of a vector file, without those that are read over, each with its number in the file, from 1.
#[derive(Debug, Drop)]
pub struct Vectors {
    pub lines: List<(u32, VecLine)>,
}
