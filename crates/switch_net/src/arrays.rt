//! The arrays in which the steps of a network are worked out. They are made with the network, so
//! that a phase takes no memory. The sorted switches stay as they are; what the other arrays hold
//! does not count from one call to the next.

ghost use Rattle.std.specs.Prelude.{◌≡◌, ◌≤◌, IfOk, All, length};
ghost use Rattle.switch_net.specs.Network.{IsWithin};
ghost use Rattle.switch_net.specs.Arrays.{AreStrengthsFor, IsWorkFor};

use crate::adjacency::Adjacency;
use crate::limits::MOST_SWITCHES;
use crate::node_set::NodeSet;
use crate::switches::{Level, Switch};
use names_lists::List;
use std::alloc::{AllocError, Global};

/// The strengths of the strongest paths to each node: of definite paths, of unblocked paths from
/// roots in another state than one, and of those from roots in another state than zero. The nodes
/// whose neighbours are still to be looked at wait.
#[derive(Debug, Drop)]
pub struct Strengths {
    pub definite: List<u8>,
    pub other_than_one: List<u8>,
    pub other_than_zero: List<u8>,
    pub waiting: NodeSet,
}

/// All arrays of a network: the switches sorted by their nodes, the nodes that are marked and those
/// that are forced, the strengths, the states after a step and the nodes that the step changed.
#[derive(Debug)]
pub struct Work {
    pub adjacency: Adjacency,
    pub marks: NodeSet,
    pub forced: NodeSet,
    pub strengths: Strengths,
    pub next: List<Level>,
    pub changed: List<u32>,
}

impl Drop for Work {
    fn drop(self) {
        let Work {
            adjacency: _,
            marks: _,
            forced: _,
            strengths: _,
            next: _,
            changed: _,
        } = self;
    }
}

impl Work {
    /// Arrays for a network of so many nodes and these switches.
    pub(crate) fn build(alloc: Global, nodes: u32, switches: &[Switch]) -> Result<Work, AllocError>
        requires within { All (IsWithin nodes) switches.now }
        requires few { length switches.now ≤ MOST_SWITCHES }
        ensures { IfOk result (λ work. IsWorkFor nodes switches.now work) }
    {
        let count = nodes as usize;
        Ok(Work {
            adjacency: Adjacency::build(alloc, nodes, switches)?,
            marks: NodeSet::build(alloc, count)?,
            forced: NodeSet::build(alloc, count)?,
            strengths: Strengths::build(alloc, count)?,
            next: List::of(vec![in alloc; Level::X; count]?),
            changed: List::of(vec![in alloc; 0; count]?),
        })
    }
}

impl Strengths {
    /// Strengths for so many nodes.
    pub fn build(alloc: Global, nodes: usize) -> Result<Strengths, AllocError>
        ensures { IfOk result (λ strengths. AreStrengthsFor nodes strengths) }
    {
        Ok(Strengths {
            definite: List::of(vec![in alloc; 0; nodes]?),
            other_than_one: List::of(vec![in alloc; 0; nodes]?),
            other_than_zero: List::of(vec![in alloc; 0; nodes]?),
            waiting: NodeSet::build(alloc, nodes)?,
        })
    }
}
