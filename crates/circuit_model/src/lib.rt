//! What the records of a tree of cells mean: the flat circuit of their root, or the first fault that keeps them from meaning one.
//!
//! `specs/Elements.antt` has the elements of a tree, `FullNames`, `FlatNodes` and `FlatFets` what the circuit has of them, `Circuits`
//! the circuit whole, and `Refusals` the faults in their order.
#![tactic(auto)]

mod faults;
mod limits;

pub use faults::FlatFault;
pub use limits::{
    CircuitLimit, LONGEST_CHAIN, MOST_FLAT_ELEMENTS, MOST_MERGES, MOST_NAME_BYTES, MOST_NODES,
};
