//! Flat circuits.

use crate::records::{FetRec, NodeRec};
use names_lists::{List, Name};

/// A flat circuit: all nodes and transistors of a cell and the cells below it, under the full names and at the points that they
/// have from the cell.
///
/// It is in the technology of that name, and `classes` are the values of its classes, in milliohms per square. Nodes stand in
/// the name order of their names; transistors by the element that has them, in the order of elements, and then as there.
#[derive(Debug)]
pub struct Circuit {
    pub tech: Name,
    pub classes: List<u64>,
    pub nodes: List<NodeRec>,
    pub fets: List<FetRec>,
}

impl Drop for Circuit {
    fn drop(self) {
        let Circuit {
            tech: _,
            classes: _,
            nodes: _,
            fets: _,
        } = self;
    }
}
