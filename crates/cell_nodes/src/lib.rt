//! The nodes of a cell's own paint, with their names, capacitances and measures, as the cell's record has them.
//!
//! # How the proof goes
//!
//! All paint lies within the range of paint and near, so what is seen there is the paint's layout, of types of the technology
//! (`PaintLaws`). Each region gets the number of the node that has it (`NumberLaws`), and each tile that of its region: so tiles
//! are in groups, and measured by them. A place lies in a group exactly where it is of the group's node (`GroupLaws`): it has
//! material, since links lead to material and labels attach to nothing else (`NodePlaces`), so it lies in a tile, whose region is
//! of the node; and no place is of two nodes, which stand in strict order. Each region has a place with material, so its number is
//! that of a node (`RegionLaws`). Near places measure little, so capacitances fit (`CapacitanceLaws`). `RecordLaws` puts the
//! records together.
#![tactic(auto)]

mod capacitances;
mod groups;
mod nodes;
mod records;

pub use capacitances::capacitance_of;
pub use measures;
pub use nodes::{CellNodes, CellRegions, cell_nodes, cell_regions};
