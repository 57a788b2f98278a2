//! The record of a cell without uses, as extraction makes it.
//!
//! # How the proof goes
//!
//! The transistors that are found have regions in the place of nodes, and each region has the number of its node. The terminals
//! whose regions have one number become one terminal, with the sum of their lengths (`JoinedLaws`): no place is of two regions, so
//! the sum counts the edges to all of them, and what is left of the perimeter is the same (`JoinedTransistors`). A node that goes
//! by the name of a number's record has that number's places and no others, since nodes that share a name are one
//! (`NodesByNumber`), so numbers may be replaced by names (`RenamedTransistors`). Numbers rise with the least places of their
//! nodes, and so terminals in the order of numbers are in that of least places. Channels are near, so lengths fit. `OwnFets` puts
//! the records together, and `RecordLists` has lists that are made one by one.
#![tactic(auto)]

mod fet_records;
mod joining;
mod node_names;
mod records;

pub use records::{CellRecord, cell_record};
