//! The records of cells with uses, and the circuits that their flat layouts are: definitions that contracts cite.
//!
//! The record of a cell's own paint, and the circuit that its paint is: definitions alone.
//!
//! A cell without uses is its own paint. `specs/FetRecords.antt` has the transistors of a layout with labels as records have them,
//! `OwnRecords` the whole record, and `OwnCircuits` the circuit that such a layout is.
//!
//! Cells with all that stands below them, their names and labels: the nodes of their flat layouts, and the groups that their parts
//! make. These are definitions that contracts cite.
//!
//! # How the proof goes
//!
//! A place of an element goes to a place of the cell above and back (`MoveLaws`), and neighbours, squares upon each other and links
//! go along.
#![tactic(auto)]

pub use cell_nodes;
pub use cell_nodes::measures;
