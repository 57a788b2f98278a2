//! The records of a library's cells, kept from one extraction to the next.
//!
//! A record is kept with the stamp that its cell had then. Which cells are dirty by that, and what an extraction makes, is said in `Caches`.
//!
//! # How the proof goes
//!
//! Records agree with a library where none is of a later stamp than its cell has, each of its cell's stamp is that of the cell as it is, and no
//! serial is above the count. A new record of the present stamp and the next serial keeps them so (`RecordLaws`). An edit gives its cell and all
//! above it a stamp that is later than that of any record, so these are dirty then, and the others keep their stamps and stay as they were
//! (`EditLaws`); what stands above in the tree of cells is what is seen to have the cell below itself (`AboveLaws`). A cell that comes has no
//! record (`ArrivalLaws`).
//!
//! An extraction goes over the cells in library order, passes over those that are not dirty, and keeps a new record of each of the others.
//! A cell stands behind all that are below it, and each cell is listed once (`OrderLaws`, and `CleanOrders` of `hier_merge`). So what is below
//! the cell at hand is not dirty any more, where new records were kept of the dirty cells so far (`MakingLaws`): it has a record, which is of the
//! cell as it is, and is clean. The cell itself is dirty if it was at the start. `LoopLaws` has how the extraction goes on with it. Its labels are
//! such as may name nodes (`LabelLaws` of `library_trees`), and a record with the nodes and transistors of its own paint, its uses and its merges
//! is its record (`MadeLaws`). The steps are those of each dirty cell, one after another (`WorkLaws`). From the list of the records that were made,
//! one after another, follows how far they are counted, and that their serials follow the count (`SerialLaws`).
//!
//! A cell that is not clean is the first of the order, since all before it are clean (`UncleanLaws`). A log has what each new record replaced:
//! put back from the last to the first, this leaves the records as they were (`UndoingLaws`). So does taking records back that were lent, each of
//! which has an empty one in its place (`LendingLaws`).
#![tactic(auto)]

mod caches;
mod extraction;
mod faults;
mod laws;
mod lending;
mod limits;
mod undo;

pub use caches::Cache;
pub use extraction::{Extracted, extract_dirty};
pub use faults::{ExtractFault, Unclean};
pub use lawful_trees::library_trees;
pub use laws::{edits_keep_agreement, new_cells_keep_agreement, no_records_agree};
pub use lending::Lent;
pub use limits::LAST_SERIAL;
pub use tree_merges::cell_library;
