//! What a session keeps between two lines: a library, its current cell, and the records that were made of its cells; and how a cell of it is
//! extracted and flattened.
//!
//! # How the proof goes
//!
//! The state of a session is what is edited and which cells are dirty (`WorkspaceLaws`). An extraction makes the records of the dirty cells of
//! a library order, one after another, and none of these is dirty then (`ExtractionLaws`). So a record is kept of the cell and of all below
//! it, each that of the cell as it is (`KeptLaws`), and these records have the cell's circuit as their meaning (`CellCircuitLaws`), since no
//! more cells stand below a cell than a circuit may have elements (`StandingLaws`), and names tell cells (`CellNames`). A record is within the
//! limits of files that are read (`ReadableRecords`).
#![tactic(auto)]

mod cell_circuits;
mod cells;
mod extractions;
mod laws;

pub use cell_circuits::{Flattened, flatten_kept, flatten_kept_into};
pub use cells::{Edited, LayoutSession, new_session};
pub use circuit_laws;
pub use ext_cache::Cache;
pub use extractions::{Extracting, Extraction, extract_cell};
pub use laws::records_are_read_back;
pub use library_answers;
pub use network_runs;
