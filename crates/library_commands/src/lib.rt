//! Commands on the library that a session keeps: `tech`, `load`, those that edit, `undo` and `redo`, those that look at a cell, `drc` and `cif`.
//!
//! # How the proof goes
//!
//! A load adds cells, of which no record is kept, and each edit of a cell changes that cell alone (`ChangedCells`). So the records that are kept
//! agree with the library after it, and exactly the cell and those above it are dirty (`MarkLaws`). `TechLaws`, `LoadLaws` and `EditLaws` have
//! the cases of each command.
//!
//! Each has one effect: edits and loads by the laws of a library, where the marks of cells are Booleans that are known at each cell (`OneMarks`),
//! and looks since a cell has one text, one list of nodes and one of squares that offend (`OneLook`). A check has that of `drc_commands`,
//! and a cell that is written that of `cif_commands`.
#![tactic(auto)]

mod command_checks;
mod command_cif;
mod command_edits;
mod command_load;
mod command_looks;
mod command_returns;
mod command_tech;
mod laws;

pub use cif_commands;
pub use command_checks::check;
pub use command_cif::write_cif;
pub use command_edits::edit;
pub use command_load::load;
pub use command_looks::look_at;
pub use command_returns::{Way, bring_back};
pub use command_tech::tech;
pub use laws::library_lines_have_one_effect;
pub use look_commands;
pub use workspace::{LayoutSession, new_session};
