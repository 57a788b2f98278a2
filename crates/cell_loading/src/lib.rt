//! Loading cells from files into a library.
//!
//! `CellFiles` says what the file of one cell gives, `Readings` to which other files it leads (they are read in the order of `FileTrees` of
//! `session_model`), and `Loads` what a load makes of the library.
//!
//! # How the proof goes
//!
//! A load walks over the uses of the cells that it has read. It keeps the position of each cell that it is below and the next use of that
//! cell, so it takes no more memory than the cells themselves; the names that are left to be read are those of the frames from the top down
//! (`LeftLaws`). Each step keeps two facts. Whatever the shelf tells, the cells may be added as soon as those of the names that are left
//! are there, so at the end all may be (`SoFarLaws`). And where the files are told, what reading comes to from the names that are left, it
//! comes to from the root (`ReadingLaws`): a step is one case of the definition, and at the end nothing is left. A cell that comes uses up
//! more of what may still come than its own uses bring, so the walk ends.
#![tactic(auto)]

mod cell_files;
mod faults;
mod loading;
mod read_cells;
mod walks;

pub use faults::LoadFault;
pub use loading::{Loaded, load_cells};
pub use mag_text;
