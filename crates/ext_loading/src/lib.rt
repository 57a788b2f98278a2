//! Reading the circuit files of a cell and of all cells below it.
//!
//! `ExtFiles` says what the file of one cell gives, `Readings` which files are read and to which others they lead (in the order of
//! `FileTrees` of `session_model`), and `Loads` what comes of a tree.
//!
//! # How the proof goes
//!
//! A walk keeps the records that it has read, and the names that are left with the next one last. A name that is taken is that of a cell
//! whose file was read, or the cells that its record uses come on top. Each such step keeps two facts (`ReadingLaws`). Where the files are
//! told, what reading comes to from the names that are left, it comes to from the root: a step is one case of the definition. And whatever
//! the shelf tells, the records are lawful and of different cells, and each cell that was asked for was read or is left, so at the end each
//! has its record. The walk ends since a record that may still come counts for more than all names that can be left.
//!
//! The uses of the records lead from position to position (`Positions`), and the orders of that graph tell the first cell that stands below
//! itself. Where there is none, no use leads back: uses lead from each open cell to the one that is looked at, and a use that led to an open
//! cell would put it below itself (`CycleLaws`). `LoadLaws` says of both ends what a load promises.
#![tactic(auto)]

mod ext_files;
mod faults;
mod limits;
mod loading;
mod read_exts;
mod walks;

pub use faults::ExtLoadFault;
pub use limits::MOST_READ_CELLS;
pub use loading::{LoadedExts, load_exts};
