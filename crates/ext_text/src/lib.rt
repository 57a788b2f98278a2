//! The texts of circuit files, as they are written: the file of a cell's record, which is of version 2, and that of a flat circuit, which is
//! of version 1.
//!
//! # How the proof goes
//!
//! A text is the lines that its records have, a line its words, and both are defined as such. The writer appends word behind word, so
//! `AppendedLines` turns round: what is appended step by step is the first word with the others behind blanks, which is the line; the
//! text of two lists of lines is that of the one behind the other's, and a loop keeps that what stands and what is left make the whole
//! text. A text that is too long with some of its lines is too long with all.
//!
//! The path of a row of merges is cut at the brackets and the comma of its first name, and what stands between them is read as a number
//! (`PathCuts`). In a lawful record it is one of 32 bits, so that the last index of the row is written as it is.
#![tactic(auto)]

mod faults;
mod limits;
mod names;
mod nodes;
mod records;
mod words;
mod writing;

pub use faults::ExtFault;
pub use limits::LONGEST_TEXT;
pub use nodes::append_node_line;
pub use writing::{write_ext, write_flat};
