//! The commands that edit a library.
//!
//! What a command makes of what is edited is one function (`Edits`), what refuses it one relation (`Refusals`), and which stamps it raises
//! another (`Stamps`).
//!
//! # How the proof goes
//!
//! Each command has a function, whose contract says what comes of that command (`Answers`): what is edited then and that nothing refuses it,
//! or a fault and that nothing has changed. It finds the current cell and what the words name, calls the library, and tells the library's
//! fault with the word that is meant. What the library says of its edit is what comes of the command once all that was looked for is there
//! (`AnswerLaws`, then `OwnLaws` and `UseLaws` for each command). The current cell stays one of the library's, since no command makes the
//! cells fewer (`CurrentLaws`). Which cells each command leaves as they were is told for those who keep what they made of cells
//! (`KeptCells`).
#![tactic(auto)]

mod applying;
mod cell_edits;
mod faults;
mod lookups;
mod own_edits;
mod use_edits;

pub use applying::apply;
pub use cell_library;
pub use faults::EditFault;
pub use script_lines;
