//! Undo and redo: a log of the edits of a library, by their inverses.
//!
//! A session means versions by them: before each edit a cell as it was is put by, and `undo` gives it back whole (`Versions`). A log keeps less:
//! for each edit the change that takes it back, and its contract says to which versions these changes lead (`Inverses`). The versions before an
//! edit are lawful, so no limit refuses to bring one back.
//!
//! # How the proof goes
//!
//! A change of one cell takes back what was made of the cell where it gives the cell what it had: a use that came goes, one that went comes to
//! its place again, and so on (`BodyLaws`, over `CellLaws`). The inverse of an edit or of a change is made of the library as it is before
//! (`Makings`). It takes back each edit that is accepted (`EditLaws`) and each change (`ChangeLaws`), since what it gives a cell is what some
//! lawful library has there (`LawfulLaws`, `UseMoves`). For the same reason the library refuses such a change for too many edits and for want of
//! memory alone (`MakeLaws`).
//!
//! So one more inverse leads to the library before, and from there the others lead on (`LeadLaws`). `undo` and `redo` are one step with the two
//! lists exchanged: what takes the change back is made first, then the change is made, and then the entry moves, without memory. What an edit
//! leaves of other cells, and what the two commands give a designer back, is said once more for whole libraries (`DesignerLaws`).
//!
//! Cells that come use none from before, so each version is lawful with them too: its tree and that of the library are joined (`MoreCells`,
//! `CameLaws`). `new` is such a command, and other commands leave the library (`OtherCommands`).
#![tactic(auto)]

mod changes;
mod faults;
mod inverses;
mod laws;
mod logs;
mod returns;
mod trails;

pub use changes::{Change, Inverse};
pub use edit_script;
pub use faults::UndoFault;
pub use laws::{cells_may_come, edits_are_taken_back, kept_versions_are_unique, nothing_is_kept};
pub use logs::Log;
