//! Rows of merges: merges that go on with each other are pushed onto one row.
//!
//! # How the proof goes
//!
//! A path is cut at its brackets and its comma (`CutLaws`), which tells whether it begins with an id and two indices (`IndexedPaths`). A merge
//! that goes on with the last row is the next of that row's merges, and the row goes on with the one before it as little as it did; one that
//! does not is the only merge of its row (`PushedRows`). Rows of the same merges begin alike, and the first are as long: where one were shorter,
//! the row behind it would go on with it (`UniqueRows`).
#![tactic(auto)]

mod laws;
mod paths;
mod rows;

pub use laws::rows_are_unique;
pub use paths::{raised_path, raised_text};
pub use rows::push_merge;
