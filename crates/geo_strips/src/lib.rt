//! The strips of what rectangles cover, found by a sweep, and what a sweep of another crate takes of it: bars, the runs of a
//! row, and the bounds of a column.
//!
//! # How the proof goes
//!
//! Rectangles become events, sorted by rows (`RowEventLaws`). A sweep over them keeps two
//! things: the runs of the row, a map from where each begins (`RowLaws`), and how far up each column is covered, a
//! tree of cuts whose nodes know the least and the most below them (`CoverageLaws`). `SweepLaws` ties both to the set
//! of squares: below the row all is found, on it the runs are those of the set, and above it a column is covered as far
//! as the tree says; so the bars that the sweep gives are runs of the set in each of their rows. `JoinLaws` joins bars
//! that meet end to end and loses no point, `StripLaws` shows that columns so joined are the strips, and
//! `StripListLaws` that sorting gives them in order and that a set has one such list.
#![tactic(auto)]

mod bars;
pub mod column_bounds;
mod coverage;
mod row_events;
pub mod row_runs;
mod strip_lists;
mod sweeping;

pub use bars::Bar;
pub use strip_lists::{SquareSet, strips, strips_are_unique, strips_of_runs};
