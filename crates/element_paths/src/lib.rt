//! The elements that lead from a cell of a library down to what stands at or below it.
//!
//! The uses of a cell, as its record has them.
//!
//! # How the proof goes
//!
//! ## Paths
//!
//! What stands below an element stands in the cell above behind all that stands at and below the elements before it (`ElementLaws`). These
//! are the elements of the uses before its own, and those before it in its own use, each of which has as many cells at and below it as the
//! child (`UseLaws`). So a use begins where the sum over the uses before it says, and later uses begin no earlier (`StartLaws`): the last use
//! that has begun at a number has the element, the quotient by the cells at and below the child tells which element it is, and the rest is
//! the number in the child. That number is lower, so the steps end, and what leads on from a step leads on from the cell (`DescentLaws`).
//!
//! ## Uses
//!
//! The uses so far are the first ones of the cell, and each adds the next. They are counted in 64 bits, since a use has an element and a cell
//! has few of them. An element of a use stands where it is displaced before the use's transform, and has the use's id with its indices: so
//! element by element the uses are what the cell's tree has (`RecordLaws`).
#![tactic(auto)]

mod descents;
mod element_names;
mod paths;
mod recorded_uses;
mod starts;
mod steps;

pub use element_names::element_name;
pub use library_trees;
pub use library_trees::cell_library;
pub use paths::ElementPaths;
pub use recorded_uses::use_records;
pub use starts::element_count;
pub use steps::Step;
