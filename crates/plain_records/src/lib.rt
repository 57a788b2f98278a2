//! Records with arrays and rows of merges in their plain forms, as far as a root reaches them.
//!
//! A short file may stand for more elements and merges than any memory has. So nothing is made plain before it is known that the tree at
//! the root keeps to the limits of chains and elements, and no merges before theirs are counted.
//!
//! # How the proof goes
//!
//! Thin records have the first element of each use. The elements of a use lead to one cell, so the walk over thin records finds the fault
//! of the plain ones (`WalkLaws`), and the graph of the thin ones tells that of the plain ones, whose children are the same, each as often
//! as its use has elements (`GraphLaws`). Of that graph are the sizes and the chains that the laws of `element_tree` count.
//!
//! What is at and below a root depends on the records reached alone: `ReachLaws` shows by recursion on the depth that faults, elements and
//! paths are those of the plain records where these have been put in the places of the records reached, with their merges or without.
//! `RowLaws` counts the merges of elements by their rows.
#![tactic(auto)]

mod expansion;
mod merges;
mod reach;
mod rows;
mod uses;

pub use expansion::{expanded, thin_records};
pub use flat_limits;
pub use reach::reached_records;
pub use rows::{check_rows, may_have_too_many};
