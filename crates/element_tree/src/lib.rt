//! The elements of a tree of records by numbers: depth first, in the order of uses.
//!
//! `specs/Trees.antt` says what is true of the tree that `element_tree` makes.
//!
//! The walk through the uses of cells, depth first from a root: in which order cells are done, or which use is the first
//! that leads nowhere or back.
//!
//! Which records of a tree the uses lead to, and in which order they are done.
//!
//! # How the proof goes
//!
//! ## Elements by numbers
//!
//! Each record has two numbers that follow from those of its children: how many records its longest
//! chain of uses has, and how many elements are at or below it, up to one more than the most. Along
//! the order of the graph children come first, so each number is right when it is written and stays
//! so (`proofs/Measures.antt`), and the root's are the depth and the number of elements that the
//! definitions count (`Counting`).
//!
//! A use and its branch make a link (`specs/steps/Links.antt`), and each element stands at the end of a
//! chain of links from the root. What is true of the links of all records that fit is `AreForest`
//! (`specs/steps/Rooms.antt`): they lead where the uses do, step behind the elements of those before them
//! (`Steps`), and step in rank behind those with lesser names, since the branches are sorted by
//! their names (`RankSums`). From that follows that the steps along a chain add up to the number at
//! which its element stands, and that no element stands elsewhere (`Chains`). The steps in rank add
//! up to ranks in the order of paths, and chains with the same names are one (`Ranks`).
//!
//! `add_elements` appends what the tree has along all chains (`Growth`), the definitions' elements
//! are those along the same chains (`Along`), and so the tree is of these elements (`TreeLaws`).
//!
//! ## The walk
//!
//! A walk under way keeps its open cells on a stack (`UnderWay`): the use before the next one of each leads to the cell above it, and all
//! uses before that to cells that are done, below which nothing is left to find (`WalkLaws`). So the first fault of the whole walk is at
//! each turn the first of what is left of the open cells' uses, and `Turns` has what one turn does to the lists.
//!
//! ## The graph
//!
//! The records become a graph of numbers, in which `walk` finds the order or the first fault. `Cells` ties the number of a cell to
//! its record, `RecordWalks` shows by recursion on the depth that the walk over numbers finds the fault of the records, and `Orders` that the
//! order of the walk leads each use to a record done before, and that a fault names a use that is there.
#![tactic(auto)]

mod branches;
mod elements;
mod faults;
mod graph;
mod name_order;
mod sizes;
mod tree;
mod walks;

pub use graph::{RecordGraph, record_graph};
pub use sizes::chain_lengths;
pub use tree::{Branch, ElementTree, TreeElement, element_tree};
