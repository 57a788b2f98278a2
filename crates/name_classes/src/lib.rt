//! Which node of the flat circuit each full name of a tree of records is of.
//!
//! Names are joined by their numbers in a partition: what the nodes and the merges of a record link is found once for the record, and
//! then joined in each of its elements. Numbers are in name order, so the labels of the partition are the numbers of the nodes by their
//! least names.
//!
//! # How the proof goes
//!
//! `TreeLaws` has what the tree says of elements by their numbers. A path is taken down the tree name by name (`SplitLaws` cuts it,
//! `TableLaws` and `BranchLaws` find the use of a name): a walk from one element of a record goes the same way from each, and leads to a
//! node exactly where the definition says so (`PathLaws`). `LinkLaws` and `FaultLaws` show the links of nodes and merges as they grow,
//! and which path fails first; `SeenLaws` has the records whose links are made so far. `JoinLaws` follows the pairs that are joined, and
//! `EndLaws` says of what names they are. `ClassLaws` puts the two sides together: each pair is of names of one node, and each link of
//! names is a chain of pairs. Global names of a node are joined at the first element of its record alone, as they are the same names in
//! all others.
#![tactic(auto)]

mod classes;
mod joining;
mod links;
mod paths;
mod tables;

pub use classes::{MergeEnd, NameClasses, name_classes};
pub use full_names;
