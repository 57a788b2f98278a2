//! How much the elements of a tree of records have: the numbers of their nodes and merges within the limits, and as many classes in each
//! as the root has.
//!
//! Each element's size is that of its record, so sums over the numbers that the tree has of elements are sums over the elements.
#![tactic(auto)]

mod classes;
mod counts;
mod roots;

pub use classes::check_classes;
pub use counts::{check_merges, check_nodes, is_past};
pub use element_tree;
pub use roots::root_number;
