//! Orders of a graph of cells that use each other: the library order below a cell, and an order of new
//! cells, or the least of them that is its own descendant. The graph is read through a trait, and
//! no copy of it is made.
//!
//! # How the proof goes
//!
//! One walk serves both orders. It keeps the way of open cells from the root down to the present one, and a mark for each
//! cell; what one step does is an equation of states (`specs/steps/Walks.antt`), and the proofs are about these states alone. The
//! marks tell which cells are listed and which are open (`UnderWay`). What is left to do at the open cells always completes
//! what was listed to what the definition says, unless an open cell was met (`Advancing`); then the present cell is its own
//! descendant. The walk ends since each step follows a use or lists a cell, and an unmet cell counts for more than all
//! uses (`Working`). That the library order has each cell once, just those below the root, and children first, is by
//! recursion on the visits (`Visiting`).
//!
//! For new cells the walk visits each of them. If it met no open cell, what it listed is the order (`NewOrders`). Else there is a
//! cycle, and the least cell on one is wanted. The walk knows more of what it lists (`Thorough`): where steps lead from a
//! cell to another, the other is listed no later than some cell of the first one's ring, the cells to and from which steps
//! lead. So when the cells are visited again by way of their users, the last first, each visit lists just a ring
//! (`Rings`): what is not listed yet and leads to the root is led to by it. A ring of two cells or more, or of one
//! that uses itself, is a cycle, and there is no other.
#![tactic(auto)]

mod graph;
mod laws;
mod library_order;
mod new_order;
mod own_descendants;
mod walk;

pub use graph::{UseGraph, UseLists, are_cells};
pub use laws::{library_order_law, new_cells_law, rank_law};
pub use library_order::below;
pub use new_order::{Order, children_first};
