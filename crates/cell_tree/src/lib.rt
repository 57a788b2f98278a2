//! The tree of cells that use each other: the hull, the elements and the depth of each cell, and a stamp that an edit at or below it
//! raises.
//!
//! An edit is tried first: the cell gets the size that it would have, and all above it are worked out from it, dimension by dimension, up
//! to the first that passes a limit. Only then are the cells changed.
//!
//! Cells may come all at once with their uses. They are put behind the others, in an order in which each stands behind its children their
//! sizes are worked out, dimension by dimension, and each is made known to its children. Where that is refused, they are forgotten and go
//! again.
//!
//! # How the proof goes
//!
//! `HullLaws` has the smallest rectangles round lists of rectangles, and that two corners of a grid give the one round all its elements.
//! `SizeLaws` shows that a size rests on those of the children alone, in each dimension for itself, and how it grows use by use;
//! `SpreadLaws` that what is computed fits. `AboveLaws` and `FindLaws` are about the search for the cells above a cell: an order in which
//! each comes after its users. `StepLaws`, `TryLaws` and `WholeTrialLaws` go over that order from its end on: what is worked out agrees with
//! any sizes that the cells would have (`TrialLaws`), so a limit that is passed here is passed there. There are such sizes, they are right,
//! and they shrink where the cell does (`EditLaws`, `ShrinkLaws`). `DecideLaws` tells what stands above. `CellLaws`, `UserLaws` and
//! `StateLaws` say what an edit leaves of the cells, of their users, and which states a cell may take; `WholeLaws`, `TreeLaws` and `AddLaws`
//! put all together: the tree is whole again.
//!
//! `GraphLaws` has the uses of cells as a graph: its order below a cell is that of a lawful tree, where depth falls from a cell to its
//! children. Of cells that come, `OrderLaws` reads the order off that graph, or the first cell that stands below itself. `ArrivalLaws` goes
//! over that order: there are sizes that are right, whatever the limits, and what is worked out agrees with them up to the first cell that
//! passes a limit, so it is passed by the right sizes too. `PushLaws` and `TellLaws` follow the users that the cells know while the new
//! ones are put behind, told to their children, and forgotten where they are refused; `BookLaws` has what the book is filled up with.
//! `ComeLaws` puts it together: the tree is whole with the cells that came, and as before where they went again.
#![tactic(auto)]

mod above;
mod additions;
mod arrivals;
mod cells;
mod edits;
mod faults;
mod graphs;
mod limits;
mod new_cells;
mod resizes;
mod size_books;
mod sizes;
mod trees;
mod trials;
mod use_tables;

pub use cells::TreeCell;
pub use faults::TreeFault;
pub use limits::{
    MOST_DEPTH, MOST_ELEMENTS_BELOW, MOST_ELEMENTS_OF_USE, MOST_USES, SPREAD_EDGE, USE_EDGE,
};
pub use new_cells::NewCell;
pub use size_books::SizeBook;
pub use sizes::{Dimension, Size, hull_below};
pub use trees::CellTree;
pub use use_tables::{UseBody, UseTable};
