//! Where the parts of a cell may interact: the squares at which the boxes of two of them, each grown by one, overlap.
//!
//! # How the proof goes
//!
//! Boxes become edges, at which one begins or has ended, in the order of rows. How many boxes cover a square is the sum of what the edges at
//! its row and at earlier ones gain in its column (`EdgeSums`), and two or more cover it exactly where two different ones do
//! (`CoveringCounts`). The sweep counts all edges of a row in a tree over the columns, and then settles it: the tree's bounds tell where a
//! column has come to two or more, or to less, since it was settled last, and there the runs of the row change (`CountLaws`). Up to the next
//! row with edges the runs are those of the set, so the bars that the sweep gives are too (`EdgeLaws`, `SweepLaws`), and they make its
//! strips. Those lie within what goes round all boxes so grown (`Sharings`).
#![tactic(auto)]

mod counts;
mod edges;
mod sharing;
mod sweep;

pub use sharing::areas;
