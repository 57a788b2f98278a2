//! Squares, rectangles and pieces of a layout; orientations, transforms and grids; what a plane of numbers is; and what the
//! strips of a set of squares are.
//!
//! # How the proof goes
//!
//! Transforms go orientation by orientation to linear arithmetic (`ImageLaws`), and the elements of a grid by division
//! of their place in the list (`ElementLaws`). `StripSets` and `TileSets` are for the crates above: strips of sets with the
//! same squares, of sets within a band of rows, and cut to an area.
#![tactic(auto)]

mod grids;
mod limits;
mod orients;
mod planes;
mod squares;
mod transforms;

pub use grids::Grid;
pub use limits::{MOST_ELEMENTS, MOST_TILES, PAINT_EDGE, PLANE_EDGE, REACH, TILES_FOR_A_STRIP};
pub use orients::Orient;
pub use planes::{Plane, PlaneFault};
pub use squares::{Piece, Rect, Square};
pub use transforms::Transform;
