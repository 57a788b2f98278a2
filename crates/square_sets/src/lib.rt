//! Sets of squares, each given as rectangles that cover it: where they are too narrow, where they leave too narrow a gap, and where two come
//! too near each other.
//!
//! A set that is shrunk, so that a square stays where all squares that it reaches are of the set, and then grown again, is what lies in boxes
//! inside it; one that is grown and then shrunk is what lies in no box outside it. The rest is what the rules ask for.
//!
//! # How the proof goes
//!
//! To grow a set its rectangles are grown (`DilationLaws`). To shrink it along rows its strips lose columns, since the squares beside a run of a
//! row are not of the set; what is left is turned, so that the same once more shrinks it along columns (`ErosionLaws`). All that is computed
//! fits, since strips go nowhere past what goes round their set (`BoundLaws`). `BoxLaws` ties sets that are shrunk and grown to boxes, and has
//! that the squares alone decide what the rules say. Two lists of rectangles are laid over each other, and the members of a piece tell
//! whether its squares are of both or of one alone (`CombinedLaws`).
#![tactic(auto)]

mod checks;
mod combining;
mod limits;
mod reaches;

pub use checks::{narrow, near, tight};
pub use limits::{MOST_REACH, SET_EDGE};
