//! What the parts of a cell do to each other where they interact: the squares at which they spoil each other, and the pieces at which they meet.
//!
//! # How the proof goes
//!
//! Parts meet only where the boxes that hold them, each grown by one, overlap (`MeetingBoxes`), and those areas lie near
//! (`NearAreas`). Visits of them hand out tiles that make the parts there and nothing elsewhere (`VisitLaws`), and where parts meet
//! decides which places offend (`MeetingSquares`).
//!
//! The areas lie apart, so between the visits of two of them is a seam, over which no two tiles share a square (`SeamLaws`). The pieces
//! that the tiles before a seam make of each plane and those that the tiles behind it make are together the pieces of all tiles
//! (`JoinedPieces`). So what offends is found, for `squares` and for an extraction alike.
//!
//! The members of a piece are the numbers of the tiles that cover it: the tiles of a plane between two seams are put in the order of their
//! parts with their numbers, and no tile beyond a seam covers a piece (`NumberedTiles`). On each plane its own tiles make the same parts
//! (`PlaneTiles`), which have types (`PartTypes`). So the pieces that are found plane by plane are pieces of all parts (`PlanePieceLaws`,
//! `MeetingPieceLaws`), and the strips those of the offending squares (`PlaneStrips`, `MeetingOffences`). A tile has a type of its plane, so
//! where it covers a piece its part has material there, and where a part has material a tile of it covers the piece (`CoveringTileLaws`,
//! `FoundPieces`). A cell has one list of boxes, and so one list of areas, over which the work is counted (`WorkLaws`).
#![tactic(auto)]

mod interactions;
mod meetings;
mod offending_squares;
mod plane_pieces;
mod plane_tiles;

pub use cell_library;
pub use meetings::{Meeting, meeting_of};
pub use offending_squares::offending_of;
