//! The merges of a cell with uses: which members its parts make one where they meet, and what each group adds to its members.
//!
//! # How the proof goes
//!
//! Where nothing offends the cell is clean. So the pieces at which its parts meet have flat types: the flat type of the parts is defined
//! everywhere, and some part stands in each piece, since a tile covers it (`FlatTypes`). The pieces are then tiles of the flat layout of the
//! parts as they are restricted to the squares at which they meet, and keep their places and their contacts when they get the numbers of their
//! regions (`PieceTiles`), of which there are no more than pieces (`RegionCounts`).
//!
//! A member that has a tile has each place of the pieces that the tile covers, and so it stands in them. Each part that stands in a piece has
//! such a tile there, and each member has one (`PairLaws`, `NumberedMembers`). These members and the regions of their pieces are joined one
//! after another (`JoinLaws`), which gives members and regions their marks, and pieces the marks of their regions (`PieceMarks`).
//!
//! The laws of the crates below say of what is marked in this way that it tells the groups of the cell, and of what the pieces of a mark count
//! that it is what a group adds to its members. The records of the cells below the cell and of its own nodes are those that they ask for
//! (`CellMerges`).
#![tactic(auto)]

mod marking;
mod merging;
mod piece_tiles;
mod relating;

pub use hier_merge::cell_library;
pub use relating::{Related, relate};
pub use tile_members::element_paths;
