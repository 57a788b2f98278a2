//! The squares of a cell's flat layout that violate rules of distances, whether the cell is clean or not.
//!
//! A cell's hull is cut into bands of rows, and each is visited. What all tiles there have together decides the flat type, so no part is looked at
//! by itself. The pieces whose types some rule lists are kept, and each rule asks `square_sets` of those of its lists.
//!
//! # How the proof goes
//!
//! The union of the sets of all tiles at a square is the set of the flat layout there (`TileUnions`, `VisitPieces`). Tiles of a plane that are laid
//! over each other make stacks on whose squares the members are the same, so each stack has one flat type (`StackPieces`, `PieceLaws`,
//! `PlanePieces`). Bands have all squares of the hull (`BandLaws`), outside which there is no material, and space is in no list (`ListedLaws`,
//! `MarkLaws`); so the pieces of all bands are those of the cell (`CellPieceLaws`, `FoundLists`). Their areas cover exactly the squares that a rule
//! speaks of, and sets with the same squares have the same strips (`AreaLaws`, `SquareLaws`, `ViolationLaws`).
#![tactic(auto)]

mod bands;
mod cell_pieces;
mod checking;
mod laws;
mod marks;
mod pieces;
mod violations;

pub use checking::check_drc;
pub use laws::violations_are_unique;
pub use violations::Violation;
