//! A plane as corner-stitched tiles.
//!
//! # How the proof goes
//!
//! Tiles are looked at by number, and a number without a tile has no square, so nothing has to say which numbers are live. A cut or a join
//! hands the squares of an area over from one tile to another (`HandLaws`); the tiles along its sides get their stitches mended (`MendLaws`),
//! and the partition and all stitches stand again. What goes along a row (`RowCuts`) goes along a column with x and y exchanged
//! (`Transposed`, `ColumnCuts`), and the right and the left side are mended as the upper and the lower one (`TransposedSides`). Walks follow
//! stitches, and get nearer with each step (`WalkLaws`).
//!
//! A piece is cut free at its sides and set band by band: in the rows of a band all tiles of it and beside it go on. A band laid is one
//! relation, which composes: its squares are one tile, and all others keep the columns and values of their tiles (`LaidLaws`, `BandLaws`).
//! When all bands are set, rows are wide, and only three columns can have tiles that may be joined (`StripLaws`, `AgainLaws`).
//!
//! Listings: the tiles in the first column of an area come from below, and then with each tile its followers, those that begin where it
//! ends and have their lowest row in the area beside it (`FollowerLaws`). Each tile that meets the area stands in the first column or
//! follows exactly one other, so a queue gets all of them, each once (`QueueLaws`). Their parts are the pieces of the area, and those of
//! values other than 0 its tiles (`PartLaws`): such a tile is a strip of its value, since space alone reaches the edges of the plane
//! (`MaterialLaws`). What goes over all tiles goes by their numbers (`WholeLaws`).
//!
//! A search may begin at any tile, so of the tiles that are marked to begin at (`marks`) it is known only that they are tiles. What makes
//! walks short is not proved: they begin near, go to a place on a side of a tile from both of its ends, and keep out of tiles of space,
//! which may be as wide as the plane and whose stitches lead to their ends.
//!
//! The two sheets: pieces that lie apart may be set one by one (`SheetLaws`), and setting them has one outcome (`SetLaws`), so a sheet that
//! is one change behind catches up by setting the pieces of that change. A plane begins as one tile (`FirstLaws`).
#![tactic(auto)]

mod cuts;
mod joins;
mod listings;
mod marks;
mod mends;
mod pieces;
mod sheets;
mod sides;
mod slots;
mod stores;
mod tile_planes;
mod tiles;
mod walks;

pub use tile_planes::TilePlane;
