//! A library of cells: their paint, their labels, and the uses that they have of each other.
//!
//! What is seen of a library is its technology, its scale, and for each cell its name, its layout, its labels and its uses (`Views`).
//! What an edit makes of that is one function (`Edits`), and what it is refused for, in order, one relation (`Refusals`).
//!
//! # How the proof goes
//!
//! A library keeps the contents of its cells under their names, seen as a list (`ContentLaws`), and the tree of its cells. An edit changes
//! one cell in both. Functions over these two parts do the edits, and say of the parts what they did (`CellEdits`); the laws of each
//! kind of edit say what that means for what is seen, for what is lawful, and for what refuses it (`PaintEdits`, `OwnEdits`, `UseEdits`,
//! `MoveEdits`, `NewCells`, over `EditLaws` and `ViewLaws`).
//!
//! Cells that come all at once come to the contents first, where each use then finds its child, and to the tree next (`ArrivingCells`,
//! `ArrivingUses`). What the tree refuses is what the library does, since a chain of uses is seen where it stands in the tree
//! (`AddedCells`).
//!
//! The tree holds the box of what a cell has of its own. Paint takes nothing away and fills the area, and erasing adds nothing
//! (`MaterialLaws`), so the box is known before paint is tried (`BoxLaws`, `BoxSteps`).
//!
//! What gives a cell back its paint or its labels is handed what some lawful library has there, so that the cell has room for it
//! (`OwnRestorations`). So it undoes the edits of paint and labels (`UndoneEdits`). What changes in an area that touches no side of the
//! cell's box leaves that box (`InnerAreas`).
//!
//! Limits are said of any sizes that are right for the cells (`GoesPast`). Cells have one list of sizes, and an edit changes those of the
//! cell and of what stands above it alone (`SizeLaws`), so the tree's refusals are the library's (`LimitLaws`). That a lawful library goes
//! past no limit excludes each later refusal of an accepted edit.
//!
//! A use that is given back to a cell, or gets back its grid, is refused by no limit: what is seen with it is lawful, so some lawful tree has
//! these cells, and has one size for each (`PutBackUses`).
//!
//! A reader tells of a cell's elements what the tree knows: how many there are (`ElementCounts`), how many cells stand at and below them
//! (`StandingCounts`), and the hull of the child in each of them (`GridSteps`, `BoxesBelow`). Those boxes are lawful, since the cell's own
//! hull goes round them, and hold the cell's parts, since hulls hold material (`HullsHoldMaterial`, `HeldParts`). What crates above take from
//! that stands in `PartLaws`. All paint is sound (`KeptContents`), so the tree of a cell has types of the technology alone (`TreeTypes`).
//!
//! A visit tells the tiles of each standing cell, and goes on at the spots of those of its elements that the area may meet (`OwnTiles`,
//! `SpotLaws`). Uses are found by the boxes round their elements (`UseTreeLaws`, `UseSearches`), and the elements of a grid by their indices
//! (`GridSpots`, `RowSpots`, `SeenAreas`). What is left out has nothing in the area, since the hull of a cell holds all material at and below
//! it (`HullsHoldMaterial`). The tiles that were told are the part tiles, and have the sets of the parts (`PartSets`).
#![tactic(auto)]

mod adding;
mod additions;
mod checks;
mod contents;
mod element_boxes;
mod faults;
mod library;
mod limits;
mod opened;
mod own_boxes;
mod own_restorations;
mod painting;
mod part_tiles;
mod reader;
mod spots;
mod use_trees;
mod uses;
mod visiting;
mod visitor;

pub use cell_bodies;
pub use cell_bodies::cell_paint;
pub use faults::LibFault;
pub use library::Library;
pub use limits::{LibraryLimit, MOST_CELLS, MOST_EDITS};
pub use opened::Opened;
pub use part_tiles::PartTile;
pub use reader::Reader;
pub use visitor::Visitor;
