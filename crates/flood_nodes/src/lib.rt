//! The regions of any layers: which of their tiles chains of links join.
//!
//! # How the proof goes
//!
//! Within a tile one walks from any square to any other, along a row and then along a column (`Walks`), and two tiles share
//! part of an edge exactly where a square of the one is next to a square of the other (`Abutting` of `rect_contacts`). So chains of links between
//! places are chains of contacts between tiles, and of tiles that lie upon each other, both ways (`LayoutRegions`). Tiles are
//! gathered plane by plane (`GatherLaws`), and the contacts of each plane's run are added to those before it (`RunLaws`). Which
//! tiles are linked is told by their types (`LinkLaws`, and `StackLaws` for two planes), and they keep their places when they
//! get numbers (`Renumbering`). `ShareLaws`, `TileEdges`, `OpenEdges` and `EdgeTotals` are for the crates above: edges between
//! squares are counted by what tiles share.
#![tactic(auto)]

mod flooding;
mod found;
mod gathering;
mod linking;
mod sharing;

pub use flooding::{regions, regions_of_tiles};
pub use found::Regions;
pub use rect_contacts;
