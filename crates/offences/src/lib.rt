//! The squares at which the parts of a layout spoil each other where they lie over or beside each other.
//!
//! Parts may lie over each other as long as their transistors stay as they are: each channel belongs to one part alone, keeps what is
//! beside it, and no channel comes or goes. And what a part has must stay within what all of them have together.
//!
//! On the way a plane is cut into pieces on whose squares each part has one type. They serve others too: each has the types of the parts, and
//! the numbers of the tiles that cover it.
//!
//! # How the proof goes
//!
//! What a part has at a square is the union of the sets of its tiles there. Two unions are one where each bit of the one is a bit of the
//! other (`UnionLaws`), so neither the order of tiles nor that some overlap matters (`TileLaws`). The tiles are put in the order of their
//! parts, and what they make is cut into stacks. The members of one part stand in a row, so their sets are summed up part by part
//! (`SumLaws`), which lists each part that has something there once, with its type (`KindLaws`). At each square of a stack each part and all
//! together have what is listed, and outside of all stacks they have space (`StackLaws`, `TypedStackLaws`). A piece keeps the members of its
//! stack, and in whichever order tiles are given their parts are the same (`MemberLaws`).
//!
//! The first four offences are then tests of the list: as many entries have a type as parts have it (`SpoiledLaws`). In a piece that passes
//! them a channel has one owner. A role that changes beside it changes in another piece that shares an edge with this one, and the squares
//! with such a neighbour are what this piece has in common with the other, moved by one (`SideLaws`, `ChangeLaws`). `PieceLaws` puts all
//! together: the pieces that are found cover exactly what offends, and sets with the same squares have the same strips.
//!
//! Whether a place offends depends on what the parts have there and at its neighbours alone. In the grown area the tiles of layers make just
//! what the layers have (`LayerLaws`), so what their tiles say of the squares of the area itself holds of the layers.
#![tactic(auto)]

mod changes;
mod layers;
mod part_sets;
mod pieces;
mod plane_stacks;
mod roles;
mod set_tiles;
mod spoiled;
mod stacks;

pub use layers::offending;
pub use pieces::offending_stacks;
pub use plane_stacks::PlaneStack;
pub use set_tiles::{SetTile, offending_tiles};
pub use stacks::{PartKind, TypedStack, typed_stacks};
