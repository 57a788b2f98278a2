//! The transistors of the regions of a cell.
//!
//! # How the proof goes
//!
//! Tiles of one type that share an edge are joined, whatever their type. Within a tile one walks from any square to any other,
//! so two tiles have one label exactly where their places are of one edge-connected set of one type (`AlikeTiles`). The places
//! of a channel are those of the tiles with its label, and so what the lengths of contacts count of these tiles are the
//! channel's area, its perimeter and its edges to each region (`ChannelLaws`). The code adds the same numbers up by label, and
//! for terminals by label and region (`SizeLaws`, `LengthLaws`, `MapLaws`): where no part of a length was added, no edge leads.
//!
//! The corner of a tile is its first place. The corners of all tiles of channels are sorted, and of each label the first one is
//! kept (`LowestLaws`), so it is the first place of its channel, and the channels come in their order. `RoleLaws` says that the
//! tables by type say what the technology says, and that no channel is a terminal beside itself. `FetLaws` puts all together.
#![tactic(auto)]

mod channels;
mod lengths;
mod lowest;
mod roles;
mod sizes;
mod transistors;

pub use transistors::{Fet, fets};
