//! What groups of places count in the flat layout of parts beyond what they count in each part: area, perimeter and capacitance.
//!
//! # How the proof goes
//!
//! A class tells of each piece whether its flat type is of the class, and for each part whether its type there is. Tiles of which some
//! pass a test have an area, and edges to places that do not pass, which their lengths and contacts say (`TileTests`): so the flat layout,
//! and each part, counts the pieces that pass (`StackTests`). Over all parts these are sums over the types that pieces list, since a part
//! that is not listed has space (`KindLaws`, `SumLaws`). The difference is summed piece by piece and contact by contact (`MeetingLaws`),
//! and that is what the amounts add up to for each group (`AmountLaws`, `StackLaws`, `ColumnLaws`). Capacitance is a sum of multiples of
//! such differences (`GroupLaws`). No more than 2^61 places lie between the edges of planes, so that all sums are small (`SmallLaws`,
//! `CapacitanceLaws`).
#![tactic(auto)]

mod amounts;
mod capacitances;
mod columns;
mod kinds;
mod limits;
mod sums;

ghost use Rattle.meeting_sums.specs.Laws.{StacksAreLayoutTiles};

pub use limits::MOST_PARTS;
pub use sums::{MeetingSum, meeting_sums};
use tech_model::Tech;

/// The pieces of parts are the tiles of their flat layout, where each has a flat type that is the technology's and of its plane. It does
/// nothing.
pub fn stacks_are_layout_tiles(tech: &Tech)
    ensures { StacksAreLayoutTiles tech.now }
{}
