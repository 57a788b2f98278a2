//! Tiles.

use geo_core::Rect;

/// A rectangle of the plane whose squares have one value, and the tiles at its corners.
#[derive(Clone, Copy, Debug, PartialEq, Eq)]
pub struct Tile {
    pub area: Rect,
    pub value: u8,
    /// The tile of the square above its upper right square.
    pub above: u32,
    /// The tile of the square to the right of its upper right square.
    pub right: u32,
    /// The tile of the square below its lower left square.
    pub below: u32,
    /// The tile of the square to the left of its lower left square.
    pub left: u32,
}
