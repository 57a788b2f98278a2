//! Tiles of the parts of a cell.

use ext_model::CellKey;
use geo_core::{Rect, Transform};
use tech_model::TypeId;

/// A tile of a part of a cell, as far as it lies in an area that is looked at.
///
/// Part 0 is the cell's own paint, and its elements are counted from 1, in the order of its uses and of their grids.
#[derive(Clone, Copy, Debug, PartialEq, Eq)]
pub struct PartTile {
    pub part: u32,
    /// The number of the standing cell whose paint it is: the cell itself is 0, and depth first each element counts on.
    pub element: u32,
    /// That cell, and the transform that takes its coordinates to those of the cell that is looked at.
    pub of: CellKey,
    pub to_cell: Transform,
    pub plane: u8,
    /// In the coordinates of the cell that is looked at.
    pub area: Rect,
    pub kind: TypeId,
}
