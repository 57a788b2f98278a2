//! Tiles of a layout with the numbers of their regions.
use geo_core::Rect;
use tech_model::TypeId;

/// A tile of one plane, of one type other than space, with the number of its region.
#[derive(Clone, Copy, Debug, PartialEq, Eq)]
pub struct RegionTile {
    pub plane: u8,
    /// The squares of the tile, in lambda.
    pub area: Rect,
    pub kind: TypeId,
    pub region: usize,
}
