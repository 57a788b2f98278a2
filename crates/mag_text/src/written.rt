//! What is written as a mag text.

use geo_core::{Grid, Rect};
use names_lists::{List, Name};

/// A use as it is written: its child's name, its id, where it stands, its grid, and the hull of the child in the child's own
/// coordinates, where it has one.
#[derive(Debug, Drop)]
pub struct WrittenUse<'a> {
    pub cell: &'a Name,
    pub id: &'a [u8],
    pub six: [i64; 6],
    pub grid: Option<Grid>,
    pub hull: Option<Rect>,
}

/// The strips of a layer's image on its own plane.
#[derive(Debug, Drop)]
pub struct LayerStrips {
    /// The number of the layer.
    pub layer: usize,
    pub areas: List<Rect>,
}
