//! Offences of parts that are given as rectangles with sets.
ghost use Rattle.std.specs.Prelude.{IfOk, IsPermutation};
ghost use Rattle.geo_core.specs.Strips.{IsStrips};
ghost use Rattle.offences.specs.Offences.{OffendsOn, HaveTypes};
ghost use Rattle.offences.specs.PartSets.{AreInPartOrder};
ghost use Rattle.offences.specs.SetTiles.{AreTilesOfParts, tile_parts};

use crate::pieces::bad_pieces;
use geo_core::Rect;
use rect_overlays::geo_strips::strips;
use std::alloc::{AllocError, Global};
use tech_model::{PartSet, Tech};

/// A rectangle of a part, each of whose squares has this set there, and what other rectangles of the part add.
#[derive(Clone, Copy, Debug, PartialEq, Eq)]
pub struct SetTile {
    /// The number of the part, from 0.
    pub part: usize,
    pub area: Rect,
    pub set: PartSet,
}

/// The tiles in the order of their parts.
pub fn by_part(alloc: Global, tiles: &[SetTile]) -> Result<Vec<SetTile>, AllocError>
    ensures moved { IfOk result (λ sorted. IsPermutation tiles.now sorted.items) }
    ensures ordered { IfOk result (λ sorted. AreInPartOrder sorted.items) }
{
    let mut sorted = Vec::from_slice(alloc, tiles)?;
    sorted.sort_unstable_by_key(|tile| tile.part);
    Ok(sorted)
}

/// The strips of the squares of the plane that offend, where the parts are what the tiles make of them, `count` in number.
///
/// Each part has a type wherever it stands, and the bounds of areas are below 2^28 in absolute value. Tiles of one part may overlap.
/// Want of memory alone refuses. It takes time for a sort, and for each piece that the tiles make and the tiles that cover it.
pub fn offending_tiles(
    alloc: Global,
    tech: &Tech,
    tiles: &[SetTile],
    plane: u8,
    count: usize,
) -> Result<Vec<Rect>, AllocError>
    requires parts { AreTilesOfParts count tiles.now }
    requires types { HaveTypes tech.now (tile_parts tiles.now plane count) }
    ensures { IfOk result (λ found. IsStrips (OffendsOn tech.now (tile_parts tiles.now plane count) plane) found.items) }
{
    let pieces = bad_pieces(alloc, tech, tiles, plane, count)?;
    let found = strips(alloc, pieces.as_slice())?;
    Ok(found)
}
