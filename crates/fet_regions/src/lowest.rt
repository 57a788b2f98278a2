//! For each channel the tile that has its least place.
ghost use Rattle.std.specs.Prelude.{◌≡◌, ◌<◌, All, length, IfOk};
ghost use Rattle.fet_regions.specs.steps.Lowest.{corner_of, AreCorners, AreLowest};
ghost use Rattle.fet_regions.specs.steps.Roles.{channel_in};

use crate::roles::Roles;
use layout_model::RegionTile;
use std::alloc::{AllocError, Global};

/// The lower left corner of a tile. Corners are in the order of planes, then from below, then from the left.
#[derive(Clone, Copy, Debug, PartialEq, Eq, PartialOrd, Ord)]
pub struct Corner {
    pub plane: u8,
    pub y: i64,
    pub x: i64,
    /// The place of the tile in the list.
    pub tile: usize,
}

/// The corner of the tile at a place of the list.
fn corner_of(tile: &RegionTile, place: usize) -> Corner
    ensures { result ≡ corner_of tile.now place }
{
    Corner {
        plane: tile.plane,
        y: tile.area.ylo,
        x: tile.area.xlo,
        tile: place,
    }
}

/// The corners of the tiles of channels, in order.
fn sorted_corners(
    alloc: Global,
    tiles: &[RegionTile],
    roles: &Roles,
) -> Result<Vec<Corner>, AllocError>
    ensures corners { IfOk result (λ corners. AreCorners (channel_in roles.now) tiles.now corners.items) }
    ensures within { IfOk result (λ corners. All (λ corner. corner.tile < length tiles.now) corners.items) }
{
    let mut corners = Vec::new(alloc);
    for (place, tile) in tiles.iter().enumerate() {
        if roles.is_channel(tile.kind) {
            corners.push(corner_of(tile, place))?;
        }
    }
    corners.sort_unstable();
    Ok(corners)
}

/// For each label of a channel, the place of the tile that has the first corner of those with the label, in the order of
/// these corners. It takes time for a sort of the tiles of channels.
pub fn lowest_tiles(
    alloc: Global,
    tiles: &[RegionTile],
    labels: &[usize],
    count: usize,
    roles: &Roles,
) -> Result<Vec<usize>, AllocError>
    requires long { length labels.now ≡ length tiles.now }
    requires below { All (λ label. label < count) labels.now }
    ensures { IfOk result (λ lowest. AreLowest (channel_in roles.now) tiles.now labels.now lowest.items) }
{
    let corners = sorted_corners(alloc, tiles, roles)?;
    let mut seen = vec![in alloc; false; count]?;
    let mut lowest = Vec::new(alloc);
    for corner in &corners {
        let label = labels[corner.tile];
        if !seen[label] {
            seen[label] = true;
            lowest.push(corner.tile)?;
        }
    }
    Ok(lowest)
}
