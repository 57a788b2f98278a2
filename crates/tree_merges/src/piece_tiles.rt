//! The pieces at which the parts of a cell meet, as tiles, and their regions.
ghost use Rattle.std.specs.Prelude.{◌≡◌, IfOk};
ghost use Rattle.piece_groups.specs.MeetingSums.StackTiles.{tile_of, tiles_of};
ghost use Rattle.tree_merges.specs.steps.Pieces.{ArePieceRegions, ArePieces};

use flood_nodes::{Regions, regions_of_tiles};
use layout_model::RegionTile;
use offences::PlaneStack;
use piece_groups::meeting_sums::stacks_are_layout_tiles;
use std::alloc::{AllocError, Global};
use tech_model::{Tech, TypeId};

// The piece as a tile of its plane: a flat type that is undefined is taken for space.
fn tile_of(piece: &PlaneStack) -> RegionTile
    ensures { result ≡ tile_of piece.now }
{
    RegionTile {
        plane: piece.plane,
        area: piece.stack.area,
        kind: piece.stack.flat.unwrap_or(TypeId(0)),
        region: 0,
    }
}

// The pieces as tiles, each in its place.
fn tiles_of(alloc: Global, stacks: &[PlaneStack]) -> Result<Vec<RegionTile>, AllocError>
    ensures { IfOk result (λ tiles. tiles.items ≡ tiles_of stacks.now) }
{
    stacks.iter().map(tile_of).collect(alloc)
}

/// The regions of the pieces of a clean cell. Each piece keeps its place.
pub fn regions_of_pieces(
    alloc: Global,
    tech: &Tech,
    stacks: &[PlaneStack],
) -> Result<Regions, AllocError>
    requires { ArePieces tech.now stacks.now }
    ensures { IfOk result (ArePieceRegions tech.now stacks.now) }
{
    stacks_are_layout_tiles(tech);
    let tiles = tiles_of(alloc, stacks)?;
    let regions = regions_of_tiles(alloc, tech, tiles.as_slice())?;
    Ok(regions)
}
