//! The tiles of a plane.
ghost use Rattle.std.specs.Prelude.{◌≡◌, ◌+◌, ◌<◌, ◌^◌, IfOk, length, map};
ghost use Rattle.hier_merge.specs.steps.Seams.{numbered_on};
ghost use Rattle.hier_merge.specs.steps.Visits.{set_tile};

use cell_library::PartTile;
use meeting_laws::offences::SetTile;
use std::alloc::{AllocError, Global};
use tech_model::Tech;

/// A tile of a part by its number among all tiles, and as a rectangle with a set.
#[derive(Clone, Copy, Debug, PartialEq, Eq)]
pub struct NumberedTile {
    pub number: usize,
    pub tile: SetTile,
}

/// Those of the tiles that lie on the plane, where the first has this number and each has the next one. Want of memory alone refuses.
pub fn numbered_on(
    alloc: Global,
    tech: &Tech,
    tiles: &[PartTile],
    start: usize,
    plane: u8,
) -> Result<Vec<NumberedTile>, AllocError>
    requires few { start + length tiles.now < 2 ^ 64 }
    ensures { IfOk result (λ found. found.items ≡ numbered_on tech.now plane start tiles.now) }
{
    let mut found = Vec::with_capacity(alloc, tiles.len())?;
    for (index, tile) in tiles.iter().enumerate() {
        if tile.plane == plane {
            let tile = set_tile(tech, tile);
            found.push(NumberedTile {
                number: start + index,
                tile,
            })?;
        }
    }
    Ok(found)
}

// The tile of a part as a rectangle with a set.
fn set_tile(tech: &Tech, tile: &PartTile) -> SetTile
    ensures { result ≡ set_tile tech.now tile.now }
{
    SetTile {
        part: tile.part as usize,
        area: tile.area,
        set: tech.raw().parts_of(tile.kind),
    }
}

/// The tiles without their numbers.
pub fn set_tiles(alloc: Global, numbered: &[NumberedTile]) -> Result<Vec<SetTile>, AllocError>
    ensures { IfOk result (λ tiles. tiles.items ≡ map (λ entry. entry.tile) numbered.now) }
{
    numbered.iter().map(|entry| entry.tile).collect(alloc)
}

/// The numbers of the tiles.
pub fn numbers_of(alloc: Global, numbered: &[NumberedTile]) -> Result<Vec<usize>, AllocError>
    ensures { IfOk result (λ numbers. numbers.items ≡ map (λ entry. entry.number) numbered.now) }
{
    numbered.iter().map(|entry| entry.number).collect(alloc)
}
