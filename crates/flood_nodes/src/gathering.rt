//! The tiles of all planes.
ghost use Rattle.std.specs.Prelude.{◌≡◌, ◌≤◌, ◌++◌, map, IfOk, OnOk, AllPairs};
ghost use Rattle.geo_core.specs.Areas.{IsNear};
ghost use Rattle.geo_core.specs.Covering.{IsProper};
ghost use Rattle.tech_model.specs.WellFormed.{IsWellFormed};
ghost use Rattle.layout_model.specs.LayerTypes.{AreTypesOf, seen_in};
ghost use Rattle.layout_model.specs.RegionTiles.{AreLayoutTiles};
ghost use Rattle.flood_nodes.specs.Stacking.{AreTyped};
ghost use Rattle.flood_nodes.specs.steps.Gathered.{tile_on};

use geo_core::Rect;
use layout_model::RegionTile;
use std::alloc::{AllocError, Global};
use tech_model::{Layers, Tech, TypeId};

/// Adds the tiles of a plane.
fn push_tiles(
    tiles: &mut Vec<RegionTile>,
    plane: u8,
    found: &[(Rect, TypeId)],
) -> Result<(), AllocError>
    ensures { OnOk result (tiles.new.items ≡ tiles.old.items ++ map (tile_on plane) found.now) }
{
    for (area, kind) in found {
        tiles.push(RegionTile {
            plane,
            area: *area,
            kind: *kind,
            region: 0,
        })?;
    }
    Ok(())
}

/// The tiles of an area of all planes, plane by plane.
pub fn gather<Y: Layers>(
    alloc: Global,
    tech: &Tech,
    layers: &Y,
    area: Rect,
) -> Result<Vec<RegionTile>, AllocError>
    requires proper { IsProper area }
    requires near { IsNear area }
    requires types { AreTypesOf tech.now (Y.kind layers.now) }
    ensures tiles { IfOk result (λ made. AreLayoutTiles (seen_in area (Y.kind layers.now)) made.items) }
    ensures typed { IfOk result (λ made. AreTyped tech.now made.items) }
    ensures by_plane { IfOk result (λ made. AllPairs (λ a b. a.plane ≤ b.plane) made.items) }
{
    let planes = tech.raw().planes.items().len() as u8;
    let mut tiles = Vec::new(alloc);
    for plane in 0..planes {
        let found = layers.tiles(alloc, plane, area)?;
        push_tiles(&mut tiles, plane, found.as_slice())?;
    }
    Ok(tiles)
}
