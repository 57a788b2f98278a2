//! Offences of parts that are given as layers.
ghost use Rattle.std.specs.Prelude.{◌≡◌, ◌≢◌, ◌++◌, None, ℕ, IfOk, OnOk, All, map, length};
ghost use Rattle.geo_core.specs.declared.squares.Square.{Square as OneSquare};
ghost use Rattle.geo_core.specs.Areas.{widened, common_rect, IsNear};
ghost use Rattle.geo_core.specs.Covering.{Covers, IsProper};
ghost use Rattle.geo_core.specs.Strips.{IsStrips};
ghost use Rattle.layout_model.specs.LayerTypes.{AreTypesOf};
ghost use Rattle.offences.specs.steps.LayerParts.{layer_tile, ArePartTiles};
ghost use Rattle.offences.specs.Offences.{OffendsOn};
ghost use Rattle.offences.specs.SetTiles.{set_layout};

use crate::pieces::bad_pieces;
use crate::set_tiles::SetTile;
use geo_core::Rect;
use rect_overlays::geo_strips::strips;
use std::alloc::{AllocError, Global};
use tech_model::{Layers, RawTech, Tech, TypeId};

/// Adds the tiles of a part, with the sets of their types.
fn push_tiles(
    gathered: &mut Vec<SetTile>,
    raw: &RawTech,
    part: usize,
    tiles: &[(Rect, TypeId)],
) -> Result<(), AllocError>
    ensures { OnOk result (gathered.new.items ≡ gathered.old.items ++ map (layer_tile raw.now part) tiles.now) }
{
    for (area, kind) in tiles {
        gathered.push(SetTile {
            part,
            area: *area,
            set: raw.parts_of(*kind),
        })?;
    }
    Ok(())
}

/// The tiles of all parts in an area, each with the number of its part.
fn part_tiles<Y: Layers>(
    alloc: Global,
    raw: &RawTech,
    parts: &[Y],
    plane: u8,
    area: Rect,
) -> Result<Vec<SetTile>, AllocError>
    requires proper { IsProper area }
    requires near { IsNear area }
    ensures { IfOk result (λ tiles. ArePartTiles raw.now plane area (map Y.kind parts.now) tiles.items) }
{
    let mut gathered = Vec::new(alloc);
    for (number, part) in parts.iter().enumerate() {
        let tiles = part.tiles(alloc, plane, area)?;
        push_tiles(&mut gathered, raw, number, tiles.as_slice())?;
    }
    Ok(gathered)
}

/// What the rectangles have in common with an area.
fn cut(alloc: Global, pieces: &[Rect], area: &Rect) -> Result<Vec<Rect>, AllocError>
    ensures { IfOk result (λ found. found.items ≡ map (λ piece. common_rect piece area.now) pieces.now) }
{
    pieces.iter().map(|piece| piece.common(area)).collect(alloc)
}

/// The strips of the squares of the plane in the area that offend, where each part is what its layers have.
///
/// No part's type is undefined, and each is the technology's and of its plane. The area has a square, and grown by one on every side its
/// bounds are still below 2^28 in absolute value. Want of memory alone refuses.
pub fn offending<Y: Layers>(
    alloc: Global,
    tech: &Tech,
    parts: &[Y],
    plane: u8,
    area: Rect,
) -> Result<Vec<Rect>, AllocError>
    requires types { All (λ part. AreTypesOf tech.now (Y.kind part)) parts.now }
    requires defined { All (λ part. (plane : ℕ) (square : OneSquare) → Y.kind part plane square ≢ None) parts.now }
    requires proper { IsProper area }
    requires near { IsNear (widened area) }
    ensures { IfOk result (λ found. IsStrips (λ square. Covers area square
        × OffendsOn tech.now (map (λ part. set_layout tech.now (Y.kind part)) parts.now) plane square) found.items) }
{
    let around = area.widened();
    let tiles = part_tiles(alloc, tech.raw(), parts, plane, around)?;
    let pieces = bad_pieces(alloc, tech, tiles.as_slice(), plane, parts.len())?;
    let inside = cut(alloc, pieces.as_slice(), &area)?;
    let found = strips(alloc, inside.as_slice())?;
    Ok(found)
}
