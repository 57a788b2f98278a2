//! The strips of the squares of a cell that hold a part.
ghost use Rattle.std.specs.Prelude.{◌≡◌, ◌≢◌, ◌<◌, length, IfOk};
ghost use Rattle.geo_core.specs.Strips.{IsStrips};
ghost use Rattle.cell_library.specs.CellPaint.Painting.{paint_range};
ghost use Rattle.cell_library.specs.CellPaint.Pieces.{AreTakenOut};
ghost use Rattle.cell_library.specs.Libraries.{seen};
ghost use Rattle.cell_library.specs.Views.{view_at};
ghost use Rattle.cif_writing.specs.Parts.{areas_with, has_part, HoldsPart};

use cell_library::Library;
use cell_paint::PAINT_RANGE;
use ext_model::CellKey;
use geo_core::{Piece, Rect};
use geo_strips::strips;
use std::alloc::{AllocError, Global};
use tech_model::{PartSet, RawTech, TypeId};

/// The tiles of the cell's own paint, each with the number of its plane. Want of memory alone refuses.
pub fn tiles_of(library: &Library, cell: CellKey) -> Result<Vec<(u8, Piece)>, AllocError>
    requires { cell.0 < length library.now.contents }
    ensures { IfOk result (λ tiles. AreTakenOut (view_at (seen library.now) cell.0).own paint_range tiles.items) }
{
    match library.paint_of(cell).take_out(PAINT_RANGE) {
        Ok(tiles) => Ok(tiles),
        Err(_) => Err(AllocError),
    }
}

// Whether the set of the tile's type has the part.
fn has_part(raw: &RawTech, part: PartSet, tile: &(u8, Piece)) -> bool
    ensures { result ≡ has_part raw.now part.0 tile.now }
{
    part.0 & raw.parts_of(TypeId(tile.1.value)).0 == part.0
}

// The areas of the tiles whose types have the part.
fn areas_with(
    alloc: Global,
    raw: &RawTech,
    part: PartSet,
    tiles: &[(u8, Piece)],
) -> Result<Vec<Rect>, AllocError>
    ensures { IfOk result (λ areas. areas.items ≡ areas_with raw.now part.0 tiles.now) }
{
    tiles
        .iter()
        .filter(|tile| has_part(raw, part, tile))
        .map(|tile| tile.1.area)
        .collect(alloc)
}

/// The strips of the squares that hold the part, where these are the tiles of the cell's own paint. Want of memory alone refuses.
pub fn part_strips(
    alloc: Global,
    library: &Library,
    cell: CellKey,
    tiles: &[(u8, Piece)],
    part: PartSet,
) -> Result<Vec<Rect>, AllocError>
    requires cell { cell.0 < length library.now.contents }
    requires tiles { AreTakenOut (view_at (seen library.now) cell.0).own paint_range tiles.now }
    requires part { part.0 ≢ 0 }
    ensures { IfOk result (λ areas. IsStrips (HoldsPart library.now.tech (view_at (seen library.now) cell.0).own part.0) areas.items) }
{
    library.sound(cell);
    let areas = areas_with(alloc, library.tech().raw(), part, tiles)?;
    strips(alloc, areas.as_slice())
}
