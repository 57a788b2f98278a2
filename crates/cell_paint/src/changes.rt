//! How the types of a plane change where a layer is painted or erased.
ghost use Rattle.std.specs.Prelude.{◌≡◌, ◌<◌, ◌≤◌, length, IfOk, IsOkUnless, All, AllPairs};
ghost use Rattle.geo_core.specs.Areas.{AreDisjoint, IsNear, corner_of};
ghost use Rattle.geo_core.specs.Covering.{IsProper};
ghost use Rattle.tech_model.specs.Columns.{brushed_column};
ghost use Rattle.cell_paint.specs.steps.Changes.{kind_after, AreKnown, changed_pieces};
ghost use Rattle.cell_paint.specs.Painting.{kinds_on, with_columns_where, is_in_some};
ghost use Rattle.cell_paint.specs.Paints.{layout_on, AreCellPlanes};
ghost use Rattle.cell_paint.specs.steps.Settings.{AreChanges};

use crate::brushes::Stroke;
use crate::faults::PaintFault;
use crate::planes::{PaintPlane, column_at};
use geo_core::{Piece, Rect};
use std::alloc::{AllocError, Global};
use tech_model::MOST_PLANES;

/// One more than the largest value of a plane.
const VALUES: usize = 256;

/// The pieces of a plane that change where the stroke goes over the areas, with what they come to have. Want of memory
/// alone refuses.
///
/// Where contacts stand whole, what comes to stand on a plane depends on what stood there alone, so each piece of one
/// type changes as its corner does.
pub fn changes_on(
    alloc: Global,
    stroke: &Stroke,
    planes: &[PaintPlane],
    plane: usize,
    areas: &[Rect],
) -> Result<Vec<Piece>, PaintFault>
    requires plane { plane < length planes.now }
    requires layer { stroke.now.layer.0 < length stroke.now.tech.now.layers }
    requires whole { AreCellPlanes stroke.now.tech.now.types planes.now }
    requires proper { All IsProper areas.now }
    requires near { All IsNear areas.now }
    requires apart { AllPairs AreDisjoint areas.now }
    ensures changes { IfOk result (λ found. AreChanges (kinds_on (layout_on planes.now) plane)
        (kinds_on (with_columns_where (brushed_column stroke.now.tech.now stroke.now.brush stroke.now.layer.0) (is_in_some areas.now) (layout_on planes.now)) plane)
        found.items) }
    ensures memory { IsOkUnless result PaintFault.Memory }
{
    // The proof takes from this call that the technology is well formed.
    let _ = stroke.tech.raw();
    let pieces = planes[plane].pieces_in(areas)?;
    let found = changed(alloc, stroke, planes, plane, pieces.as_slice())?;
    Ok(found)
}

// The pieces of a plane that change, with what they come to have.
fn changed(
    alloc: Global,
    stroke: &Stroke,
    planes: &[PaintPlane],
    plane: usize,
    pieces: &[Piece],
) -> Result<Vec<Piece>, AllocError>
    requires plane { plane < MOST_PLANES }
    requires layer { stroke.now.layer.0 < length stroke.now.tech.now.layers }
    requires whole { AreCellPlanes stroke.now.tech.now.types planes.now }
    requires even { All (λ piece. kinds_on (layout_on planes.now) plane (corner_of piece.area) ≡ piece.value) pieces.now }
    ensures { IfOk result (λ found. found.items
        ≡ changed_pieces (kind_after (brushed_column stroke.now.tech.now stroke.now.brush stroke.now.layer.0) (layout_on planes.now) plane) pieces.now) }
{
    let mut known: [Option<u8>; VALUES] = [None; VALUES];
    let mut found = Vec::new(alloc);
    for piece in pieces {
        let value = value_after(&mut known, stroke, planes, plane, piece);
        if value != piece.value {
            found.push(Piece {
                area: piece.area,
                value,
            })?;
        }
    }
    Ok(found)
}

// What a piece comes to have. It is found once for each type that the plane has.
fn value_after(
    known: &mut [Option<u8>],
    stroke: &Stroke,
    planes: &[PaintPlane],
    plane: usize,
    piece: &Piece,
) -> u8
    requires plane { plane < MOST_PLANES }
    requires layer { stroke.now.layer.0 < length stroke.now.tech.now.layers }
    requires whole { AreCellPlanes stroke.now.tech.now.types planes.now }
    requires even { kinds_on (layout_on planes.now) plane (corner_of piece.now.area) ≡ piece.now.value }
    requires long { length known.old ≡ VALUES }
    requires known { AreKnown (kinds_on (layout_on planes.now) plane)
        (kind_after (brushed_column stroke.now.tech.now stroke.now.brush stroke.now.layer.0) (layout_on planes.now) plane) known.old }
    ensures value { result ≡ kind_after (brushed_column stroke.now.tech.now stroke.now.brush stroke.now.layer.0) (layout_on planes.now) plane (corner_of piece.now.area) }
    ensures long { length known.new ≡ VALUES }
    ensures known { AreKnown (kinds_on (layout_on planes.now) plane)
        (kind_after (brushed_column stroke.now.tech.now stroke.now.brush stroke.now.layer.0) (layout_on planes.now) plane) known.new }
{
    // The proof takes from this call that the technology is well formed.
    let _ = stroke.tech.raw();
    let index = usize::from(piece.value);
    if let Some(value) = known[index] {
        return value;
    }
    let value = stroke.kind_after(plane, column_at(planes, piece.area.corner()));
    known[index] = Some(value);
    value
}
