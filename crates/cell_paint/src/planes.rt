//! The planes of a cell.
ghost use Rattle.std.specs.Prelude.{◌≡◌, ◌≢◌, ◌<◌, ◌≤◌, ℕ, length, All, AllPairs, OnOk, IsOkUnless, MatchOption};
ghost use Rattle.geo_core.specs.declared.squares.Square.{Square as OneSquare};
ghost use Rattle.geo_core.specs.Areas.{AreDisjoint, IsNear};
ghost use Rattle.geo_core.specs.Covering.{IsProper};
ghost use Rattle.layout_model.specs.Places.{Place};
ghost use Rattle.cell_paint.specs.Painting.{column_at};
ghost use Rattle.cell_paint.specs.Paints.{layout_on, IsPaintBox};
ghost use Rattle.cell_paint.specs.steps.Settings.{AreSettable, AreAllReady, AreAllSet};

use crate::faults::PaintFault;
use geo_core::{Piece, Plane, Rect, Square};
use std::array;
use tech_model::{MOST_PLANES, TypeId};
use tile_plane::TilePlane;

/// A plane of a cell. The kind of planes that cells have is named here alone.
pub type PaintPlane = TilePlane;

/// The type at a square of a plane, and space past the last plane.
pub fn kind_at(planes: &[PaintPlane], plane: usize, square: Square) -> TypeId
    ensures { result.0 ≡ layout_on planes.now (record { plane = plane; square = square }) }
{
    match planes.get(plane) {
        Some(plane) => TypeId(plane.at(square)),
        None => TypeId(0),
    }
}

/// The types at a square: one for each plane, and space past the last.
pub fn column_at(planes: &[PaintPlane], square: Square) -> [TypeId; MOST_PLANES]
    ensures { result ≡ column_at (layout_on planes.now) square }
{
    array::from_fn(|plane| kind_at(planes, plane, square))
}

/// Takes what setting pieces on each plane needs. No square changes.
pub fn reserve_all(planes: &mut [PaintPlane], changes: &[Vec<Piece>]) -> Result<(), PaintFault>
    requires one_each { length changes.now ≡ length planes.old }
    requires settable { AreSettable changes.now }
    ensures ready { OnOk result (AreAllReady planes.new changes.now) }
    ensures same { (place : Place) → layout_on planes.new place ≡ layout_on planes.old place }
    ensures memory { IsOkUnless result PaintFault.Memory }
{
    for index in 0..changes.len() {
        let plane = &mut planes[index];
        plane.reserve(changes[index].as_slice())?;
    }
    Ok(())
}

/// Sets the pieces that the planes are ready for.
pub fn commit_all(planes: &mut [PaintPlane], changes: &[Vec<Piece>])
    requires one_each { length changes.now ≡ length planes.old }
    requires settable { AreSettable changes.now }
    requires ready { AreAllReady planes.old changes.now }
    ensures { AreAllSet planes.old planes.new changes.now }
{
    for index in 0..changes.len() {
        let plane = &mut planes[index];
        plane.commit(changes[index].as_slice());
    }
}

/// The smallest rectangle that covers all paint of the planes, where there is some.
pub fn box_of(planes: &[PaintPlane]) -> Option<Rect>
    ensures { MatchOption result ((place : Place) → layout_on planes.now place ≡ 0) (IsPaintBox (layout_on planes.now)) }
{
    let mut found: Option<Rect> = None;
    for plane in planes {
        if let Some(area) = plane.box_of() {
            found = Some(match found {
                Some(old) => old.joined(&area),
                None => area,
            });
        }
    }
    found
}
