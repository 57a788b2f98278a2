//! Paint that is taken out of an area, and paint that is put back into one.
ghost use Rattle.std.specs.Prelude.{◌≡◌, ◌≤◌, ◌∷◌, ◌++◌, [], length, vec_len, map, IfOk, IsOkUnless, OnErr, OnOk};
ghost use Rattle.geo_core.specs.Areas.{IsNear};
ghost use Rattle.geo_core.specs.Covering.{IsProper};
ghost use Rattle.tile_plane.specs.Listings.{ArePiecesIn};
ghost use Rattle.layout_model.specs.Layouts.{Layout};
ghost use Rattle.layout_model.specs.Places.{Place};
ghost use Rattle.cell_paint.specs.Painting.{kinds_on};
ghost use Rattle.cell_paint.specs.Paints.{layout_on};
ghost use Rattle.cell_paint.specs.Pieces.{kind_by, pieces_on, with_pieces, AreTakenOut, CanStandIn};
ghost use Rattle.cell_paint.specs.steps.Settings.{AreAllChanges, IsSettable};

use crate::faults::PaintFault;
use crate::planes::{PaintPlane, commit_all, reserve_all};
use geo_core::{Piece, Plane, Rect};
use std::alloc::{AllocError, Global};
use tech_model::MOST_PLANES;

/// The tiles of each plane in the area with the number of their plane, plane after plane. Want of memory alone refuses.
pub fn tiles_of_all(
    alloc: Global,
    planes: &[PaintPlane],
    area: Rect,
) -> Result<Vec<(u8, Piece)>, PaintFault>
    requires few { length planes.now ≤ MOST_PLANES }
    requires proper { IsProper area }
    requires near { IsNear area }
    ensures taken { IfOk result (λ taken. AreTakenOut (layout_on planes.now) area taken.items) }
    ensures memory { IsOkUnless result PaintFault.Memory }
{
    let mut taken = Vec::new(alloc);
    for plane in 0..planes.len() {
        let tiles = planes[plane].tiles_in(area)?;
        add_numbered(&mut taken, plane as u8, tiles.as_slice())?;
    }
    Ok(taken)
}

// Adds the tiles of a plane with its number.
fn add_numbered(taken: &mut Vec<(u8, Piece)>, plane: u8, tiles: &[Piece]) -> Result<(), AllocError>
    ensures { OnOk result (taken.new.items ≡ taken.old.items ++ map (λ tile. (plane, tile)) tiles.now) }
{
    for tile in tiles {
        taken.push((plane, *tile))?;
    }
    Ok(())
}

/// Puts the pieces in the area, and space between them. It takes its memory first. Want of memory alone refuses, and then no square
/// changes.
pub fn put_back_on(
    alloc: Global,
    planes: &mut [PaintPlane],
    area: Rect,
    pieces: &[(u8, Piece)],
) -> Result<(), PaintFault>
    requires few { length planes.old ≤ MOST_PLANES }
    requires proper { IsProper area }
    requires near { IsNear area }
    requires pieces { CanStandIn area (length planes.old) pieces.now }
    ensures put { OnOk result ((place : Place) → layout_on planes.new place ≡ with_pieces area pieces.now (layout_on planes.old) place) }
    ensures refused { OnErr result ((place : Place) → layout_on planes.new place ≡ layout_on planes.old place) }
    ensures so_many { length planes.new ≡ length planes.old }
    ensures memory { IsOkUnless result PaintFault.Memory }
{
    let count = planes.len() as u8;
    let changes = all_restored(alloc, count, area, pieces)?;
    reserve_all(planes, changes.as_slice())?;
    commit_all(planes, changes.as_slice());
    Ok(())
}

// For each of so many planes what comes to stand in the area: pieces of one type each, space too.
fn all_restored(
    alloc: Global,
    count: u8,
    area: Rect,
    pieces: &[(u8, Piece)],
) -> Result<Vec<Vec<Piece>>, PaintFault>
    requires proper { IsProper area }
    requires near { IsNear area }
    requires pieces { CanStandIn area count pieces.now }
    ensures one_each { IfOk result (λ changes. vec_len changes ≡ count) }
    ensures changes { IfOk result (λ changes. (layout : Layout) → AreAllChanges layout (with_pieces area pieces.now layout) changes.items) }
    ensures memory { IsOkUnless result PaintFault.Memory }
{
    let mut changes = Vec::with_capacity(alloc, usize::from(count))?;
    for plane in 0..count {
        add_restored(&mut changes, restored(alloc, plane, area, pieces)?)?;
    }
    Ok(changes)
}

// Adds what comes to stand on the next plane.
fn add_restored(changes: &mut Vec<Vec<Piece>>, more: Vec<Piece>) -> Result<(), AllocError>
    ensures { OnOk result (changes.new.items ≡ changes.old.items ++ more ∷ []) }
{
    changes.push(more)?;
    Ok(())
}

// What comes to stand in the area on a plane: pieces of one type each, space too. They are listed of a plane that has nothing else.
fn restored(
    alloc: Global,
    plane: u8,
    area: Rect,
    pieces: &[(u8, Piece)],
) -> Result<Vec<Piece>, PaintFault>
    requires proper { IsProper area }
    requires near { IsNear area }
    requires settable { IsSettable (pieces_on pieces.now plane) }
    ensures pieces { IfOk result (λ found. ArePiecesIn (kinds_on (kind_by pieces.now) plane) (area ∷ []) found.items) }
    ensures memory { IsOkUnless result PaintFault.Memory }
{
    let here = pieces_on(alloc, pieces, plane)?;
    let mut scratch = PaintPlane::new(alloc)?;
    scratch.reserve(here.as_slice())?;
    scratch.commit(here.as_slice());
    let found = scratch.pieces_in(&[area])?;
    Ok(found)
}

// The pieces of a plane.
fn pieces_on(alloc: Global, pieces: &[(u8, Piece)], plane: u8) -> Result<Vec<Piece>, AllocError>
    ensures { IfOk result (λ found. found.items ≡ pieces_on pieces.now plane) }
{
    pieces
        .iter()
        .filter(|entry| entry.0 == plane)
        .map(|entry| entry.1)
        .collect(alloc)
}
