//! Lists of tiles.
ghost use Rattle.std.specs.Prelude.{◌≡◌, ◌≢◌, pos, ◌-ℤ◌, ◌≤ℤ◌, ◌<ℤ◌, All, AllPairs, IfOk, OnOk, IfSome, MatchOption};
ghost use Rattle.geo_core.specs.FiniteSets.Lists.{Lists};
ghost use Rattle.geo_core.specs.declared.squares.Square.{Square as OneSquare};
ghost use Rattle.geo_core.specs.Areas.{corner_of, AreDisjoint, IsNear};
ghost use Rattle.geo_core.specs.Covering.{IsProper};
ghost use Rattle.geo_core.specs.Planes.{HasValue, AreTilesIn, IsBox, plane_range};
ghost use Rattle.geo_core.specs.Strips.{IsStrips};
ghost use Rattle.tile_plane.specs.Contents.{IsPlane};
ghost use Rattle.tile_plane.specs.Listings.{Meets, IsOnSide, IsFollower, AddsAll, AddsParts, ArePiecesIn, part_in};
ghost use Rattle.tile_plane.specs.Walks.{square_at};
ghost use Rattle.tile_plane.specs.Tiles.{tile_at, value_at, IsTaken, Owns, IsPartition, HasStitches};

use crate::stores::Store;
use crate::walks::find;
use geo_core::{Piece, Rect, Square};
use std::alloc::{AllocError, Global};

/// The parts in the area of all tiles of values other than 0 that meet it, in the order of strips.
pub fn tiles_in(
    alloc: Global,
    store: &Store,
    area: &Rect,
    hint: u32,
) -> Result<Vec<Piece>, AllocError>
    requires plane { IsPlane store.now }
    requires taken { IsTaken store.now hint }
    requires near { IsNear area.now }
    requires proper { IsProper area.now }
    ensures { IfOk result (λ tiles. AreTilesIn (value_at store.now) area.now tiles.items) }
{
    let first = find(store, area.corner(), hint);
    let mut parts = Vec::new(alloc);
    let mut hints = Vec::new(alloc);
    push_parts(alloc, &mut parts, &mut hints, store, area, first)?;
    parts.retain(|part| part.value != 0);
    parts.sort_unstable_by_key(|part| (part.area.ylo, part.area.xlo));
    Ok(parts)
}

/// The parts of all tiles in each of the areas, those of value 0 too. The tiles of an area are sought from those of the one before.
pub fn pieces_in(
    alloc: Global,
    store: &Store,
    areas: &[Rect],
    hint: u32,
) -> Result<Vec<Piece>, AllocError>
    requires plane { IsPlane store.now }
    requires taken { IsTaken store.now hint }
    requires proper { All IsProper areas.now }
    requires near { All IsNear areas.now }
    requires apart { AllPairs AreDisjoint areas.now }
    ensures { IfOk result (λ pieces. ArePiecesIn (value_at store.now) areas.now pieces.items) }
{
    let mut pieces = Vec::new(alloc);
    let mut hints = Vec::new(alloc);
    let mut first = hint;
    for area in areas {
        first = find(store, area.corner(), first);
        push_parts(alloc, &mut pieces, &mut hints, store, area, first)?;
    }
    Ok(pieces)
}

/// The areas of the tiles of a value other than 0, in the order of strips.
pub fn strips(alloc: Global, store: &Store, value: u8) -> Result<Vec<Rect>, AllocError>
    requires plane { IsPlane store.now }
    requires material { value ≢ 0 }
    ensures strips { IfOk result (λ strips. IsStrips (HasValue (value_at store.now) value) strips.items) }
    ensures near { IfOk result (λ strips. All IsNear strips.items) }
{
    let mut found = Vec::new(alloc);
    let mut last = None;
    while let Some(id) = store.next_tile(last) {
        let tile = store.get(id);
        if tile.value == value {
            found.push(tile.area)?;
        }
        last = Some(id);
    }
    found.sort_unstable_by_key(|area| (area.ylo, area.xlo));
    Ok(found)
}

/// The smallest rectangle round all tiles of values other than 0.
pub fn box_of(store: &Store) -> Option<Rect>
    requires { IsPlane store.now }
    ensures smallest { MatchOption result ((square : OneSquare) → value_at store.now square ≡ 0) (IsBox (value_at store.now)) }
    ensures near { IfSome result IsNear }
{
    let mut found: Option<Rect> = None;
    let mut last = None;
    while let Some(id) = store.next_tile(last) {
        let tile = store.get(id);
        if tile.value != 0 {
            found = Some(match found {
                Some(old) => old.joined(&tile.area),
                None => tile.area,
            });
        }
        last = Some(id);
    }
    found
}

/// The tiles that meet the area, each once. The first is that of the area's corner. They are found sooner from a list of tiles near them.
fn tiles_meeting(
    alloc: Global,
    store: &Store,
    area: &Rect,
    first: u32,
    hints: &[u32],
) -> Result<Vec<u32>, AllocError>
    requires partition { IsPartition store.now }
    requires stitches { HasStitches store.now }
    requires near { IsNear area.now }
    requires proper { IsProper area.now }
    requires first { Owns store.now first (corner_of area.now) }
    requires hints { All (IsTaken store.now) hints.now }
    ensures { IfOk result (λ found. Lists (Meets store.now area.now) found.items) }
{
    let mut found = left_side(alloc, store, area, first, hints)?;
    let mut index = 0;
    while index < found.len() {
        let id = found[index];
        push_followers(&mut found, store, area, id, hints)?;
        index += 1;
    }
    Ok(found)
}

/// The tiles that have squares of the first column of the area, from below. The first is that of the area's corner. Each other is sought
/// from the tile that has its place among the hints.
fn left_side(
    alloc: Global,
    store: &Store,
    area: &Rect,
    first: u32,
    hints: &[u32],
) -> Result<Vec<u32>, AllocError>
    requires partition { IsPartition store.now }
    requires stitches { HasStitches store.now }
    requires near { IsNear area.now }
    requires proper { IsProper area.now }
    requires first { Owns store.now first (corner_of area.now) }
    requires hints { All (IsTaken store.now) hints.now }
    ensures { IfOk result (λ side. Lists (IsOnSide store.now area.now) side.items) }
{
    let mut side = Vec::new(alloc);
    let mut id = first;
    side.push(id)?;
    'upward: while store.get(id).area.yhi < area.yhi {
        let square = Square {
            x: area.xlo,
            y: store.get(id).area.yhi,
        };
        let hint = hints.get(side.len()).copied().unwrap_or(id);
        id = find(store, square, hint);
        side.push(id)?;
    }
    Ok(side)
}

/// Adds the tiles that follow this one, from above. The first is sought from the tile that has its place among the hints, since this one may
/// be as high as the plane.
fn push_followers(
    found: &mut Vec<u32>,
    store: &Store,
    area: &Rect,
    id: u32,
    hints: &[u32],
) -> Result<(), AllocError>
    requires partition { IsPartition store.now }
    requires stitches { HasStitches store.now }
    requires near { IsNear area.now }
    requires meets { Meets store.now area.now id }
    requires hints { All (IsTaken store.now) hints.now }
    ensures { OnOk result (AddsAll (IsFollower store.now area.now id) found.old.items found.new.items) }
{
    let tile = store.get(id);
    if area.xhi <= tile.area.xhi {
        return Ok(());
    }
    let low = tile.area.ylo.max(area.ylo);
    let top = tile.area.yhi.min(area.yhi);
    let hint = hints.get(found.len()).copied().unwrap_or(id);
    let mut next = right_below(store, id, top, hint);
    let mut y = top;
    while low < y {
        let follower = store.get(next);
        y = follower.area.ylo.max(area.ylo);
        if low <= y && y < area.yhi {
            found.push(next)?;
        }
        next = follower.below;
    }
    Ok(())
}

/// The tile to the right of a tile in the row below y. It is sought from the hint, unless a stitch leads there.
fn right_below(store: &Store, id: u32, y: i64, hint: u32) -> u32
    requires partition { IsPartition store.now }
    requires stitches { HasStitches store.now }
    requires taken { IsTaken store.now id }
    requires hint { IsTaken store.now hint }
    requires inside { (tile_at store.now id).area.xhi <ℤ plane_range.xhi }
    requires from { (tile_at store.now id).area.ylo <ℤ y }
    requires to { y ≤ℤ (tile_at store.now id).area.yhi }
    ensures { Owns store.now result (square_at (tile_at store.now id).area.xhi (y -ℤ pos 1)) }
{
    let tile = store.get(id);
    if tile.area.yhi <= y {
        return tile.right;
    }
    let square = Square {
        x: tile.area.xhi,
        y: y - 1,
    };
    find(store, square, hint)
}

/// Adds the parts in the area of all tiles that meet it. These become the hints. Where one tile has all of the area, no list of tiles is
/// made.
fn push_parts(
    alloc: Global,
    parts: &mut Vec<Piece>,
    hints: &mut Vec<u32>,
    store: &Store,
    area: &Rect,
    first: u32,
) -> Result<(), AllocError>
    requires partition { IsPartition store.now }
    requires stitches { HasStitches store.now }
    requires near { IsNear area.now }
    requires proper { IsProper area.now }
    requires first { Owns store.now first (corner_of area.now) }
    requires hints { All (IsTaken store.now) hints.old.items }
    ensures parts { OnOk result (AddsParts store.now area.now parts.old.items parts.new.items) }
    ensures hints { OnOk result (All (IsTaken store.now) hints.new.items) }
{
    let corner = store.get(first).area;
    if area.xhi <= corner.xhi && area.yhi <= corner.yhi {
        parts.push(part_in(store, area, first))?;
        return Ok(());
    }
    let ids = tiles_meeting(alloc, store, area, first, hints.as_slice())?;
    for id in &ids {
        parts.push(part_in(store, area, *id))?;
    }
    *hints = ids;
    Ok(())
}

/// What a tile has of an area.
fn part_in(store: &Store, area: &Rect, id: u32) -> Piece
    requires { IsTaken store.now id }
    ensures { result ≡ part_in store.now area.now id }
{
    let tile = store.get(id);
    Piece {
        area: tile.area.common(area),
        value: tile.value,
    }
}
