//! Cutting tiles in two.

ghost use Rattle.std.specs.Prelude.{◌≡◌, ℤ, ◌≤ℤ◌, ◌<ℤ◌, OnOk, OnErr, IfOk};
ghost use Rattle.geo_core.specs.Planes.{AreSame, plane_range};
ghost use Rattle.tile_plane.specs.Tiles.{tile_at, IsTaken, IsPartition, HasStitches, Leads, value_at};
ghost use Rattle.tile_plane.specs.steps.Cuts.{low_of, high_of, square_at_cut, part_at, IsCutAt, IsCutAcross, IsPartFrom, IsPartAfter};
ghost use Rattle.tile_plane.specs.Tall.{AreCut, AreCutAt, NothingElseIsCut, AreCutAlong, AreCutAlongAt, NothingElseIsCutAlong};

use crate::mends::mend_end;
use crate::sides::Side;
use crate::stores::Store;
use crate::tiles::Tile;
use crate::walks::{above_at, below_at, find, left_at, right_at};
use geo_core::{Rect, Square};
use tile_arena::ArenaFault;

/// Cuts a tile at a height, or at a column where the side is the right or the left one. The part at the side is new.
#[inline(always)]
fn split_off(store: &mut Store, side: Side, id: u32, at: i64) -> Result<u32, ArenaFault>
    requires partition { IsPartition store.old }
    requires stitches { HasStitches store.old }
    requires taken { IsTaken store.old id }
    requires from { low_of side (tile_at store.old id).area <ℤ at }
    requires to { at <ℤ high_of side (tile_at store.old id).area }
    ensures partition { OnOk result (IsPartition store.new) }
    ensures stitches { OnOk result (HasStitches store.new) }
    ensures same { OnOk result (AreSame (value_at store.old) (value_at store.new)) }
    ensures cut { IfOk result (λ part. IsCutAt side id part at store.old store.new) }
    ensures refused { OnErr result (store.new ≡ store.old) }
{
    let tile = store.get(id);
    let back = side.opposite();
    let near = beside_cut(store, side, id, at);
    let far = beside_cut(store, back, id, at);
    let part = part_at(&tile, side, at, id, near);
    let new = store.insert(part)?;
    let rest = part_at(&tile, back, at, new, far);
    store.put(id, rest);
    mend_end(store, side, &part, new);
    Ok(new)
}

/// The tile beside the part of a tile at this side, where a cut begins.
#[inline(always)]
fn beside_cut(store: &Store, side: Side, id: u32, at: i64) -> u32
    requires partition { IsPartition store.now }
    requires stitches { HasStitches store.now }
    requires taken { IsTaken store.now id }
    requires from { low_of side (tile_at store.now id).area <ℤ at }
    requires to { at <ℤ high_of side (tile_at store.now id).area }
    ensures { Leads store.now result (square_at_cut side (tile_at store.now id).area at) }
{
    match side {
        Side::Above => left_at(store, id, at),
        Side::Right => below_at(store, id, at),
        Side::Below => right_at(store, id, at - 1),
        Side::Left => above_at(store, id, at - 1),
    }
}

/// The part of a tile at this side of a cut, with these stitches across it and beside it.
#[inline(always)]
fn part_at(tile: &Tile, side: Side, at: i64, across: u32, beside: u32) -> Tile
    ensures { result ≡ part_at side at across beside tile.now }
{
    let mut part = *tile;
    match side {
        Side::Above => {
            part.area.ylo = at;
            part.below = across;
            part.left = beside;
        }
        Side::Right => {
            part.area.xlo = at;
            part.left = across;
            part.below = beside;
        }
        Side::Below => {
            part.area.yhi = at;
            part.above = across;
            part.right = beside;
        }
        Side::Left => {
            part.area.xhi = at;
            part.right = across;
            part.above = beside;
        }
    }
    part
}

/// Cuts a tile at the height y. The result is the numbers of the lower and of the upper part. The one that is not as high is new, so a
/// stitch that is mended leads to a tile at most half as high as before.
pub fn cut_in_two(store: &mut Store, id: u32, y: i64) -> Result<(u32, u32), ArenaFault>
    requires partition { IsPartition store.old }
    requires stitches { HasStitches store.old }
    requires taken { IsTaken store.old id }
    requires from { (tile_at store.old id).area.ylo <ℤ y }
    requires to { y <ℤ (tile_at store.old id).area.yhi }
    ensures partition { OnOk result (IsPartition store.new) }
    ensures stitches { OnOk result (HasStitches store.new) }
    ensures same { OnOk result (AreSame (value_at store.old) (value_at store.new)) }
    ensures cut { IfOk result (λ parts. IsCutAcross id parts.0 parts.1 y store.old store.new) }
{
    let area = store.get(id).area;
    let below = y - area.ylo;
    let above = area.yhi - y;
    if below < above {
        let lower = split_off(store, Side::Below, id, y)?;
        return Ok((lower, id));
    }
    let upper = split_off(store, Side::Above, id, y)?;
    Ok((id, upper))
}

/// The part of a tile from y on, cut out of it where it begins below.
pub fn part_from(store: &mut Store, id: u32, y: i64) -> Result<u32, ArenaFault>
    requires partition { IsPartition store.old }
    requires stitches { HasStitches store.old }
    requires taken { IsTaken store.old id }
    requires from { (tile_at store.old id).area.ylo ≤ℤ y }
    requires to { y <ℤ (tile_at store.old id).area.yhi }
    ensures partition { OnOk result (IsPartition store.new) }
    ensures stitches { OnOk result (HasStitches store.new) }
    ensures same { OnOk result (AreSame (value_at store.old) (value_at store.new)) }
    ensures part { IfOk result (λ part. IsPartFrom id part y store.old store.new) }
{
    if store.get(id).area.ylo < y {
        let parts = cut_in_two(store, id, y)?;
        return Ok(parts.1);
    }
    Ok(id)
}

/// The part of a tile from x on, cut out of it where it begins before. Of the two parts the narrower one is new, so a stitch that is
/// mended leads to a tile at most half as wide as before.
pub fn part_after(store: &mut Store, id: u32, x: i64) -> Result<u32, ArenaFault>
    requires partition { IsPartition store.old }
    requires stitches { HasStitches store.old }
    requires taken { IsTaken store.old id }
    requires from { (tile_at store.old id).area.xlo ≤ℤ x }
    requires to { x <ℤ (tile_at store.old id).area.xhi }
    ensures partition { OnOk result (IsPartition store.new) }
    ensures stitches { OnOk result (HasStitches store.new) }
    ensures same { OnOk result (AreSame (value_at store.old) (value_at store.new)) }
    ensures part { IfOk result (λ part. IsPartAfter id part x store.old store.new) }
{
    let area = store.get(id).area;
    if x <= area.xlo {
        return Ok(id);
    }
    let left = x - area.xlo;
    let right = area.xhi - x;
    if left < right {
        let _left = split_off(store, Side::Left, id, x)?;
        return Ok(id);
    }
    let part = split_off(store, Side::Right, id, x)?;
    Ok(part)
}

/// Cuts the tiles that have squares on both sides of the height y and in the columns of the area.
/// The result is the last of those that begin there.
pub fn cut_across(store: &mut Store, area: &Rect, y: i64, hint: u32) -> Result<u32, ArenaFault>
    requires partition { IsPartition store.old }
    requires stitches { HasStitches store.old }
    requires taken { IsTaken store.old hint }
    requires wide { area.now.xlo <ℤ area.now.xhi }
    requires left { plane_range.xlo ≤ℤ area.now.xlo }
    requires right { area.now.xhi ≤ℤ plane_range.xhi }
    requires low { plane_range.ylo ≤ℤ y }
    requires high { y <ℤ plane_range.yhi }
    ensures partition { OnOk result (IsPartition store.new) }
    ensures stitches { OnOk result (HasStitches store.new) }
    ensures taken { IfOk result (IsTaken store.new) }
    ensures same { OnOk result (AreSame (value_at store.old) (value_at store.new)) }
    ensures cut { OnOk result (AreCut store.old store.new) }
    ensures at { OnOk result (AreCutAt store.new y area.now.xlo area.now.xhi) }
    ensures nothing_else { OnOk result (NothingElseIsCut area.now y store.old store.new) }
{
    let mut x = area.xlo;
    let mut id = find(store, Square { x, y }, hint);
    'row: while x < area.xhi {
        id = part_from(store, id, y)?;
        x = store.get(id).area.xhi;
        if x < area.xhi {
            id = right_at(store, id, y);
        }
    }
    Ok(id)
}

/// Cuts the tiles that have squares on both sides of x and in the rows of the area.
/// The result is the last of those that begin there.
pub fn cut_along(store: &mut Store, area: &Rect, x: i64, hint: u32) -> Result<u32, ArenaFault>
    requires partition { IsPartition store.old }
    requires stitches { HasStitches store.old }
    requires taken { IsTaken store.old hint }
    requires high { area.now.ylo <ℤ area.now.yhi }
    requires low { plane_range.ylo ≤ℤ area.now.ylo }
    requires top { area.now.yhi ≤ℤ plane_range.yhi }
    requires left { plane_range.xlo ≤ℤ x }
    requires right { x <ℤ plane_range.xhi }
    ensures partition { OnOk result (IsPartition store.new) }
    ensures stitches { OnOk result (HasStitches store.new) }
    ensures taken { IfOk result (IsTaken store.new) }
    ensures same { OnOk result (AreSame (value_at store.old) (value_at store.new)) }
    ensures cut { OnOk result (AreCutAlong store.old store.new) }
    ensures at { OnOk result (AreCutAlongAt store.new x area.now.ylo area.now.yhi) }
    ensures nothing_else { OnOk result (NothingElseIsCutAlong area.now x store.old store.new) }
{
    let mut y = area.ylo;
    let mut id = find(store, Square { x, y }, hint);
    'column: while y < area.yhi {
        id = part_after(store, id, x)?;
        y = store.get(id).area.yhi;
        if y < area.yhi {
            id = above_at(store, id, x);
        }
    }
    Ok(id)
}
