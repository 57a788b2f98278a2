//! Walks from tile to tile along stitches.
ghost use Rattle.std.specs.Prelude.{◌≡◌, ◌↔◌, ℤ, pos, ◌-ℤ◌, ◌≤ℤ◌, ◌<ℤ◌, IsTrue, MatchOption};
ghost use Rattle.geo_core.specs.Covering.{Covers};
ghost use Rattle.geo_core.specs.Planes.{plane_range};
ghost use Rattle.tile_plane.specs.Tiles.{tile_at, IsTaken, Owns, IsPartition, HasStitches, Leads};
ghost use Rattle.tile_plane.specs.Walks.{square_at, HasRow};
ghost use Rattle.tile_plane.specs.steps.Sides.{IsLast, HasLine, IsShort, square_beside};

use crate::sides::Side;
use crate::stores::Store;
use geo_core::{PLANE_EDGE, Rect, Square};

/// The tile of the square, from any tile. It is found sooner from one that is near.
pub fn find(store: &Store, square: Square, hint: u32) -> u32
    requires partition { IsPartition store.now }
    requires stitches { HasStitches store.now }
    requires taken { IsTaken store.now hint }
    requires inside { Covers plane_range square }
    ensures { Owns store.now result square }
{
    let mut id = in_row(store, square, hint);
    'rightward: while store.get(id).area.xhi <= square.x {
        id = right_at(store, id, square.y);
    }
    'leftward: while square.x < store.get(id).area.xlo {
        id = left_at(store, id, square.y);
    }
    id
}

/// A tile that has squares in the row of the square, from any tile. The way to it keeps to the column of the square once it is there.
fn in_row(store: &Store, square: Square, hint: u32) -> u32
    requires partition { IsPartition store.now }
    requires stitches { HasStitches store.now }
    requires taken { IsTaken store.now hint }
    requires inside { Covers plane_range square }
    ensures taken { IsTaken store.now result }
    ensures from { (tile_at store.now result).area.ylo ≤ℤ square.y }
    ensures to { square.y <ℤ (tile_at store.now result).area.yhi }
{
    let mut id = hint;
    'upward: while store.get(id).area.yhi <= square.y {
        id = above_near(store, id, square.x);
    }
    'downward: while square.y < store.get(id).area.ylo {
        id = below_near(store, id, square.x);
    }
    id
}

/// The tile above a tile at x, or at its right end where x is none of its columns.
fn above_near(store: &Store, id: u32, x: i64) -> u32
    requires partition { IsPartition store.now }
    requires stitches { HasStitches store.now }
    requires taken { IsTaken store.now id }
    requires inside { (tile_at store.now id).area.yhi <ℤ plane_range.yhi }
    ensures { HasRow store.now result (tile_at store.now id).area.yhi }
{
    let tile = store.get(id);
    if tile.area.xlo <= x && x < tile.area.xhi {
        return above_at(store, id, x);
    }
    tile.above
}

/// The tile below a tile at x, or at its left end where x is none of its columns.
fn below_near(store: &Store, id: u32, x: i64) -> u32
    requires partition { IsPartition store.now }
    requires stitches { HasStitches store.now }
    requires taken { IsTaken store.now id }
    requires inside { plane_range.ylo <ℤ (tile_at store.now id).area.ylo }
    ensures { HasRow store.now result ((tile_at store.now id).area.ylo -ℤ pos 1) }
{
    let tile = store.get(id);
    if tile.area.xlo <= x && x < tile.area.xhi {
        return below_at(store, id, x);
    }
    tile.below
}

/// The tile to the right of a tile at y. Any tile where the range ends there.
pub fn right_at(store: &Store, id: u32, y: i64) -> u32
    requires partition { IsPartition store.now }
    requires stitches { HasStitches store.now }
    requires taken { IsTaken store.now id }
    requires from { (tile_at store.now id).area.ylo ≤ℤ y }
    requires to { y <ℤ (tile_at store.now id).area.yhi }
    ensures { Leads store.now result (square_at (tile_at store.now id).area.xhi y) }
{
    beside_at(store, Side::Right, id, y)
}

/// The tile to the left of a tile at y. Any tile where the range ends there.
pub fn left_at(store: &Store, id: u32, y: i64) -> u32
    requires partition { IsPartition store.now }
    requires stitches { HasStitches store.now }
    requires taken { IsTaken store.now id }
    requires from { (tile_at store.now id).area.ylo ≤ℤ y }
    requires to { y <ℤ (tile_at store.now id).area.yhi }
    ensures { Leads store.now result (square_at ((tile_at store.now id).area.xlo -ℤ pos 1) y) }
{
    beside_at(store, Side::Left, id, y)
}

/// The tile above a tile at x. Any tile where the range ends there.
pub fn above_at(store: &Store, id: u32, x: i64) -> u32
    requires partition { IsPartition store.now }
    requires stitches { HasStitches store.now }
    requires taken { IsTaken store.now id }
    requires from { (tile_at store.now id).area.xlo ≤ℤ x }
    requires to { x <ℤ (tile_at store.now id).area.xhi }
    ensures { Leads store.now result (square_at x (tile_at store.now id).area.yhi) }
{
    beside_at(store, Side::Above, id, x)
}

/// The tile below a tile at x. Any tile where the range ends there.
pub fn below_at(store: &Store, id: u32, x: i64) -> u32
    requires partition { IsPartition store.now }
    requires stitches { HasStitches store.now }
    requires taken { IsTaken store.now id }
    requires from { (tile_at store.now id).area.xlo ≤ℤ x }
    requires to { x <ℤ (tile_at store.now id).area.xhi }
    ensures { Leads store.now result (square_at x ((tile_at store.now id).area.ylo -ℤ pos 1)) }
{
    beside_at(store, Side::Below, id, x)
}

/// The tile beside a tile in a row or a column. Any tile where the range ends there. Two walks go to it, one from either end of the side, so
/// it is found soon where it is near one of them.
#[inline(always)]
fn beside_at(store: &Store, side: Side, id: u32, at: i64) -> u32
    requires partition { IsPartition store.now }
    requires stitches { HasStitches store.now }
    requires taken { IsTaken store.now id }
    requires line { HasLine side (tile_at store.now id).area at }
    ensures { Leads store.now result (square_beside side (tile_at store.now id).area at) }
{
    let tile = store.get(id);
    if is_last(side, &tile.area) {
        return id;
    }
    let square = square_beside(side, &tile.area, at);
    let mut other = stitch_or_self(store, side.along(), id);
    let mut next = side.stitch(&tile);
    'along: while is_short(side, &store.get(next).area, at) {
        let Some(step) = step_along(store, side, other, square) else {
            return other;
        };
        other = step;
        next = side.along().stitch(&store.get(next));
    }
    next
}

/// Whether the range ends at this side of an area.
#[inline(always)]
pub fn is_last(side: Side, area: &Rect) -> bool
    ensures { IsTrue result ↔ IsLast side area.now }
{
    match side {
        Side::Above => PLANE_EDGE <= area.yhi,
        Side::Right => PLANE_EDGE <= area.xhi,
        Side::Below => area.ylo <= -PLANE_EDGE,
        Side::Left => area.xlo <= -PLANE_EDGE,
    }
}

/// The square beside an area in a row or a column, where the range goes on.
#[inline(always)]
fn square_beside(side: Side, area: &Rect, at: i64) -> Square
    requires { IsLast side area.now → ⊥ }
    ensures { result ≡ square_beside side area.now at }
{
    match side {
        Side::Above => Square { x: at, y: area.yhi },
        Side::Right => Square { x: area.xhi, y: at },
        Side::Below => Square {
            x: at,
            y: area.ylo - 1,
        },
        Side::Left => Square {
            x: area.xlo - 1,
            y: at,
        },
    }
}

/// Whether a walk along the side that is at a tile of this area has not come to the row or column.
#[inline(always)]
fn is_short(side: Side, area: &Rect, at: i64) -> bool
    ensures { IsTrue result ↔ IsShort side area.now at }
{
    match side {
        Side::Above => at < area.xlo,
        Side::Right => at < area.ylo,
        Side::Below => area.xhi <= at,
        Side::Left => area.yhi <= at,
    }
}

/// The tile at this side of a tile, or the tile itself where the range ends there.
#[inline(always)]
fn stitch_or_self(store: &Store, side: Side, id: u32) -> u32
    requires partition { IsPartition store.now }
    requires stitches { HasStitches store.now }
    requires taken { IsTaken store.now id }
    ensures { IsTaken store.now result }
{
    let tile = store.get(id);
    if is_last(side, &tile.area) {
        return id;
    }
    side.stitch(&tile)
}

/// One step from a tile towards a square beside a side, first across the way along the side. None where the tile has the square.
#[inline(always)]
fn step_along(store: &Store, side: Side, id: u32, square: Square) -> Option<u32>
    requires partition { IsPartition store.now }
    requires stitches { HasStitches store.now }
    requires taken { IsTaken store.now id }
    requires inside { Covers plane_range square }
    ensures { MatchOption result (Owns store.now id square) (IsTaken store.now) }
{
    match side {
        Side::Above | Side::Below => step_to(store, id, square),
        Side::Right | Side::Left => step_across(store, id, square),
    }
}

/// One step from a tile towards a square, up or down first and then to a side. None where the tile has the square.
fn step_to(store: &Store, id: u32, square: Square) -> Option<u32>
    requires partition { IsPartition store.now }
    requires stitches { HasStitches store.now }
    requires taken { IsTaken store.now id }
    requires inside { Covers plane_range square }
    ensures { MatchOption result (Owns store.now id square) (IsTaken store.now) }
{
    let tile = store.get(id);
    if tile.area.yhi <= square.y {
        return Some(tile.above);
    }
    if square.y < tile.area.ylo {
        return Some(tile.below);
    }
    if tile.area.xhi <= square.x {
        return Some(tile.right);
    }
    if square.x < tile.area.xlo {
        return Some(tile.left);
    }
    None
}

/// One step from a tile towards a square, to a side first and then up or down. None where the tile has the square.
fn step_across(store: &Store, id: u32, square: Square) -> Option<u32>
    requires partition { IsPartition store.now }
    requires stitches { HasStitches store.now }
    requires taken { IsTaken store.now id }
    requires inside { Covers plane_range square }
    ensures { MatchOption result (Owns store.now id square) (IsTaken store.now) }
{
    let tile = store.get(id);
    if tile.area.xhi <= square.x {
        return Some(tile.right);
    }
    if square.x < tile.area.xlo {
        return Some(tile.left);
    }
    if tile.area.yhi <= square.y {
        return Some(tile.above);
    }
    if square.y < tile.area.ylo {
        return Some(tile.below);
    }
    None
}
