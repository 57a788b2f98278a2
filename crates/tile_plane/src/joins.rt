//! Joining two tiles into one.

ghost use Rattle.std.specs.Prelude.{◌≡◌, true, false, ℤ, pos, ◌+ℤ◌, ◌-ℤ◌, ◌≤ℤ◌, ◌<ℤ◌};
ghost use Rattle.geo_core.specs.declared.squares.Square.{Square as OneSquare};
ghost use Rattle.geo_core.specs.Planes.{AreSame, plane_range};
ghost use Rattle.tile_plane.specs.Tiles.{tile_at, IsTaken, Owns, IsPartition, HasStitches, value_at};
ghost use Rattle.tile_plane.specs.Walks.{square_at};
ghost use Rattle.tile_plane.specs.steps.Cuts.{IsJoined, IsJoinedUp, IsJoinedRight};
ghost use Rattle.tile_plane.specs.steps.Sides.{IsUpward, StandsAt};
ghost use Rattle.tile_plane.specs.Tall.{IsTallAt, AreGrown, AreJoining};

use crate::mends::mend_end;
use crate::sides::Side;
use crate::stores::Store;
use crate::tiles::Tile;
use crate::walks::{above_at, find};
use geo_core::{Rect, Square};

/// Joins a tile with the one upon it, of the same columns. It keeps the number of the lower one.
pub fn join_up(store: &mut Store, lower: u32, upper: u32)
    requires partition { IsPartition store.old }
    requires stitches { HasStitches store.old }
    requires taken { IsTaken store.old lower }
    requires other_taken { IsTaken store.old upper }
    requires meet { (tile_at store.old upper).area.ylo ≡ (tile_at store.old lower).area.yhi }
    requires low { (tile_at store.old upper).area.xlo ≡ (tile_at store.old lower).area.xlo }
    requires high { (tile_at store.old upper).area.xhi ≡ (tile_at store.old lower).area.xhi }
    requires value { (tile_at store.old upper).value ≡ (tile_at store.old lower).value }
    ensures partition { IsPartition store.new }
    ensures stitches { HasStitches store.new }
    ensures same { AreSame (value_at store.old) (value_at store.new) }
    ensures joined { IsJoinedUp lower upper store.old store.new }
{
    join_at(store, Side::Above, lower, upper);
}

/// Joins a tile with the one to its right, of the same rows. It keeps the number of the left one.
pub fn join_right(store: &mut Store, left: u32, right: u32)
    requires partition { IsPartition store.old }
    requires stitches { HasStitches store.old }
    requires taken { IsTaken store.old left }
    requires other_taken { IsTaken store.old right }
    requires meet { (tile_at store.old right).area.xlo ≡ (tile_at store.old left).area.xhi }
    requires low { (tile_at store.old right).area.ylo ≡ (tile_at store.old left).area.ylo }
    requires high { (tile_at store.old right).area.yhi ≡ (tile_at store.old left).area.yhi }
    requires value { (tile_at store.old right).value ≡ (tile_at store.old left).value }
    ensures partition { IsPartition store.new }
    ensures stitches { HasStitches store.new }
    ensures same { AreSame (value_at store.old) (value_at store.new) }
    ensures joined { IsJoinedRight left right store.old store.new }
{
    join_at(store, Side::Right, left, right);
}

/// Joins a tile with the one beside its upper or its right side, which goes all along it. It keeps its number.
#[inline(always)]
fn join_at(store: &mut Store, side: Side, id: u32, other: u32)
    requires partition { IsPartition store.old }
    requires stitches { HasStitches store.old }
    requires upward { IsUpward side }
    requires stands { StandsAt side store.old id other }
    requires value { (tile_at store.old other).value ≡ (tile_at store.old id).value }
    ensures partition { IsPartition store.new }
    ensures stitches { HasStitches store.new }
    ensures same { AreSame (value_at store.old) (value_at store.new) }
    ensures joined { IsJoined side id other store.old store.new }
{
    let tile = store.get(id);
    let part = store.get(other);
    let whole = whole_of(&tile, &part);
    store.put(id, whole);
    store.remove(other);
    mend_end(store, side, &part, id);
}

/// The tile that goes round both, of which the second is the upper or the right one.
fn whole_of(tile: &Tile, part: &Tile) -> Tile
    ensures { result ≡ record tile.now {
      area = record tile.now.area { xhi = part.now.area.xhi; yhi = part.now.area.yhi };
      above = part.now.above;
      right = part.now.right;
    } }
{
    Tile {
        area: Rect {
            xhi: part.area.xhi,
            yhi: part.area.yhi,
            ..tile.area
        },
        above: part.above,
        right: part.right,
        ..*tile
    }
}

/// Whether the two have one value and the same columns.
fn may_join(lower: &Tile, upper: &Tile) -> bool
    ensures yes { result ≡ true → (lower.now.area.xlo ≡ upper.now.area.xlo) × (lower.now.area.xhi ≡ upper.now.area.xhi) × (lower.now.value ≡ upper.now.value) }
    ensures no { result ≡ false → lower.now.area.xlo ≡ upper.now.area.xlo → lower.now.area.xhi ≡ upper.now.area.xhi → lower.now.value ≡ upper.now.value → ⊥ }
{
    lower.value == upper.value
        && lower.area.xlo == upper.area.xlo
        && lower.area.xhi == upper.area.xhi
}

/// Joins the tiles of a column that meet at a height from `ylo` to `yhi` where they can be. The result is the tile of the column that
/// has squares just below `yhi`.
///
/// The tiles just below and just above may be as wide as the plane. Which of them has the columns of one in between is told by a
/// stitch of that one, so no walk goes along them.
pub fn join_column(store: &mut Store, x: i64, ylo: i64, yhi: i64, hint: u32) -> u32
    requires partition { IsPartition store.old }
    requires stitches { HasStitches store.old }
    requires taken { IsTaken store.old hint }
    requires left { plane_range.xlo ≤ℤ x }
    requires right { x <ℤ plane_range.xhi }
    requires low { plane_range.ylo <ℤ ylo }
    requires in_order { ylo ≤ℤ yhi }
    requires high { yhi <ℤ plane_range.yhi }
    ensures partition { IsPartition store.new }
    ensures stitches { HasStitches store.new }
    ensures taken { IsTaken store.new result }
    ensures same { AreSame (value_at store.old) (value_at store.new) }
    ensures grown { AreGrown store.old store.new }
    ensures tall { (y : ℤ) → ylo ≤ℤ (y +ℤ pos 1) → y <ℤ yhi → IsTallAt store.new x y }
{
    let first = find(store, Square { x, y: ylo }, hint);
    let mut id = join_below(store, first, ylo);
    'column: while store.get(id).area.yhi < yhi {
        let next = above_at(store, id, x);
        let lower = store.get(id);
        let upper = store.get(next);
        if may_join(&lower, &upper) {
            join_up(store, id, next);
        } else {
            id = next;
        }
    }
    join_above(store, id, yhi);
    id
}

/// Joins a tile with the one under it, if it begins at a height and they can be joined. The result is the number that it has then.
fn join_below(store: &mut Store, id: u32, y: i64) -> u32
    requires partition { IsPartition store.old }
    requires stitches { HasStitches store.old }
    requires taken { IsTaken store.old id }
    requires from { (tile_at store.old id).area.ylo ≤ℤ y }
    requires to { y <ℤ (tile_at store.old id).area.yhi }
    requires inside { plane_range.ylo <ℤ y }
    ensures joining { AreJoining store.old store.new }
    ensures goes { (square : OneSquare) → Owns store.old id square → Owns store.new result square }
    ensures tall { (x : ℤ) → Owns store.old id (square_at x y) → IsTallAt store.new x (y -ℤ pos 1) }
{
    let upper = store.get(id);
    if upper.area.ylo < y {
        return id;
    }
    let under = upper.below;
    let lower = store.get(under);
    if may_join(&lower, &upper) {
        join_up(store, under, id);
        return under;
    }
    id
}

/// Joins a tile with the one upon it, if it ends at a height and they can be joined.
fn join_above(store: &mut Store, id: u32, y: i64)
    requires partition { IsPartition store.old }
    requires stitches { HasStitches store.old }
    requires taken { IsTaken store.old id }
    requires reach { y ≤ℤ (tile_at store.old id).area.yhi }
    requires inside { y <ℤ plane_range.yhi }
    ensures joining { AreJoining store.old store.new }
    ensures taken { IsTaken store.new id }
    ensures tall { (tile_at store.old id).area.yhi ≡ y → (x : ℤ) → Owns store.old id (square_at x (y -ℤ pos 1)) → IsTallAt store.new x (y -ℤ pos 1) }
{
    let lower = store.get(id);
    if y < lower.area.yhi {
        return;
    }
    let upon = lower.above;
    let upper = store.get(upon);
    if may_join(&lower, &upper) {
        join_up(store, id, upon);
    }
}
