//! Stitches that lead to squares of an area, from the tiles around it.
ghost use Rattle.std.specs.Prelude.{◌↔◌, IsTrue};
ghost use Rattle.tile_plane.specs.Tiles.{tile_at, IsTaken, IsPartition, IsPut};
ghost use Rattle.tile_plane.specs.steps.Cuts.{opposite};
ghost use Rattle.tile_plane.specs.steps.Mends.{with_stitch, LeadTo, AreRedirected, IsSideOf, IsEnd};
ghost use Rattle.tile_plane.specs.steps.Sides.{along, end_of, ComesBefore};

use crate::sides::Side;
use crate::stores::Store;
use crate::tiles::Tile;
use crate::walks::is_last;
use geo_core::Rect;

/// Leads all stitches into the end of a tile at this side to that tile. The end is given as a tile of its own.
#[inline(always)]
pub fn mend_end(store: &mut Store, side: Side, end: &Tile, id: u32)
    requires partition { IsPartition store.old }
    requires end { IsEnd side store.old end.now id }
    ensures { AreRedirected end.now.area id store.old store.new }
{
    let near = side.along();
    let far = near.opposite();
    mend_side(store, side, &end.area, side.stitch(end), id);
    mend_side(store, near, &end.area, near.stitch(end), id);
    mend_side(store, far, &end.area, far.stitch(end), id);
}

/// Leads the stitches of the tiles at this side of an area to a tile. The first of them is the one at which a walk along the side begins.
#[inline(always)]
fn mend_side(store: &mut Store, side: Side, area: &Rect, first: u32, id: u32)
    requires partition { IsPartition store.old }
    requires side { IsSideOf side store.old area.now first id }
    ensures { LeadTo (opposite side) area.now id store.old store.new }
{
    if is_last(side, area) {
        return;
    }
    let mut next = first;
    let mut at = side.along().opposite().end(area);
    'along: while is_on(side, area, at) {
        let tile = store.get(next);
        if goes_past(side, area, &tile.area) {
            return;
        }
        set_stitch(store, side.opposite(), next, id);
        next = side.along().stitch(&tile);
        at = side.along().end(&tile.area);
    }
}

/// Whether a walk along this side of an area has not come to its end.
#[inline(always)]
fn is_on(side: Side, area: &Rect, at: i64) -> bool
    ensures { IsTrue result ↔ ComesBefore side at (end_of (along side) area.now) }
{
    match side {
        Side::Above => area.xlo < at,
        Side::Right => area.ylo < at,
        Side::Below => at < area.xhi,
        Side::Left => at < area.yhi,
    }
}

/// Whether another area goes past the end of a walk along this side of an area.
#[inline(always)]
fn goes_past(side: Side, area: &Rect, other: &Rect) -> bool
    ensures { IsTrue result ↔ ComesBefore side (end_of (along side) area.now) (end_of (along side) other.now) }
{
    match side {
        Side::Above => other.xlo < area.xlo,
        Side::Right => other.ylo < area.ylo,
        Side::Below => area.xhi < other.xhi,
        Side::Left => area.yhi < other.yhi,
    }
}

#[inline(always)]
fn set_stitch(store: &mut Store, side: Side, id: u32, stitch: u32)
    requires { IsTaken store.old id }
    ensures { IsPut id (with_stitch side (tile_at store.old id) stitch) store.old store.new }
{
    match side {
        Side::Above => store.set_above(id, stitch),
        Side::Right => store.set_right(id, stitch),
        Side::Below => store.set_below(id, stitch),
        Side::Left => store.set_left(id, stitch),
    }
}
