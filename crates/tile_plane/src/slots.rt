//! How a tile is kept.

ghost use Rattle.std.specs.Prelude.{◌≡◌};
ghost use Rattle.geo_core.specs.Areas.{LiesWithin};
ghost use Rattle.geo_core.specs.Covering.{IsProper};
ghost use Rattle.geo_core.specs.Planes.{plane_range};
ghost use Rattle.tile_plane.specs.Slots.{tile_of};

use crate::tiles::Tile;
use geo_core::Rect;

/// A tile in 36 bytes: bounds within the range of a plane have 32 bits.
#[derive(Clone, Copy)]
pub struct Slot {
    pub xlo: i32,
    pub ylo: i32,
    pub xhi: i32,
    pub yhi: i32,
    pub above: u32,
    pub right: u32,
    pub below: u32,
    pub left: u32,
    pub value: u8,
}

impl Slot {
    pub fn new(tile: &Tile) -> Slot
        requires proper { IsProper tile.now.area }
        requires within { LiesWithin tile.now.area plane_range }
        ensures { tile_of result ≡ tile.now }
    {
        Slot {
            xlo: tile.area.xlo as i32,
            ylo: tile.area.ylo as i32,
            xhi: tile.area.xhi as i32,
            yhi: tile.area.yhi as i32,
            above: tile.above,
            right: tile.right,
            below: tile.below,
            left: tile.left,
            value: tile.value,
        }
    }

    #[inline(always)]
    pub fn tile(&self) -> Tile
        ensures { result ≡ tile_of self.now }
    {
        Tile {
            area: Rect {
                xlo: i64::from(self.xlo),
                ylo: i64::from(self.ylo),
                xhi: i64::from(self.xhi),
                yhi: i64::from(self.yhi),
            },
            value: self.value,
            above: self.above,
            right: self.right,
            below: self.below,
            left: self.left,
        }
    }
}
