//! The sides of a tile.
ghost use Rattle.std.specs.Prelude.{◌≡◌};
ghost use Rattle.tile_plane.specs.steps.Cuts.{opposite};
ghost use Rattle.tile_plane.specs.steps.Mends.{stitch_of};
ghost use Rattle.tile_plane.specs.steps.Sides.{along, end_of};

use crate::tiles::Tile;
use geo_core::Rect;

/// A side of a tile, at which it has a stitch.
#[derive(Clone, Copy, Debug, PartialEq, Eq)]
pub enum Side {
    Above,
    Right,
    Below,
    Left,
}

impl Side {
    #[inline(always)]
    pub fn opposite(self) -> Side
        ensures { result ≡ opposite self }
    {
        match self {
            Side::Above => Side::Below,
            Side::Right => Side::Left,
            Side::Below => Side::Above,
            Side::Left => Side::Right,
        }
    }

    /// The side to which a walk along this one goes.
    #[inline(always)]
    pub fn along(self) -> Side
        ensures { result ≡ along self }
    {
        match self {
            Side::Above => Side::Left,
            Side::Right => Side::Below,
            Side::Below => Side::Right,
            Side::Left => Side::Above,
        }
    }

    /// The stitch of a tile at this side.
    #[inline(always)]
    pub fn stitch(self, tile: &Tile) -> u32
        ensures { result ≡ stitch_of self tile.now }
    {
        match self {
            Side::Above => tile.above,
            Side::Right => tile.right,
            Side::Below => tile.below,
            Side::Left => tile.left,
        }
    }

    /// Where an area ends at this side.
    #[inline(always)]
    pub fn end(self, area: &Rect) -> i64
        ensures { result ≡ end_of self area.now }
    {
        match self {
            Side::Above => area.yhi,
            Side::Right => area.xhi,
            Side::Below => area.ylo,
            Side::Left => area.xlo,
        }
    }
}
