//! Marks: tiles at which a search may begin.
ghost use Rattle.std.specs.Prelude.{◌≡◌, ◌<◌, true, IfSome};
ghost use Rattle.tile_plane.specs.Tiles.{IsTaken};
ghost use Rattle.tile_plane.specs.declared.marks.TheConstants.{LEVELS};

use crate::stores::Store;
use geo_core::{PLANE_EDGE, Square};
use std::alloc::{AllocError, Global};

/// How many sizes of cells there are. Those of each are four times as wide and as high as those of the one before.
const LEVELS: u32 = 14;

/// A cell is 2 to this power times as wide as it is high. A search along a row passes the tiles of the row, but one that leaves the row goes
/// through a tile of space that may have very many tiles on its side.
const WIDER: u32 = 6;

/// Of so many pieces that are set one after the other one is marked.
const PIECES_FOR_A_MARK: usize = 16;

/// The fewest places that a table of marks has.
const FEWEST_PLACES: usize = 64;

/// So many places there are for each mark.
const PLACES_FOR_A_MARK: usize = 4;

/// For cells of all sizes a tile that was marked in them last. Some are forgotten, and a tile may be gone or changed since, so a mark is
/// a tile to be looked at and says nothing by itself.
#[derive(Drop)]
pub struct Marks {
    tiles: Vec<u32>,
    marked: usize,
    passed: usize,
}

impl Marks {
    pub fn new(alloc: Global) -> Marks {
        Marks {
            tiles: Vec::new(alloc),
            marked: 0,
            passed: 0,
        }
    }

    pub fn copy(&self) -> Result<Marks, AllocError> {
        let tiles = self.tiles.clone()?;
        Ok(Marks {
            tiles,
            marked: self.marked,
            passed: self.passed,
        })
    }

    /// A tile near the square: that of the smallest cell round it which has one that is still near.
    pub fn near(&self, store: &Store, square: Square) -> Option<u32>
        ensures { IfSome result (IsTaken store.now) }
    {
        for level in 0..LEVELS {
            let id = self.tiles.get(self.place(level, square)).copied();
            if let Some(id) = id {
                if is_near(store, id, level, square) {
                    return Some(id);
                }
            }
        }
        None
    }

    /// Marks a tile of the square, in the cells of all sizes round it.
    pub fn mark(&mut self, store: &Store, square: Square, id: u32) -> Result<(), AllocError> {
        self.make_room(store.len() as usize)?;
        for level in 0..LEVELS {
            let place = self.place(level, square);
            if let Some(tile) = self.tiles.get_mut(place) {
                *tile = id;
            }
        }
        Ok(())
    }

    /// Marks a tile of the square if so many were passed since the last one.
    pub fn mark_some(&mut self, store: &Store, square: Square, id: u32) -> Result<(), AllocError> {
        self.passed = self.passed.wrapping_add(1);
        if self.passed % PIECES_FOR_A_MARK == 0 {
            self.mark(store, square, id)?;
        }
        Ok(())
    }

    /// Makes the table larger where it is small for one mark more. There are no more marks than tiles that are worth one.
    fn make_room(&mut self, tiles: usize) -> Result<(), AllocError> {
        self.marked = self.marked.wrapping_add(1);
        let worth = self.marked.min(tiles);
        if self.tiles.len() / PLACES_FOR_A_MARK < worth {
            let size = self.tiles.len().saturating_mul(2).max(FEWEST_PLACES);
            self.tiles.resize(size, 0)?;
        }
        Ok(())
    }

    /// The place of the cell of a size that has the square. The number of places is a power of two.
    fn place(&self, level: u32, square: Square) -> usize
        requires { level < LEVELS }
    {
        let x = cell(square.x, 2 * level + WIDER).wrapping_mul(0x9E37_79B9_7F4A_7C15);
        let y = cell(square.y, 2 * level).wrapping_mul(0xC2B2_AE3D_27D4_EB4F);
        let mixed = x ^ y.rotate_left(32);
        let hash = (mixed ^ (mixed >> 29) ^ u64::from(level)).wrapping_mul(0xBF58_476D_1CE4_E5B9);
        (hash >> 32) as usize & self.tiles.len().wrapping_sub(1)
    }
}

/// Which of the columns or rows of 2 to this power has the coordinate.
fn cell(coordinate: i64, power: u32) -> u64
    requires { power < 64 }
{
    coordinate.wrapping_add(PLANE_EDGE).unsigned_abs() >> power
}

/// Whether the number stands for a tile that begins no further from the square than a cell of the size reaches.
fn is_near(store: &Store, id: u32, level: u32, square: Square) -> bool
    requires { level < LEVELS }
    ensures { result ≡ true → IsTaken store.now id }
{
    if !store.has_tile(id) {
        return false;
    }
    let corner = store.get(id).area.corner();
    let height = 1_u64 << (2 * level);
    let width = height << WIDER;
    corner.x.abs_diff(square.x) <= width && corner.y.abs_diff(square.y) <= height
}
