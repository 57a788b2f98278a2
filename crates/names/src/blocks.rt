//! Blocks of tiles that follow each other in a list, so that a search can pass over them.
ghost use Rattle.std.specs.Prelude.{◌≡◌, ◌<◌, ◌≤◌, IfOk, IsPermutation, length};
ghost use Rattle.names.specs.steps.Blocks.{is_like, AreBlocks, IsBlockFrom, AddsTile};

use geo_core::{PLANE_EDGE, Rect};
use layout_model::RegionTile;
use std::alloc::{AllocError, Global};
use tech_model::TypeId;

/// The tiles from some index of a list on.
#[derive(Clone, Copy, Debug, PartialEq, Eq)]
pub struct Block {
    /// The index before which they end.
    pub end: usize,
    /// A rectangle that goes round them all.
    pub area: Rect,
    /// Whether they all are of the plane and the type of the first.
    pub uniform: bool,
    pub plane: u8,
    pub kind: TypeId,
}

impl Block {
    /// Whether the block is of one plane and type, and the tile of these too.
    fn is_like(&self, tile: &RegionTile) -> bool
        ensures { result ≡ is_like self.now tile.now }
    {
        self.uniform && tile.plane == self.plane && tile.kind.0 == self.kind.0
    }

    /// The block with one more tile.
    fn with(&self, tile: &RegionTile) -> Block
        ensures { AddsTile self.now tile.now result }
    {
        Block {
            end: self.end,
            area: self.area.joined(&tile.area),
            uniform: self.is_like(tile),
            plane: self.plane,
            kind: self.kind,
        }
    }
}

/// The number with a zero before each of its 32 low bits.
fn spread(number: u64) -> u64 {
    let pairs = (number | (number << 16)) & 0x0000_ffff_0000_ffff;
    let bytes = (pairs | (pairs << 8)) & 0x00ff_00ff_00ff_00ff;
    let halves = (bytes | (bytes << 4)) & 0x0f0f_0f0f_0f0f_0f0f;
    let quarters = (halves | (halves << 2)) & 0x3333_3333_3333_3333;
    (quarters | (quarters << 1)) & 0x5555_5555_5555_5555
}

/// How far a coordinate is from the low edge of planes.
fn offset(coordinate: i64) -> u64 {
    (coordinate.clamp(-PLANE_EDGE, PLANE_EDGE) + PLANE_EDGE) as u64
}

/// The place of a rectangle's corner on a curve on which squares that are close to each other mostly stand close.
fn curve_place(area: &Rect) -> u64 {
    spread(offset(area.xlo)) | (spread(offset(area.ylo)) << 1)
}

/// The tiles by plane and type, and in each of these such that those close to each other mostly stand close.
pub fn by_kind(alloc: Global, tiles: &[RegionTile]) -> Result<Vec<RegionTile>, AllocError>
    ensures { IfOk result (λ sorted. IsPermutation tiles.now sorted.items) }
{
    let mut sorted = Vec::from_slice(alloc, tiles)?;
    sorted.sort_unstable_by_key(|tile| (tile.plane, tile.kind.0, curve_place(&tile.area)));
    Ok(sorted)
}

/// Where the block from an index on ends: a block is as long as the greatest power of two that divides the index.
fn block_end(start: usize, count: usize) -> usize
    requires { start < count }
    ensures some { start < result }
    ensures ends { result ≤ count }
{
    if start == 0 {
        return count;
    }
    let length = 1 << start.trailing_zeros().min(63);
    start + length.min(count - start)
}

/// The tiles from an index on and before another.
fn block_of(tiles: &[RegionTile], start: usize, end: usize) -> Block
    requires some { start < end }
    requires ends { end ≤ length tiles.now }
    ensures { IsBlockFrom tiles.now start result }
{
    let first = tiles[start];
    let mut block = Block {
        end,
        area: first.area,
        uniform: true,
        plane: first.plane,
        kind: first.kind,
    };
    for index in start..end {
        block = block.with(&tiles[index]);
    }
    block
}

/// The blocks from each index on. For n tiles it takes n log n steps.
pub fn blocks(alloc: Global, tiles: &[RegionTile]) -> Result<Vec<Block>, AllocError>
    ensures { IfOk result (λ blocks. AreBlocks tiles.now blocks.items) }
{
    let mut blocks = Vec::with_capacity(alloc, tiles.len())?;
    for start in 0..tiles.len() {
        let end = block_end(start, tiles.len());
        blocks.push(block_of(tiles, start, end))?;
    }
    Ok(blocks)
}
