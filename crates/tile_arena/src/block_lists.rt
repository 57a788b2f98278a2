//! Lists whose items lie in blocks, so that none moves while the list grows.
ghost use Rattle.std.specs.Prelude.{◌≡◌, ◌+◌, ◌*◌, ◌^◌, ◌<◌, ◌≤◌, [], ◌∷◌, ◌++◌, Some, length, replicate, slice_get, IfOk, OnOk, OnErr};
ghost use Rattle.std.specs.Borrow.{sem};
ghost use Rattle.tile_arena.specs.steps.Lending.{lends_item};

use crate::blocks::Block;
use crate::limits::{BLOCK_SIZE, MOST_VALUES};
use std::alloc::{AllocError, Global};
use std::marker::Model;

/// Items in order. Contracts see them as a list, and how many of them the blocks have room for.
#[derive(Drop)]
pub(crate) struct BlockList<X: Copy> {
    blocks: Vec<Block<X>>,
    len: u32,
}

impl<X: Copy> Model for BlockList<X> {
    ghost use Rattle.std.specs.Prelude.{◌*◌, ◌^◌, ◌≤◌, length};
    ghost use Rattle.tile_arena.specs.BlockLists.{Listing, listing_code, items_of, AreFilled};
    ghost use Rattle.tile_arena.specs.declared.limits.TheConstants.{BLOCK_SIZE, MOST_VALUES};

    ghost Value = { Listing X };

    ghost coded = { listing_code X.code };

    ghost view = { λ list. record {
      items = items_of list.blocks.items;
      capacity = BLOCK_SIZE * length list.blocks.items;
    } };

    ghost invariant = { λ list. AreFilled list.blocks.items list.len × (BLOCK_SIZE * length list.blocks.items ≤ MOST_VALUES) };
}

impl<X: Copy> BlockList<X> {
    /// No items, and no block.
    pub(crate) fn new(alloc: Global) -> BlockList<X>
        ensures items { result.items ≡ [] }
        ensures capacity { result.capacity ≡ 0 }
    {
        BlockList {
            blocks: Vec::new(alloc),
            len: 0,
        }
    }

    /// How many items there are.
    pub(crate) fn len(&self) -> u32
        ensures { result ≡ length self.now.items }
    {
        self.len
    }

    /// How many items the blocks have room for.
    pub(crate) fn capacity(&self) -> u32
        ensures { result ≡ self.now.capacity }
    {
        (self.blocks.len() * BLOCK_SIZE) as u32
    }

    /// An item.
    pub(crate) fn get(&self, at: u32) -> &X
        requires { at < length self.now.items }
        ensures { slice_get self.now.items at ≡ Some result.now }
    {
        let at = at as usize;
        self.blocks[at / BLOCK_SIZE].get(at % BLOCK_SIZE)
    }

    /// An item, to be changed in place.
    pub(crate) fn get_mut(&mut self, at: u32) -> &mut X
        requires { at < length self.old.items }
        ensures* writes_back { sem 𝓛 (lends_item X.row self.entry at result) }
        ensures value { slice_get self.old.items at ≡ Some result.now }
    {
        let at = at as usize;
        self.blocks[at / BLOCK_SIZE].get_mut(at % BLOCK_SIZE)
    }

    /// One more item.
    pub(crate) fn push(&mut self, item: X)
        requires { length self.old.items < self.old.capacity }
        ensures items { self.new.items ≡ self.old.items ++ item ∷ [] }
        ensures capacity { self.new.capacity ≡ self.old.capacity }
    {
        let at = self.len as usize;
        self.blocks[at / BLOCK_SIZE].push(item);
        self.len += 1;
    }
}

impl<X: Copy> BlockList<X> {
    /// Adds as many blocks, or none where there is no memory for all of them.
    pub(crate) fn add_blocks(&mut self, count: usize) -> Result<(), AllocError>
        requires { self.old.capacity + BLOCK_SIZE * count ≤ MOST_VALUES }
        ensures items { self.new.items ≡ self.old.items }
        ensures capacity { OnOk result (self.new.capacity ≡ self.old.capacity + BLOCK_SIZE * count) }
        ensures refused { OnErr result (self.new ≡ self.old) }
    {
        add_empty(&mut self.blocks, count)?;
        Ok(())
    }

    /// Another list of the same items, in as many blocks.
    pub(crate) fn copy(&self) -> Result<BlockList<X>, AllocError>
        ensures { IfOk result (λ copy. copy ≡ self.now) }
    {
        let blocks = copy_of(&self.blocks)?;
        Ok(BlockList {
            blocks,
            len: self.len,
        })
    }
}

/// Adds as many blocks without items, or none where there is no memory for all of them.
fn add_empty<X: Copy>(blocks: &mut Vec<Block<X>>, count: usize) -> Result<(), AllocError>
    ensures ok { OnOk result (blocks.new.items ≡ blocks.old.items ++ replicate count []) }
    ensures refused { OnErr result (blocks.new.items ≡ blocks.old.items) }
{
    let alloc = *blocks.allocator();
    let before = blocks.len();
    blocks.reserve(count)?;
    for _added in 0..count {
        match Block::new(alloc) {
            Ok(block) => blocks.push_reserved(block),
            Err(error) => {
                blocks.truncate(before);
                return Err(error);
            }
        }
    }
    Ok(())
}

/// Blocks with the same items.
fn copy_of<X: Copy>(blocks: &Vec<Block<X>>) -> Result<Vec<Block<X>>, AllocError>
    ensures { IfOk result (λ copy. copy.items ≡ blocks.now.items) }
{
    let alloc = *blocks.allocator();
    let mut copies = Vec::with_capacity(alloc, blocks.len())?;
    for block in blocks {
        copies.push_reserved(block.copy(alloc)?);
    }
    Ok(copies)
}
