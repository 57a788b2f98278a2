//! Blocks: room for [`BLOCK_SIZE`] items that stays where it is.
ghost use Rattle.std.specs.Prelude.{◌≡◌, ◌<◌, [], ◌∷◌, ◌++◌, Some, length, slice_get, slice_set, IfOk};
ghost use Rattle.std.specs.Borrow.{Lends, sem};
ghost use Rattle.tile_arena.specs.contracts.blocks.Block.{the_row};

use crate::limits::BLOCK_SIZE;
use crate::places::{Places, Start, Title, allocate, deallocate};
use std::alloc::{AllocError, Global};
use std::marker::Model;
use std_alloc::room::may_hold;

/// Items in room that was taken at once and does not move, seen as their list.
pub(crate) struct Block<X: Copy> {
    start: Start<X>,
    len: usize,
    places: Places<X>,
    title: Title<X, Global>,
    alloc: Global,
}

impl<X: Copy> Model for Block<X> {
    ghost use Rattle.std.specs.Prelude.{List};

    ghost Value = { List X };

    ghost use Rattle.tile_arena.specs.Blocks.{block_items, IsBlock};

    ghost view = { λ block. block_items block };

    ghost invariant = { λ block. IsBlock block };
}

impl<X: Copy> Block<X> {
    /// A block with no item yet.
    pub(crate) fn new(alloc: Global) -> Result<Block<X>, AllocError>
        ensures { IfOk result (λ block. block ≡ []) }
    {
        if !may_hold::<X>(BLOCK_SIZE) {
            return Err(AllocError);
        }
        let (start, places, title) = allocate(&alloc, BLOCK_SIZE)?;
        Ok(Block {
            start,
            len: 0,
            places,
            title,
            alloc,
        })
    }

    /// An item.
    pub(crate) fn get(&self, at: usize) -> &X
        requires { at < length self.now }
        ensures { slice_get self.now at ≡ Some result.now }
    {
        self.places.get(self.start, at)
    }

    /// An item, to be changed in place.
    pub(crate) fn get_mut(&mut self, at: usize) -> &mut X
        requires { at < length self.old }
        ensures* writes_back { sem 𝓛 (Lends (the_row X.row) X.row self.entry result (slice_set self.old at)) }
        ensures value { slice_get self.old at ≡ Some result.now }
    {
        let start = self.start;
        self.places.get_mut(start, at)
    }

    /// One more item.
    pub(crate) fn push(&mut self, item: X)
        requires { length self.old < BLOCK_SIZE }
        ensures { self.new ≡ self.old ++ item ∷ [] }
    {
        let at = self.len;
        self.places.write(self.start, at, item);
        self.len = at + 1;
    }

    /// Another block with the same items.
    pub(crate) fn copy(&self, alloc: Global) -> Result<Block<X>, AllocError>
        ensures { IfOk result (λ block. block ≡ self.now) }
    {
        let mut copy = Block::new(alloc)?;
        for at in 0..self.len {
            copy.push(*self.get(at));
        }
        Ok(copy)
    }
}

impl<X: Copy> Drop for Block<X> {
    fn drop(self) {
        let Block {
            start,
            len: _,
            places,
            title,
            alloc,
        } = self;
        deallocate(&alloc, start, BLOCK_SIZE, places, title);
    }
}
