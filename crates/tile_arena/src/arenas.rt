//! Arenas: values under names that stay while the values do.
ghost use Rattle.std.specs.Prelude.{◌≡◌, ◌≢◌, ◌↔◌, ◌+◌, ◌-◌, ◌^◌, ◌<◌, ◌≤◌, Some, None, is_some, IfOk, OnOk, OnErr, IfErr};
ghost use Rattle.std.specs.FinMap as fin_map;
ghost use Rattle.std.specs.Borrow.{sem};
ghost use Rattle.tile_arena.specs.Arenas.{value_at, IsLive, count_live, with_value, number_after, IsLeastLiveFrom};
ghost use Rattle.tile_arena.specs.ArenaLending.{lends_value};

use crate::block_lists::BlockList;
use crate::limits::{BLOCK_SIZE, MOST_VALUES};
use crate::slots::Slot;
use crate::{ArenaFault, Id};
use std::alloc::Global;
use std::marker::Model;
use std::mem;

/// Values, each under an id that the arena picks. A value stays where it is until it is removed.
///
/// Contracts see the values as a finite map from the numbers of ids, and beside it `spare`: how many more values there is room for.
#[derive(Drop)]
pub struct Arena<T: Copy> {
    slots: BlockList<Slot<T>>,
    // how many slots have a value
    live: u32,
    // the first slot of the chain of empty ones, or how many slots there are where none is empty
    next: u32,
}

impl<T: Copy> Model for Arena<T> {
    ghost use Rattle.std.specs.Prelude.{◌-◌};
    ghost use Rattle.tile_arena.specs.Arenas.{Arena as Values, arena_code};

    ghost Value = { Values T };

    ghost coded = { arena_code T.code };

    ghost use Rattle.tile_arena.specs.Slots.{live_from, IsSound};

    ghost view = { λ arena. record {
      live = live_from 0 arena.slots.items;
      spare = arena.slots.capacity - arena.live;
    } };

    ghost invariant = { λ arena. IsSound arena.slots.items arena.slots.capacity arena.live arena.next };
}

impl<T: Copy> Arena<T> {
    /// An empty arena. It takes no memory now; `reserve` takes it from `alloc`.
    pub fn new(alloc: Global) -> Arena<T>
        ensures empty { result.live ≡ fin_map.empty }
        ensures spare { result.spare ≡ 0 }
    {
        Arena {
            slots: BlockList::new(alloc),
            live: 0,
            next: 0,
        }
    }

    /// Makes room for `n` more values, so that as many inserts can't fail.
    ///
    /// # Errors
    ///
    /// `Full` exactly where there would be more than [`MOST_VALUES`], and want of memory. Nothing is changed then.
    pub fn reserve(&mut self, n: u32) -> Result<(), ArenaFault>
        ensures room { OnOk result (n ≤ self.new.spare) }
        ensures values { self.new.live ≡ self.old.live }
        ensures full { (result ≡ Err ArenaFault.Full) ↔ (MOST_VALUES < count_live self.old + n) }
        ensures refused { OnErr result (self.new ≡ self.old) }
    {
        let spare = self.slots.capacity() - self.live;
        if n <= spare {
            return Ok(());
        }
        if MOST_VALUES - self.live < n {
            return Err(ArenaFault::Full);
        }
        let short = (n - spare) as usize;
        self.slots.add_blocks(short.div_ceil(BLOCK_SIZE))?;
        Ok(())
    }

    /// Stores a value in room that was reserved, and says under which id.
    pub fn insert_reserved(&mut self, value: T) -> Id
        requires { 1 ≤ self.old.spare }
        ensures was_free { value_at self.old result ≡ None }
        ensures stored { self.new ≡ record (with_value self.old result value) { spare = self.old.spare - 1 } }
    {
        let id = self.next;
        self.live += 1;
        if id == self.slots.len() {
            self.slots.push(Slot::Live(value));
            self.next = id + 1;
        } else if let Slot::Empty(next) = mem::replace(self.slots.get_mut(id), Slot::Live(value)) {
            self.next = next;
        }
        Id(id)
    }

    /// How many ids are live.
    pub fn len(&self) -> u32
        ensures { result ≡ count_live self.now }
    {
        self.live
    }

    /// Whether an id is live.
    pub fn is_live(&self, id: Id) -> bool
        ensures { result ≡ is_some (value_at self.now id) }
    {
        if self.slots.len() <= id.0 {
            return false;
        }
        self.slots.get(id.0).is_live()
    }

    /// The value of a live id.
    pub fn get(&self, id: Id) -> &T
        requires { IsLive self.now id }
        ensures { value_at self.now id ≡ Some result.now }
    {
        self.slots.get(id.0).value()
    }

    /// The value of a live id, to be changed in place.
    pub fn get_mut(&mut self, id: Id) -> &mut T
        requires { IsLive self.old id }
        ensures* writes_back { sem 𝓛 (lends_value T.row self.entry id result) }
        ensures value { value_at self.old id ≡ Some result.now }
    {
        self.slots.get_mut(id.0).value_mut()
    }

    /// Takes a value out. Its id is not live from then on, until another value gets it.
    pub fn remove(&mut self, id: Id) -> T
        requires { IsLive self.old id }
        ensures value { value_at self.old id ≡ Some result }
        ensures removed { self.new ≡ record { live = fin_map.remove self.old.live id.0; spare = self.old.spare + 1 } }
    {
        let empty = Slot::Empty(self.next);
        match mem::replace(self.slots.get_mut(id.0), empty) {
            Slot::Live(value) => {
                self.live -= 1;
                self.next = id.0;
                value
            }
            Slot::Empty(_) => unreachable!(),
        }
    }

    /// The least live id above the given one, or the least of all where none is given.
    pub fn next_live(&self, after: Option<Id>) -> Option<Id>
        ensures { IsLeastLiveFrom self.now (number_after after) result }
    {
        for number in first_after(after)..self.slots.len() as u64 {
            if let Slot::Live(_) = self.slots.get(number as u32) {
                return Some(Id(number as u32));
            }
        }
        None
    }

    /// An arena with the same values under the same ids, and with as much room.
    pub fn copy(&self) -> Result<Arena<T>, ArenaFault>
        ensures ok { IfOk result (λ copy. copy ≡ self.now) }
        ensures refused { IfErr result (λ fault. fault ≡ ArenaFault.Memory) }
    {
        let slots = self.slots.copy()?;
        Ok(Arena {
            slots,
            live: self.live,
            next: self.next,
        })
    }
}

// the least number that an id above the given one may have
fn first_after(after: Option<Id>) -> u64
    ensures { result ≡ number_after after }
{
    match after {
        Some(id) => id.0 as u64 + 1,
        None => 0,
    }
}
