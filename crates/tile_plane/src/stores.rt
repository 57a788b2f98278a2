//! Where tiles stand.

ghost use Rattle.std.specs.Prelude.{◌≡◌, ◌≢◌, ◌↔◌, ℕ, IsTrue, MatchOption, Some, None, IfOk, OnErr};
ghost use Rattle.std.specs.FinMap as fin_map;
ghost use Rattle.geo_core.specs.Areas.{LiesWithin};
ghost use Rattle.geo_core.specs.Covering.{IsProper};
ghost use Rattle.geo_core.specs.Planes.{plane_range};
ghost use Rattle.tile_plane.specs.Tiles.{tile_at, IsTaken, IsPut, IsNextTile};

use crate::slots::Slot;
use crate::tiles::Tile;
use std::alloc::Global;
use std::marker::Model;
use tile_arena::{Arena, ArenaFault, Id};

/// Tiles with squares, each under a number. What a number without a tile stands for has no square.
#[derive(Drop)]
pub struct Store {
    arena: Arena<Slot>,
}

impl Model for Store {
    ghost use Rattle.std.specs.Coded.{coded_ℕ};
    ghost use Rattle.std.specs.FinMap as fin_map;
    ghost use Rattle.tile_plane.specs.contracts.slots.Slot.{the_row as slot_row};
    ghost use Rattle.tile_plane.specs.Tiles.{Tiles, AreProper};

    ghost Value = { Tiles };

    ghost coded = { fin_map.code coded_ℕ slot_row.coded };

    ghost view = { λ store. store.arena.live };

    ghost invariant = { λ store. AreProper store.arena.live };
}

impl Store {
    /// No tiles. It takes no memory now; inserts take it from `alloc`.
    pub fn new(alloc: Global) -> Store
        ensures { result ≡ fin_map.empty }
    {
        Store {
            arena: Arena::new(alloc),
        }
    }

    /// The same tiles under the same numbers.
    pub fn copy(&self) -> Result<Store, ArenaFault>
        ensures { IfOk result (λ store. store ≡ self.now) }
    {
        let arena = self.arena.copy()?;
        Ok(Store { arena })
    }

    /// How many tiles there are.
    pub fn len(&self) -> u32
        ensures { result ≡ fin_map.len self.now }
    {
        self.arena.len()
    }

    /// Whether the number stands for a tile.
    pub fn has_tile(&self, id: u32) -> bool
        ensures { IsTrue result ↔ IsTaken self.now id }
    {
        self.arena.is_live(Id(id))
    }

    /// The tile of the least number above the given one, or of the least of all where none is given.
    pub fn next_tile(&self, after: Option<u32>) -> Option<u32>
        ensures { IsNextTile self.now after result }
    {
        let next = self.arena.next_live(id_if(after))?;
        Some(next.0)
    }

    /// The tile under a number.
    #[inline(always)]
    pub fn get(&self, id: u32) -> Tile
        requires { IsTaken self.now id }
        ensures { result ≡ tile_at self.now id }
    {
        self.arena.get(Id(id)).tile()
    }

    pub fn put(&mut self, id: u32, tile: Tile)
        requires taken { IsTaken self.old id }
        requires proper { IsProper tile.area }
        requires within { LiesWithin tile.area plane_range }
        ensures { IsPut id tile self.old self.new }
    {
        *self.arena.get_mut(Id(id)) = Slot::new(&tile);
    }

    /// Gives the tile a number, which had none.
    pub fn insert(&mut self, tile: Tile) -> Result<u32, ArenaFault>
        requires proper { IsProper tile.area }
        requires within { LiesWithin tile.area plane_range }
        ensures free { IfOk result (λ id. IsTaken self.old id → ⊥) }
        ensures put { IfOk result (λ id. IsPut id tile self.old self.new) }
        ensures refused { OnErr result (self.new ≡ self.old) }
    {
        self.arena.reserve(1)?;
        let id = self.arena.insert_reserved(Slot::new(&tile));
        Ok(id.0)
    }

    /// Takes a tile away.
    pub fn remove(&mut self, id: u32)
        requires { IsTaken self.old id }
        ensures gone { IsTaken self.new id → ⊥ }
        ensures others { (other : ℕ) → other ≢ id → tile_at self.new other ≡ tile_at self.old other }
    {
        let _tile = self.arena.remove(Id(id));
    }

    pub fn set_above(&mut self, id: u32, above: u32)
        requires { IsTaken self.old id }
        ensures { IsPut id (record (tile_at self.old id) { above = above }) self.old self.new }
    {
        self.arena.get_mut(Id(id)).above = above;
    }

    pub fn set_right(&mut self, id: u32, right: u32)
        requires { IsTaken self.old id }
        ensures { IsPut id (record (tile_at self.old id) { right = right }) self.old self.new }
    {
        self.arena.get_mut(Id(id)).right = right;
    }

    pub fn set_below(&mut self, id: u32, below: u32)
        requires { IsTaken self.old id }
        ensures { IsPut id (record (tile_at self.old id) { below = below }) self.old self.new }
    {
        self.arena.get_mut(Id(id)).below = below;
    }

    pub fn set_left(&mut self, id: u32, left: u32)
        requires { IsTaken self.old id }
        ensures { IsPut id (record (tile_at self.old id) { left = left }) self.old self.new }
    {
        self.arena.get_mut(Id(id)).left = left;
    }

    pub fn set_value(&mut self, id: u32, value: u8)
        requires { IsTaken self.old id }
        ensures { IsPut id (record (tile_at self.old id) { value = value }) self.old self.new }
    {
        self.arena.get_mut(Id(id)).value = value;
    }
}

/// The id of the number, if there is one.
fn id_if(number: Option<u32>) -> Option<Id>
    ensures { MatchOption number (result ≡ None) (λ number. result ≡ Some (record { 0 = number })) }
{
    number.map(Id)
}
