//! The uses of a cell, in order of arrival under their ids.
ghost use Rattle.std.specs.Prelude.{◌≡◌, ◌↔◌, ℕ, ◌<◌, ◌≤◌, ◌++◌, ◌∷◌, [], length, insert, remove, map, slice_get, IsTrue, Some, OnOk, IfOk, IfSome, IfNone};
ghost use Rattle.std.specs.Option.{option_map};
ghost use Rattle.cell_tree.specs.Uses.{HasChild, HasIdAt, with_use_at};
ghost use Rattle.cell_tree.specs.Arrivals.{HaveOwnIds};

use ext_model::CellKey;
use geo_core::{Grid, Transform};
use indexmap::IndexMap;
use std::alloc::{AllocError, Global};
use std::marker::Model;

/// A use of a cell in another. A use without a grid has one element, and one with a grid has the elements of the grid, displaced
/// in the child's coordinates before the transform.
#[derive(Clone, Copy, Debug, PartialEq, Eq)]
pub struct UseBody {
    pub child: CellKey,
    pub placed: Transform,
    pub grid: Option<Grid>,
}

/// Uses in order of arrival, each under its id. Contracts see the uses with their ids, and for how many more there is room.
pub struct UseTable {
    entries: IndexMap<Vec<u8>, UseBody>,
}

impl Drop for UseTable {
    fn drop(self) {
        let UseTable { entries: _ } = self;
    }
}

impl Model for UseTable {
    ghost use Rattle.std.specs.Prelude.{map};
    ghost use Rattle.std.specs.HashMap.{spare as room};
    ghost use Rattle.cell_tree.specs.Uses.{UseList};

    ghost Value = { UseList };

    ghost view = { λ table. record { entries = map (λ entry. (entry.0.items, entry.1)) table.entries.entries; spare = room table.entries } };
}

impl UseTable {
    /// No uses. It takes no memory now; `reserve` takes it from `alloc`.
    pub fn new(alloc: Global) -> UseTable
        ensures { result.entries ≡ [] }
    {
        UseTable {
            entries: IndexMap::new(alloc),
        }
    }

    /// The uses with these ids. It takes its memory now.
    pub fn from_uses(alloc: Global, uses: Vec<(Vec<u8>, UseBody)>) -> Result<UseTable, AllocError>
        requires { HaveOwnIds (map (λ entry. (entry.0.items, entry.1)) uses.items) }
        ensures { IfOk result (λ table. table.entries ≡ map (λ entry. (entry.0.items, entry.1)) uses.items) }
    {
        let mut table = UseTable::new(alloc);
        for (id, used) in uses {
            table.reserve()?;
            table.push(id, used);
        }
        Ok(table)
    }

    /// How many uses there are.
    pub fn len(&self) -> usize
        ensures { result ≡ length self.now.entries }
    {
        self.entries.len()
    }

    /// The place of the use with this id.
    pub fn find(&self, id: &[u8]) -> Option<usize>
        ensures found { IfSome result (λ k. HasIdAt self.now.entries k id.now) }
        ensures absent { IfNone result ((k : ℕ) → HasIdAt self.now.entries k id.now → ⊥) }
    {
        match self.entries.get_full(id) {
            Some((k, _, _)) => Some(k),
            None => None,
        }
    }

    /// The id and the body of the k-th use.
    pub fn get(&self, k: usize) -> Option<(&[u8], &UseBody)>
        ensures { option_map (λ found. (found.0.now, found.1.now)) result ≡ slice_get self.now.entries k }
    {
        match self.entries.get_index(k) {
            Some((id, used)) => Some((id.as_slice(), used)),
            None => None,
        }
    }

    /// The body of the k-th use.
    pub fn body(&self, k: usize) -> &UseBody
        requires { k < length self.now.entries }
        ensures { option_map (λ entry. entry.1) (slice_get self.now.entries k) ≡ Some result.now }
    {
        match self.entries.get_index(k) {
            Some((_, used)) => used,
            None => unreachable!(),
        }
    }

    /// Makes room for one more use.
    pub fn reserve(&mut self) -> Result<(), AllocError>
        ensures room { OnOk result (0 < self.new.spare) }
        ensures kept { self.new.entries ≡ self.old.entries }
    {
        self.entries.reserve(1)
    }

    /// Makes a use the k-th. The others keep their order. It takes no memory.
    pub fn insert(&mut self, k: usize, id: Vec<u8>, used: UseBody)
        requires place { k ≤ length self.old.entries }
        requires room { 0 < self.old.spare }
        requires new { (k : ℕ) → HasIdAt self.old.entries k id.items → ⊥ }
        ensures { self.new.entries ≡ insert self.old.entries k (id.items, used) }
    {
        let _ = self.entries.shift_insert(k, id, used);
    }

    /// Adds a use at the end. It takes no memory.
    pub fn push(&mut self, id: Vec<u8>, used: UseBody)
        requires room { 0 < self.old.spare }
        requires new { (k : ℕ) → HasIdAt self.old.entries k id.items → ⊥ }
        ensures { self.new.entries ≡ self.old.entries ++ (id.items, used) ∷ [] }
    {
        let end = self.len();
        self.insert(end, id, used);
    }

    /// Gives the k-th use another body.
    pub fn set(&mut self, k: usize, used: UseBody)
        requires { k < length self.old.entries }
        ensures { self.new.entries ≡ with_use_at self.old.entries k used }
    {
        if let Some(body) = self.entries.get_index_mut(k) {
            *body = used;
        }
    }

    /// Takes the k-th use away. The others keep their order.
    pub fn remove(&mut self, k: usize)
        ensures { self.new.entries ≡ remove self.old.entries k }
    {
        let _ = self.entries.shift_remove_index(k);
    }

    /// Whether some use is of this child.
    pub fn has_child(&self, child: usize) -> bool
        ensures { IsTrue result ↔ HasChild self.now.entries child }
    {
        for k in 0..self.len() {
            if self.body(k).child.0 == child {
                return true;
            }
        }
        false
    }
}
