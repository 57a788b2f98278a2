//! Records that are lent for a while.
ghost use Rattle.std.specs.Prelude.{◌≡◌, ◌<◌, ◌≤◌, ◌++◌, ◌∷◌, [], Some, All, map, IfOk, IsSome, OnErr, vec_capacity, vec_len};
ghost use Rattle.finite_sets.specs.Lists.{Distinct};
ghost use Rattle.ext_cache.specs.Caches.{Records, entry_in, record_in};
ghost use Rattle.ext_cache.specs.Lending.{AreLent, LendsOne};

use crate::caches::Cache;
use ext_model::{ArrayExt, CellKey, ExtEntry};
use names_lists::{List, Name};
use std::alloc::{AllocError, Global};

/// What a lent record is kept with: its cell, its serial and its stamp.
#[derive(Clone, Copy, Debug)]
pub struct LentNote {
    pub cell: CellKey,
    pub serial: u64,
    pub stamp: u64,
}

/// Records that were lent, and in the same order what each is kept with.
#[derive(Drop)]
pub struct Lent {
    pub exts: Vec<ArrayExt>,
    pub notes: Vec<LentNote>,
}

// An entry that stands in the place of one that is lent. It takes no memory.
fn nothing_kept(alloc: Global) -> ExtEntry {
    ExtEntry {
        ext: ArrayExt {
            cell: Name::empty(alloc),
            tech: Name::empty(alloc),
            classes: List::of(Vec::new(alloc)),
            uses: List::of(Vec::new(alloc)),
            nodes: List::of(Vec::new(alloc)),
            fets: List::of(Vec::new(alloc)),
            merges: List::of(Vec::new(alloc)),
        },
        serial: 0,
        stamp: 0,
    }
}

impl Cache {
    // Lends the record of one cell to lists that have room.
    fn lend_one(&mut self, cell: CellKey, exts: &mut Vec<ArrayExt>, notes: &mut Vec<LentNote>)
        requires kept { IsSome (entry_in self.old cell.0) }
        requires room { (vec_len exts.old < vec_capacity exts.old) × (vec_len notes.old < vec_capacity notes.old) }
        ensures lent { LendsOne self.old cell.0 exts.old.items notes.old.items exts.new.items notes.new.items self.new }
        ensures room { (vec_capacity exts.old ≤ vec_capacity exts.new) × (vec_capacity notes.old ≤ vec_capacity notes.new) }
    {
        let Some(entry) = self.put(cell, nothing_kept(self.allocator())) else {
            unreachable!()
        };
        let ExtEntry { ext, serial, stamp } = entry;
        let Ok(()) = exts.push(ext) else {
            unreachable!()
        };
        let Ok(()) = notes.push(LentNote {
            cell,
            serial,
            stamp,
        }) else {
            unreachable!()
        };
    }

    /// Lends the records that are kept of these cells, in their order, until they are taken back. Each of the cells has one, and stands there once.
    /// Want of memory alone refuses, and leaves the records as they were.
    pub fn lend(&mut self, cells: &[CellKey]) -> Result<Lent, AllocError>
        requires kept { All (λ cell. IsSome (record_in self.old cell.0)) cells.now }
        requires once { Distinct (map (λ cell. cell.0) cells.now) }
        ensures records { IfOk result (λ lent. map (λ ext. Some ext) lent.exts.items ≡ map (λ cell. record_in self.old cell.0) cells.now) }
        ensures lent { IfOk result (λ lent. AreLent self.old lent.exts.items lent.notes.items self.new) }
        ensures refused { OnErr result (self.new ≡ self.old) }
    {
        let mut exts = Vec::with_capacity(self.allocator(), cells.len())?;
        let mut notes = Vec::with_capacity(self.allocator(), cells.len())?;
        for cell in cells {
            self.lend_one(*cell, &mut exts, &mut notes);
        }
        Ok(Lent { exts, notes })
    }

    /// Takes records back that were lent. It takes no memory.
    pub fn take_back(&mut self, lent: Lent)
        requires { (before : Records) × AreLent before lent.exts.items lent.notes.items self.old }
        ensures { (before : Records) → AreLent before lent.exts.items lent.notes.items self.old → self.new ≡ before }
    {
        let Lent {
            mut exts,
            mut notes,
        } = lent;
        while let Some(note) = notes.pop() {
            let Some(ext) = exts.pop() else {
                unreachable!()
            };
            let LentNote {
                cell,
                serial,
                stamp,
            } = note;
            self.put(cell, ExtEntry { ext, serial, stamp });
        }
    }
}
