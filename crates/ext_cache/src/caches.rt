//! The records that are kept.
ghost use Rattle.std.specs.Prelude.{◌≡◌, IfOk, IsSome, OnOk, OnErr};
ghost use Rattle.std.specs.Option.{option_copied};
ghost use Rattle.ext_cache.specs.Caches.{next_serial};
ghost use Rattle.ext_cache.specs.steps.Undoing.{with_entry};

use crate::limits::LAST_SERIAL;
use ext_model::{ArrayExt, CellKey, ExtEntry, ExtTable};
use std::alloc::{AllocError, Global};
use std::marker::Model;

/// The records of cells, each with its serial and with the stamp that the cell had when the record was made; and how many records were
/// made so far. Contracts see the entries as a finite map from the numbers of keys.
pub struct Cache {
    alloc: Global,
    table: ExtTable,
    made: u64,
}

impl Drop for Cache {
    fn drop(self) {
        let Cache {
            alloc: _,
            table: _,
            made: _,
        } = self;
    }
}

impl Model for Cache {
    ghost use Rattle.ext_cache.specs.Caches.{Records, records_code};

    ghost Value = { Records };

    ghost coded = { records_code };

    ghost view = { λ cache. record { entries = cache.table.entries; made = cache.made } };
}

impl Cache {
    ghost use Rattle.ext_cache.specs.Caches.{entry_in, is_stale, no_records, record_in, with_record};
    ghost use Rattle.ext_cache.specs.Lending.{replaced};

    /// No record was made. It takes no memory.
    pub fn new(alloc: Global) -> Cache
        ensures { result ≡ no_records }
    {
        Cache {
            alloc,
            table: ExtTable::new(alloc),
            made: 0,
        }
    }

    /// How many records were made.
    pub fn made(&self) -> u64
        ensures { result ≡ self.now.made }
    {
        self.made
    }

    /// The record that is kept of a cell. None exactly where there is none.
    pub fn kept(&self, cell: CellKey) -> Option<&ArrayExt>
        ensures { option_copied result ≡ record_in self.now cell.0 }
    {
        self.table.get(cell)
    }

    /// What records take their memory from.
    pub(crate) fn allocator(&self) -> Global {
        self.alloc
    }

    /// Whether no record is kept of the cell, or one of another stamp.
    pub(crate) fn is_stale(&self, cell: CellKey, stamp: u64) -> bool
        ensures { result ≡ is_stale (entry_in self.now cell.0) stamp }
    {
        match self.table.stamp(cell) {
            Some(kept) => kept != stamp,
            None => true,
        }
    }

    /// The records of cells, by their keys.
    pub(crate) fn table(&self) -> &ExtTable
        ensures { result.now.entries ≡ self.now.entries }
    {
        &self.table
    }

    /// Keeps a new record of the cell, and hands out the entry that it replaces. Want of memory alone refuses, and leaves the records as they
    /// were.
    pub(crate) fn keep(
        &mut self,
        cell: CellKey,
        ext: ArrayExt,
        stamp: u64,
    ) -> Result<Option<ExtEntry>, AllocError>
        ensures kept { OnOk result (self.new ≡ with_record self.old cell.0 ext stamp) }
        ensures replaced { IfOk result (λ entry. entry ≡ entry_in self.old cell.0) }
        ensures refused { OnErr result (self.new ≡ self.old) }
    {
        let Ok(()) = self.table.reserve(1) else {
            return Err(AllocError);
        };
        self.made = next_serial(self.made);
        let entry = ExtEntry {
            ext,
            serial: self.made,
            stamp,
        };
        Ok(self.table.put(cell, entry))
    }

    /// Puts an entry in the place of the one that a cell has, and hands that out. It takes no memory.
    pub(crate) fn put(&mut self, cell: CellKey, entry: ExtEntry) -> Option<ExtEntry>
        requires { IsSome (entry_in self.old cell.0) }
        ensures old { result ≡ entry_in self.old cell.0 }
        ensures new { self.new ≡ replaced self.old cell.0 entry }
    {
        self.table.put(cell, entry)
    }

    /// Puts back the entry that a cell had when so many records were made. It takes no memory.
    pub(crate) fn put_back(&mut self, cell: CellKey, entry: Option<ExtEntry>, made: u64)
        requires { IsSome (entry_in self.old cell.0) }
        ensures { self.new ≡ record { entries = with_entry self.old.entries cell.0 entry; made = made } }
    {
        match entry {
            Some(entry) => {
                self.table.put(cell, entry);
            }
            None => {
                self.table.take(cell);
            }
        }
        self.made = made;
    }
}

// The serial of the next record.
fn next_serial(made: u64) -> u64
    ensures { result ≡ next_serial made }
{
    if made < LAST_SERIAL { made + 1 } else { made }
}
