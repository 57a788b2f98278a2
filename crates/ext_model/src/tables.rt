//! A table of the records of cells.
ghost use Rattle.std.specs.Prelude.{◌≡◌, ◌+◌, ◌≤◌, OnOk, OnErr};
ghost use Rattle.std.specs.Option.{option_copied};
ghost use Rattle.std.specs.FinMap as fin_map;

use crate::arrays::ArrayExt;
use std::alloc::{AllocError, Global};
use std::collections::HashMap;
use std::marker::Model;

/// The key of a cell in its library.
#[derive(Clone, Copy, Debug, PartialEq, Eq)]
pub struct CellKey(pub usize);

/// A record with its serial, and the stamp that the cell had when the record was made.
#[derive(Debug, Drop)]
pub struct ExtEntry {
    pub ext: ArrayExt,
    pub serial: u64,
    pub stamp: u64,
}

/// The records of cells, at most one for each key.
///
/// Contracts see the entries as a finite map from the numbers of keys, and beside it `spare`: for how many more cells there is
/// room, whatever their keys are. Each call but `reserve` looks one key up in a hash table, in a time that does not grow with the
/// table as long as few keys collide. `reserve` moves all entries where the table has to grow: it takes a time in proportion to the
/// entries and `n`, and memory for their sum.
#[derive(Drop)]
pub struct ExtTable {
    entries: HashMap<usize, ExtEntry>,
    // so many more keys fit: the hash table may have room for more
    spare: usize,
}

impl Model for ExtTable {
    ghost use Rattle.std.specs.Prelude.{◌≤◌};
    ghost use Rattle.std.specs.HashMap.{spare as room};
    ghost use Rattle.std.specs.FinMap.{from_entries};
    ghost use Rattle.ext_model.specs.Tables.{Table, table_code};
    ghost use Rattle.ext_model.specs.contracts.tables.ExtEntry.{the_row as entry_row};

    ghost Value = { Table };

    ghost coded = { table_code entry_row.coded };

    ghost view = { λ table. record { entries = from_entries table.entries.entries; spare = table.spare } };

    ghost invariant = { λ table. table.spare ≤ room table.entries };
}

impl ExtTable {
    ghost use Rattle.ext_model.specs.Tables.{entry_of, ext_of, stamp_of, HasRoomFor};

    /// A table without entries. It takes no memory now; `reserve` takes it from `alloc`.
    pub fn new(alloc: Global) -> ExtTable
        ensures empty { result.entries ≡ fin_map.empty }
        ensures spare { result.spare ≡ 0 }
    {
        ExtTable {
            entries: HashMap::new(alloc),
            spare: 0,
        }
    }

    /// Makes room for the entries of `n` more cells, so that to put as many can't fail. Where it is refused nothing is
    /// changed.
    pub fn reserve(&mut self, n: usize) -> Result<(), AllocError>
        ensures room { OnOk result (n ≤ self.new.spare) }
        ensures entries { self.new.entries ≡ self.old.entries }
        ensures kept { self.old.spare ≤ self.new.spare }
        ensures refused { OnErr result (self.new ≡ self.old) }
    {
        if n <= self.spare {
            return Ok(());
        }
        self.entries.reserve(n)?;
        self.spare = n;
        Ok(())
    }

    /// Sets the entry of a cell, and hands out the one that it had. It takes no memory.
    pub fn put(&mut self, cell: CellKey, entry: ExtEntry) -> Option<ExtEntry>
        requires { HasRoomFor self.old cell }
        ensures old { result ≡ entry_of self.old cell }
        ensures entries { self.new.entries ≡ fin_map.insert self.old.entries cell.0 entry }
        ensures spare { self.old.spare ≤ self.new.spare + 1 }
    {
        self.spare = self.spare.saturating_sub(1);
        match self.entries.insert(cell.0, entry) {
            Ok(old) => old,
            Err(_) => unreachable!(),
        }
    }

    /// Takes the entry of a cell out and hands it out. It takes no memory.
    pub fn take(&mut self, cell: CellKey) -> Option<ExtEntry>
        ensures old { result ≡ entry_of self.old cell }
        ensures entries { self.new.entries ≡ fin_map.remove self.old.entries cell.0 }
        ensures spare { self.new.spare ≡ self.old.spare }
    {
        self.entries.remove(&cell.0)
    }

    /// The record of a cell. It takes no memory.
    pub fn get(&self, cell: CellKey) -> Option<&ArrayExt>
        ensures { option_copied result ≡ ext_of self.now cell }
    {
        match self.entries.get(&cell.0) {
            Some(entry) => Some(&entry.ext),
            None => None,
        }
    }

    /// The stamp that a cell had when its record was made. It takes no memory.
    pub fn stamp(&self, cell: CellKey) -> Option<u64>
        ensures { result ≡ stamp_of self.now cell }
    {
        match self.entries.get(&cell.0) {
            Some(entry) => Some(entry.stamp),
            None => None,
        }
    }
}
