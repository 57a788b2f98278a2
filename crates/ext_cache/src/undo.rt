//! What is put back where an extraction fails half way.
ghost use Rattle.std.specs.Prelude.{◌≡◌, ◌<◌, ◌≤◌, ◌++◌, ◌∷◌, [], IsSome, OnErr, OnOk, vec_capacity, vec_len};
ghost use Rattle.ext_cache.specs.Caches.{Records, entry_in, with_record};
ghost use Rattle.ext_cache.specs.steps.Undoing.{IsLogOf, undo_of, undone};

use crate::caches::Cache;
use ext_model::{ArrayExt, CellKey, ExtEntry};
use std::alloc::AllocError;

/// The entry that a cell had before a new record of it was kept, and how many records were made then.
#[derive(Drop)]
pub struct Undo {
    pub cell: CellKey,
    pub entry: Option<ExtEntry>,
    pub made: u64,
}

impl Cache {
    /// Keeps a new record of the cell, and notes what it replaces in a log that has room. Want of memory alone refuses, and leaves both as
    /// they were.
    pub(crate) fn keep_logged(
        &mut self,
        cell: CellKey,
        ext: ArrayExt,
        stamp: u64,
        log: &mut Vec<Undo>,
    ) -> Result<(), AllocError>
        requires room { vec_len log.old < vec_capacity log.old }
        ensures kept { OnOk result (self.new ≡ with_record self.old cell.0 ext stamp) }
        ensures logged { OnOk result (log.new.items ≡ log.old.items ++ undo_of self.old cell.0 ∷ []) }
        ensures refused { OnErr result ((self.new ≡ self.old) × (log.new.items ≡ log.old.items)) }
        ensures room { vec_capacity log.old ≤ vec_capacity log.new }
    {
        let made = self.made();
        let entry = self.keep(cell, ext, stamp)?;
        let Ok(()) = log.push(Undo { cell, entry, made }) else {
            unreachable!()
        };
        Ok(())
    }

    // Puts back what one new record replaced.
    fn undo(&mut self, undo: Undo)
        requires { IsSome (entry_in self.old undo.cell.0) }
        ensures { self.new ≡ undone self.old undo }
    {
        let Undo { cell, entry, made } = undo;
        self.put_back(cell, entry, made);
    }

    /// Puts back what new records replaced, the last first.
    pub(crate) fn roll_back(&mut self, log: Vec<Undo>)
        requires { (before : Records) × IsLogOf before log.items self.old }
        ensures { (before : Records) → IsLogOf before log.items self.old → self.new ≡ before }
    {
        let mut log = log;
        while let Some(undo) = log.pop() {
            self.undo(undo);
        }
    }
}
