//! The uses of a cell in order, with their ids found by hashing.
ghost use Rattle.std.specs.Prelude.{◌≡◌, [], ◌∷◌, ◌++◌, OnOk};
ghost use Rattle.mag_text.specs.Drafts.{has_id};

use cell_library::cell_bodies::CellUse;
use std::alloc::{AllocError, Global};
use std::collections::HashSet;
use std::marker::Model;

/// Uses in order. Contracts see it as their list. A look-up of an id takes the same time however many there are.
#[derive(Drop)]
pub struct UseTable {
    alloc: Global,
    entries: Vec<CellUse>,
    ids: HashSet<Vec<u8>>,
}

impl Model for UseTable {
    ghost use Rattle.std.specs.Prelude.{List};
    ghost use Rattle.cell_library.specs.CellBodies.declared.bodies.CellUse.{CellUse};
    ghost use Rattle.mag_text.specs.steps.UseIds.{AreIds};

    ghost Value = { List CellUse };

    ghost view = { λ table. table.entries.items };

    ghost invariant = { λ table. AreIds table.ids.keys table.entries.items };
}

impl UseTable {
    /// No use. It takes no memory.
    pub fn new(alloc: Global) -> UseTable
        ensures { result ≡ [] }
    {
        UseTable {
            alloc,
            entries: Vec::new(alloc),
            ids: HashSet::new(alloc),
        }
    }

    /// Whether a use has the id.
    pub fn has(&self, id: &[u8]) -> bool
        ensures { result ≡ has_id id.now self.now }
    {
        self.ids.contains(id)
    }

    /// Adds a use at the end.
    pub fn add(&mut self, placed: CellUse) -> Result<(), AllocError>
        ensures { OnOk result (self.new ≡ self.old ++ placed ∷ []) }
    {
        let id = Vec::from_slice(self.alloc, placed.id.bytes())?;
        // With room for the use, want of memory leaves the two as they are.
        self.entries.reserve(1)?;
        self.ids.insert(id)?;
        self.entries.push(placed)?;
        Ok(())
    }

    /// The uses.
    pub fn into_vec(self) -> Vec<CellUse>
        ensures { result.items ≡ self }
    {
        let UseTable {
            alloc: _,
            entries,
            ids: _,
        } = self;
        entries
    }
}
