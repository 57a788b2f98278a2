//! The cells that a load has read, with their names found by hashing.
ghost use Rattle.std.specs.Prelude.{◌≡◌, ◌<◌, [], ◌∷◌, ◌++◌, length, OnOk};
ghost use Rattle.std.specs.List.{list_any};
ghost use Rattle.std.specs.Str.{bytes_eq};
ghost use Rattle.mag_text.specs.CellLibrary.Additions.{first_scale};
ghost use Rattle.cell_loading.specs.steps.ReadCells.{names_in, uses_at};

use mag_text::cell_bodies::{CellBody, CellUse};
use names_lists::Name;
use std::alloc::{AllocError, Global};
use std::collections::HashSet;
use std::marker::Model;

/// Cells in the order in which their files were read. Contracts see them as the list of their names and bodies. A look-up of a name takes
/// the same time however many there are.
pub struct ReadCells {
    alloc: Global,
    entries: Vec<(Name, CellBody)>,
    names: HashSet<Vec<u8>>,
}

impl Drop for ReadCells {
    fn drop(self) {
        let ReadCells {
            alloc: _,
            entries: _,
            names: _,
        } = self;
    }
}

impl Model for ReadCells {
    ghost use Rattle.std.specs.Prelude.{List, ℕ};
    ghost use Rattle.mag_text.specs.CellBodies.declared.bodies.CellBody.{CellBody};
    ghost use Rattle.cell_loading.specs.steps.ReadCells.{AreNamesOf};

    ghost Value = { List (List ℕ × CellBody) };

    ghost use Rattle.std.specs.Coded.{coded×, coded_list, coded_ℕ};
    ghost use Rattle.mag_text.specs.CellBodies.contracts.bodies.CellBody.{the_row as body_row};

    ghost coded = { coded_list (coded× (coded_list coded_ℕ) body_row.coded) };

    ghost view = { λ cells. cells.entries.items };

    ghost invariant = { λ cells. AreNamesOf cells.names.keys cells.entries.items };
}

impl ReadCells {
    /// No cell. It takes no memory.
    pub fn new(alloc: Global) -> ReadCells
        ensures { result ≡ [] }
    {
        ReadCells {
            alloc,
            entries: Vec::new(alloc),
            names: HashSet::new(alloc),
        }
    }

    /// How many cells there are.
    pub fn len(&self) -> usize
        ensures { result ≡ length self.now }
    {
        self.entries.len()
    }

    /// Whether a cell has the name.
    pub fn has(&self, name: &[u8]) -> bool
        ensures { result ≡ list_any (bytes_eq name.now) (names_in self.now) }
    {
        self.names.contains(name)
    }

    /// The scale of the first cell.
    pub fn first_scale(&self) -> Option<(u32, u32)>
        ensures { result ≡ first_scale self.now }
    {
        match self.entries.first() {
            Some(first) => Some(first.1.scale),
            None => None,
        }
    }

    /// The uses of the cell at the position.
    pub fn uses_at(&self, cell: usize) -> &[CellUse]
        requires { cell < length self.now }
        ensures { result.now ≡ uses_at self.now cell }
    {
        self.entries[cell].1.uses.items()
    }

    /// Adds a cell at the end.
    pub fn push(&mut self, name: Name, body: CellBody) -> Result<(), AllocError>
        ensures { OnOk result (self.new ≡ self.old ++ (name, body) ∷ []) }
    {
        let word = Vec::from_slice(self.alloc, name.bytes())?;
        // With room for the cell, want of memory leaves the two as they are.
        self.entries.reserve(1)?;
        self.names.insert(word)?;
        self.entries.push((name, body))?;
        Ok(())
    }

    /// The cells.
    pub fn into_vec(self) -> Vec<(Name, CellBody)>
        ensures { result.items ≡ self }
    {
        let ReadCells {
            alloc: _,
            entries,
            names: _,
        } = self;
        entries
    }
}
