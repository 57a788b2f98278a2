//! The records that were read, with their cells found by hashing.
ghost use Rattle.std.specs.Prelude.{◌≡◌, [], ◌∷◌, ◌++◌, false, nat_le, length, OnOk};
ghost use Rattle.std.specs.List.{position_or_len};
ghost use Rattle.std.specs.Str.{bytes_eq};
ghost use Rattle.ext_loading.specs.ExtFiles.{cells_read, is_read};

use crate::limits::MOST_READ_CELLS;
use ext_model::{ArrayExt, ArrayUse};
use name_index::NameIndex;
use std::alloc::{AllocError, Global};
use std::marker::Model;
use use_orders::UseGraph;

/// Records in the order in which their files were read, no two of one cell. Contracts see them as a list. A look-up of a cell takes the
/// same time however many there are.
pub struct ReadExts {
    exts: Vec<ArrayExt>,
    cells: NameIndex,
}

impl Drop for ReadExts {
    fn drop(self) {
        let ReadExts { exts: _, cells: _ } = self;
    }
}

impl Model for ReadExts {
    ghost use Rattle.std.specs.Prelude.{◌≡◌, List};
    ghost use Rattle.ext_model.specs.declared.arrays.ArrayExt.{ArrayExt};
    ghost use Rattle.ext_loading.specs.ExtFiles.{cells_read};

    ghost Value = { List ArrayExt };

    ghost view = { λ read. read.exts.items };

    ghost invariant = { λ read. read.cells ≡ cells_read read.exts.items };
}

impl ReadExts {
    /// No record. It takes no memory.
    pub fn new(alloc: Global) -> ReadExts
        ensures { result ≡ [] }
    {
        ReadExts {
            exts: Vec::new(alloc),
            cells: NameIndex::new(alloc),
        }
    }

    /// Whether the file of the cell of this name was read.
    pub fn has(&self, name: &[u8]) -> bool
        ensures { result ≡ is_read self.now name.now }
    {
        self.cells.find(name).is_some()
    }

    /// Whether there is no room for one more.
    pub fn is_full(&self) -> bool
        ensures { result ≡ nat_le MOST_READ_CELLS (length self.now) }
    {
        self.exts.len() >= MOST_READ_CELLS
    }

    /// The position of the record of this cell. It is past the last where there is none.
    pub fn position(&self, name: &[u8]) -> usize
        ensures { result ≡ position_or_len (bytes_eq name.now) (cells_read self.now) }
    {
        self.cells.find(name).unwrap_or(self.cells.len())
    }

    /// Adds a record at the end.
    pub fn push(&mut self, ext: ArrayExt) -> Result<(), AllocError>
        requires { is_read self.old ext.cell ≡ false }
        ensures { OnOk result (self.new ≡ self.old ++ ext ∷ []) }
    {
        // With room for the record, want of memory leaves the two as they are.
        self.exts.reserve(1)?;
        self.cells.insert(ext.cell.bytes())?;
        self.exts.push_reserved(ext);
        Ok(())
    }

    /// The records.
    pub fn exts(&self) -> &[ArrayExt]
        ensures { result.now ≡ self.now }
    {
        self.exts.as_slice()
    }

    /// The records.
    pub fn into_vec(self) -> Vec<ArrayExt>
        ensures { result.items ≡ self }
    {
        let ReadExts { exts, cells: _ } = self;
        exts
    }
}

/// The uses of a record lead to those of the cells that it uses.
impl UseGraph for ReadExts {
    ghost use Rattle.ext_loading.specs.Loads.{children_in};

    ghost children = { children_in };

    fn cell_count(&self) -> usize {
        self.exts.len()
    }

    fn use_count(&self, cell: usize) -> usize {
        self.exts[cell].uses.items().len()
    }

    fn child(&self, cell: usize, place: usize) -> usize {
        self.position(self.exts[cell].uses.items()[place].cell.bytes())
    }
}
