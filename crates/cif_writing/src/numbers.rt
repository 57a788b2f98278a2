//! The numbers of symbols.
ghost use Rattle.std.specs.Prelude.{◌≡◌, map, IfOk};
ghost use Rattle.geo_core.specs.FiniteSets.Lists.{Distinct};
ghost use Rattle.cif_writing.specs.Symbols.{symbol_number};

use ext_model::CellKey;
use indexmap::IndexSet;
use std::alloc::{AllocError, Global};
use std::marker::Model;

/// The cells that get symbols, in order, each found by its key. Contracts see them as the list of them.
#[derive(Drop)]
pub struct SymbolNumbers {
    cells: IndexSet<usize>,
}

impl Model for SymbolNumbers {
    ghost use Rattle.std.specs.Prelude.{ℕ, List};

    ghost Value = { List ℕ };

    ghost view = { λ numbers. numbers.cells.keys };
}

impl SymbolNumbers {
    /// The numbers of the symbols of these cells, no two of which are one. Want of memory alone refuses.
    pub fn of(alloc: Global, order: &[CellKey]) -> Result<SymbolNumbers, AllocError>
        requires { Distinct (map (λ key. key.0) order.now) }
        ensures { IfOk result (λ numbers. numbers ≡ map (λ key. key.0) order.now) }
    {
        let mut cells = IndexSet::new(alloc);
        for key in order {
            cells.insert(key.0)?;
        }
        Ok(SymbolNumbers { cells })
    }

    /// The number of a cell's symbol: its place in the order, counted from 1. A cell that is not there gets the number behind the last.
    pub fn of_cell(&self, cell: CellKey) -> usize
        ensures { result ≡ symbol_number self.now cell.0 }
    {
        let count = self.cells.len();
        self.cells.get_index_of(&cell.0).unwrap_or(count) + 1
    }
}
