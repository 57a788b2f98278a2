//! The symbols of a text, which are found by their numbers.
ghost use Rattle.std.specs.Prelude.{◌≡◌, ◌++◌, ◌∷◌, [], false, is_some, IfSome, OnOk};
ghost use Rattle.cif_reading.specs.Drafts.{has_symbol, symbol_place};

use cif_model::{CifItem, CifSymbol};
use indexmap::IndexSet;
use names_lists::List;
use std::alloc::{AllocError, Global};
use std::marker::Model;

/// Symbols in the order of their definitions, with an index of their numbers. Contracts see them as a list.
#[derive(Drop)]
pub struct SymbolList {
    entries: Vec<CifSymbol>,
    numbers: IndexSet<i64>,
}

impl Model for SymbolList {
    ghost use Rattle.std.specs.Prelude.{◌≡◌, List as Items, map};
    ghost use Rattle.cif_model.specs.declared.cifs.CifSymbol.{CifSymbol as Symbol};

    ghost Value = { Items Symbol };

    ghost view = { λ symbols. symbols.entries.items };

    ghost invariant = { λ symbols. symbols.numbers.keys ≡ map (λ symbol. symbol.number) symbols.entries.items };
}

impl SymbolList {
    /// No symbols. It takes no memory.
    pub fn new(alloc: Global) -> SymbolList
        ensures { result ≡ [] }
    {
        SymbolList {
            entries: Vec::new(alloc),
            numbers: IndexSet::new(alloc),
        }
    }

    /// The place of the symbol with the number. It takes a constant number of steps on an average.
    pub fn find(&self, n: i64) -> Option<usize>
        ensures found { is_some result ≡ has_symbol n self.now }
        ensures place { IfSome result (λ place. place ≡ symbol_place n self.now) }
    {
        self.numbers.get_index_of(&n)
    }

    /// Adds a symbol with a new number. Want of memory alone refuses.
    pub fn push(&mut self, number: i64, items: Vec<CifItem>) -> Result<(), AllocError>
        requires { has_symbol number self.old ≡ false }
        ensures { OnOk result (self.new ≡ self.old ++ (record { number = number; items = items.items }) ∷ []) }
    {
        let symbol = CifSymbol {
            number,
            items: List::of(items),
        };
        self.entries.push(symbol)?;
        match self.numbers.insert_full(number) {
            Ok(_) => Ok(()),
            Err(_) => {
                self.entries.pop();
                Err(AllocError)
            }
        }
    }

    /// The symbols. It takes no memory.
    pub fn into_list(self) -> List<CifSymbol>
        ensures { result ≡ self }
    {
        let SymbolList {
            entries,
            numbers: _,
        } = self;
        List::of(entries)
    }
}
