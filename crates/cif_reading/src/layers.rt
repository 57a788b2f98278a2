//! The layers of a text, which are found by their names.
ghost use Rattle.std.specs.Prelude.{◌≡◌, ◌++◌, ◌∷◌, [], false, IfOk, OnOk};
ghost use Rattle.std.specs.List.{list_any};
ghost use Rattle.std.specs.Str.{bytes_eq};
ghost use Rattle.cif_reading.specs.Additions.{with_layer};
ghost use Rattle.cif_reading.specs.Drafts.{layer_place};

use name_index::NameIndex;
use names_lists::{List, Name};
use std::alloc::{AllocError, Global};
use std::marker::Model;

/// Layers in the order of their first boxes, with an index of their names. Contracts see them as a list.
#[derive(Drop)]
pub struct LayerList {
    alloc: Global,
    entries: Vec<Name>,
    names: NameIndex,
}

impl Model for LayerList {
    ghost use Rattle.std.specs.Prelude.{◌≡◌, ℕ, List as Items};

    ghost Value = { Items (Items ℕ) };

    ghost view = { λ layers. layers.entries.items };

    ghost invariant = { λ layers. layers.names ≡ layers.entries.items };
}

impl LayerList {
    /// No layers. It takes no memory.
    pub fn new(alloc: Global) -> LayerList
        ensures { result ≡ [] }
    {
        LayerList {
            alloc,
            entries: Vec::new(alloc),
            names: NameIndex::new(alloc),
        }
    }

    // Adds a new layer at the end.
    fn push(&mut self, name: &Name) -> Result<(), AllocError>
        requires { list_any (bytes_eq name.now) self.old ≡ false }
        ensures { OnOk result (self.new ≡ self.old ++ name.now ∷ []) }
    {
        self.entries.push(name.copy(self.alloc)?)?;
        match self.names.insert(name.bytes()) {
            Ok(_) => Ok(()),
            Err(_) => {
                self.entries.pop();
                Err(AllocError)
            }
        }
    }

    /// The place of a layer, which is put at the end if it is new. It takes a constant number of steps on an average.
    pub fn place(&mut self, name: &Name) -> Result<usize, AllocError>
        ensures place { IfOk result (λ place. place ≡ layer_place name.now self.old) }
        ensures layers { OnOk result (self.new ≡ with_layer name.now self.old) }
    {
        match self.names.find(name.bytes()) {
            Some(place) => Ok(place),
            None => {
                let place = self.names.len();
                self.push(name)?;
                Ok(place)
            }
        }
    }

    /// The layers. It takes no memory.
    pub fn into_list(self) -> List<Name>
        ensures { result ≡ self }
    {
        let LayerList {
            alloc: _,
            entries,
            names: _,
        } = self;
        List::of(entries)
    }
}
