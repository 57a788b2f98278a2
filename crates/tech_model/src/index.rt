//! Which layer a word names.
ghost use Rattle.std.specs.Prelude.{◌≡◌, ℕ, List, Some, None, if◌then◌else◌, OnOk, OnErr};
ghost use Rattle.std.specs.Option.{option_map};
ghost use Rattle.std.specs.Str.{bytes_eq};
ghost use Rattle.tech_model.specs.LayerWords.{layer_in};
ghost use Rattle.tech_model.specs.Types.{layer_number};

use crate::raw::LayerId;
use std::alloc::{AllocError, Global};
use std::collections::BTreeMap;
use std::marker::Model;

/// Words, each with the layer that it names. A look-up takes the logarithm of their number.
#[derive(Drop)]
pub struct LayerIndex {
    alloc: Global,
    layers: BTreeMap<Vec<u8>, u8>,
}

impl Model for LayerIndex {
    ghost use Rattle.std.specs.Prelude.{ℕ, List, map};

    ghost Value = { List (List ℕ × ℕ) };

    ghost view = { λ index. map (λ entry. (entry.0.items, entry.1)) index.layers.entries };
}

impl LayerIndex {
    /// An index without words. It takes no memory.
    pub fn new(alloc: Global) -> LayerIndex
        ensures { (word : List ℕ) → layer_in result word ≡ None }
    {
        LayerIndex {
            alloc,
            layers: BTreeMap::new(alloc),
        }
    }

    /// The layer that the word names, where it names one.
    pub fn find(&self, word: &[u8]) -> Option<LayerId>
        ensures { result ≡ option_map layer_number (layer_in self.now word.now) }
    {
        self.layers.get(word).map(|&layer| LayerId(layer))
    }

    /// Lets a new word name a layer.
    pub fn add(&mut self, word: &[u8], layer: LayerId) -> Result<(), AllocError>
        requires { layer_in self.old word.now ≡ None }
        ensures added { OnOk result ((other : List ℕ) → layer_in self.new other
            ≡ (if bytes_eq other word.now then Some layer.0 else layer_in self.old other)) }
        ensures unchanged { OnErr result (self.new ≡ self.old) }
    {
        let word = Vec::from_slice(self.alloc, word)?;
        self.layers.insert(word, layer.0)?;
        Ok(())
    }
}
