//! The index of names.
ghost use Rattle.std.specs.Prelude.{◌≡◌, [], ◌∷◌, ◌++◌, not, length, position, if◌then◌else◌, IfOk, OnOk, OnErr};
ghost use Rattle.std.specs.List.{list_any};
ghost use Rattle.std.specs.Str.{bytes_eq};
ghost use Rattle.finite_sets.specs.Lists.{Distinct};

use indexmap::IndexSet;
use std::alloc::{AllocError, Global};
use std::marker::Model;

/// Names, each once and in the order of arrival. Contracts see them as a list.
pub struct NameIndex {
    alloc: Global,
    names: IndexSet<Vec<u8>>,
}

impl Drop for NameIndex {
    fn drop(self) {
        let NameIndex { alloc: _, names: _ } = self;
    }
}

impl Model for NameIndex {
    ghost use Rattle.std.specs.Prelude.{ℕ, List, map};
    ghost use Rattle.finite_sets.specs.Lists.{Distinct};

    ghost Value = { List (List ℕ) };

    ghost view = { λ index. map (λ name. name.items) index.names.keys };

    ghost invariant = { λ index. Distinct (map (λ name. name.items) index.names.keys) };
}

impl NameIndex {
    /// No names. It takes no memory.
    pub fn new(alloc: Global) -> NameIndex
        ensures { result ≡ [] }
    {
        NameIndex {
            alloc,
            names: IndexSet::new(alloc),
        }
    }

    /// No name stands there twice.
    pub fn distinct(&self)
        ensures { Distinct self.now }
    {
        let _ = &self.names;
    }

    /// How many names there are.
    pub fn len(&self) -> usize
        ensures { result ≡ length self.now }
    {
        self.names.len()
    }

    /// The number of a name: how many arrived before it. It takes a constant number of steps on an average, and no memory.
    pub fn find(&self, name: &[u8]) -> Option<usize>
        ensures { result ≡ position (bytes_eq name.now) self.now }
    {
        self.names.get_index_of(name)
    }

    /// Adds a name, where it is not there yet, and tells whether it was new. Want of memory alone refuses, and nothing is changed then.
    pub fn insert(&mut self, name: &[u8]) -> Result<bool, AllocError>
        ensures new { IfOk result (λ added. added ≡ not (list_any (bytes_eq name.now) self.old)) }
        ensures names { OnOk result (self.new ≡ (if list_any (bytes_eq name.now) self.old then self.old else self.old ++ name.now ∷ [])) }
        ensures refused { OnErr result (self.new ≡ self.old) }
    {
        let key = Vec::from_slice(self.alloc, name)?;
        let (_, added) = self.names.insert_full(key)?;
        Ok(added)
    }
}
