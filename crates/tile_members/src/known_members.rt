//! Members that have numbers.
ghost use Rattle.std.specs.Prelude.{◌≡◌, [], ◌∷◌, ◌++◌, ℕ, false, if◌then◌else◌, length, IfOk, Some};
ghost use Rattle.std.specs.List.{list_any};
ghost use Rattle.std.specs.Str.{bytes_eq};
ghost use Rattle.std.specs.HashMap.{get as number_at};
ghost use Rattle.finite_sets.specs.Lists.{Distinct};
ghost use Rattle.tile_members.specs.steps.KnownMembers.{same_key, AddsName};

use name_index::NameIndex;
use names_lists::Name;
use std::alloc::{AllocError, Global};
use std::collections::HashMap;

/// The number of something that stands at or below a cell, and the number of a node of it.
type NodeKey = (u32, usize);

/// The names of members, each once and by its number, and the numbers of the members that nodes are known to be of.
#[derive(Drop)]
pub struct KnownMembers {
    index: NameIndex,
    names: Vec<Name>,
    numbers: HashMap<NodeKey, usize>,
}

impl KnownMembers {
    /// No names. It takes no memory.
    pub fn new(alloc: Global) -> KnownMembers
        ensures index { result.index ≡ [] }
        ensures names { result.names.items ≡ [] }
        ensures numbers { result.numbers.entries ≡ [] }
    {
        KnownMembers {
            index: NameIndex::new(alloc),
            names: Vec::new(alloc),
            numbers: HashMap::new(alloc),
        }
    }

    /// The number of the member that a node is known to be of.
    pub fn number_of(&self, key: NodeKey) -> Option<usize>
        ensures { result ≡ number_at same_key self.now.numbers key }
    {
        self.numbers.get(&key).copied()
    }

    // The number of a name that is not there yet, and comes behind the others.
    fn add_name(&mut self, alloc: Global, name: &[u8]) -> Result<usize, AllocError>
        requires indexed { self.old.index ≡ self.old.names.items }
        requires new { list_any (bytes_eq name.now) self.old.index ≡ false }
        ensures index { IfOk result (λ _. self.new.index ≡ self.new.names.items) }
        ensures numbers { self.new.numbers ≡ self.old.numbers }
        ensures added { IfOk result (λ number. (self.new.names.items ≡ self.old.names.items ++ name.now ∷ []) × (number ≡ length self.old.names.items)) }
    {
        let number = self.names.len();
        let kept = Name::of(alloc, name)?;
        self.index.insert(name)?;
        self.names.push(kept)?;
        Ok(number)
    }

    // The number of a name, which is a new one where the name is not there yet.
    fn enter(&mut self, alloc: Global, name: &[u8]) -> Result<usize, AllocError>
        requires { self.old.index ≡ self.old.names.items }
        ensures index { IfOk result (λ _. self.new.index ≡ self.new.names.items) }
        ensures numbers { self.new.numbers ≡ self.old.numbers }
        ensures added { IfOk result (AddsName self.old.names.items self.new.names.items name.now) }
    {
        match self.index.find(name) {
            Some(number) => Ok(number),
            None => self.add_name(alloc, name),
        }
    }

    /// The number of the member of this name, which a node is of. Want of memory alone refuses.
    pub fn add(&mut self, alloc: Global, key: NodeKey, name: &[u8]) -> Result<usize, AllocError>
        requires { self.old.index ≡ self.old.names.items }
        ensures index { IfOk result (λ _. self.new.index ≡ self.new.names.items) }
        ensures numbers { IfOk result (λ number. (other : ℕ × ℕ) → number_at same_key self.new.numbers other
            ≡ (if same_key key other then Some number else number_at same_key self.old.numbers other)) }
        ensures added { IfOk result (AddsName self.old.names.items self.new.names.items name.now) }
    {
        let number = self.enter(alloc, name)?;
        self.numbers.insert(key, number)?;
        Ok(number)
    }

    /// The names, by their numbers.
    pub fn into_names(self) -> Vec<Name>
        requires { self.index ≡ self.names.items }
        ensures names { result.items ≡ self.names.items }
        ensures distinct { Distinct result.items }
    {
        self.index.distinct();
        self.names
    }
}
