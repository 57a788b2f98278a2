// Pairs of types that are looked up without a search.
ghost use Rattle.std.specs.Prelude.{◌≡◌, ◌++◌, ◌+◌, ◌*◌, ◌<◌, ◌∷◌, [], ℕ, false, length, slice_index_or, OnOk};
ghost use Rattle.tech_draft.specs.ListLines.{has_pair};
ghost use Rattle.tech_draft.specs.PairFlags.{flag_place, HasFlags};

use std::alloc::{AllocError, Global};
use std::marker::Model;
use tech_model::TypeId;

/// The flags of one first type: one for each number that a second may have.
const FLAGS_OF_ONE: usize = 256;

/// Pairs of types, in the order in which they came.
#[derive(Drop)]
pub(crate) struct PairList {
    pairs: Vec<(TypeId, TypeId)>,
    // A flag for each two types, up to the last that make a pair.
    flags: Vec<bool>,
}

impl Model for PairList {
    ghost use Rattle.std.specs.Prelude.{List};
    ghost use Rattle.tech_model.specs.declared.raw.TypeId.{TypeId};
    ghost use Rattle.tech_draft.specs.PairFlags.{HasFlags};

    ghost Value = { List (TypeId × TypeId) };

    ghost view = { λ list. list.pairs.items };

    ghost invariant = { λ list. HasFlags list.flags.items list.pairs.items };
}

impl PairList {
    /// A list without pairs. It takes no memory.
    pub(crate) fn new(alloc: Global) -> PairList
        ensures { result ≡ [] }
    {
        PairList {
            pairs: Vec::new(alloc),
            flags: Vec::new(alloc),
        }
    }

    /// Whether the pair is in the list.
    pub(crate) fn has(&self, first: TypeId, second: TypeId) -> bool
        ensures { result ≡ has_pair self.now first second }
    {
        match self.flags.get(place_of(first, second)) {
            Some(&flag) => flag,
            None => false,
        }
    }

    /// Puts a pair at the end.
    pub(crate) fn push(&mut self, first: TypeId, second: TypeId) -> Result<(), AllocError>
        ensures { OnOk result (self.new ≡ self.old ++ (first, second) ∷ []) }
    {
        let place = place_of(first, second);
        make_room(&mut self.flags, place)?;
        self.pairs.push((first, second))?;
        self.flags[place] = true;
        Ok(())
    }

    /// The pairs.
    pub(crate) fn into_items(self) -> Vec<(TypeId, TypeId)>
        ensures { result.items ≡ self }
    {
        self.pairs
    }
}

// The place of the flag of two types.
fn place_of(first: TypeId, second: TypeId) -> usize
    ensures { result ≡ flag_place first second }
{
    usize::from(first.0) * FLAGS_OF_ONE + usize::from(second.0)
}

// Sees to it that the flags reach this place.
fn make_room(flags: &mut Vec<bool>, place: usize) -> Result<(), AllocError>
    ensures same { (k : ℕ) → slice_index_or flags.new.items k false ≡ slice_index_or flags.old.items k false }
    ensures room { OnOk result (place < length flags.new.items) }
{
    while flags.len() <= place {
        flags.push(false)?;
    }
    Ok(())
}
