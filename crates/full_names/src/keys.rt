//! The order of full names that are not global, by numbers.

ghost use Rattle.std.specs.Prelude.{◌≡◌, length, All, IfOk};
ghost use Rattle.full_names.specs.Reached.{AreOfRecords};
ghost use Rattle.ext_model.specs.NodeNames.{name_kind};
ghost use Rattle.full_names.specs.steps.Keys.{is_generated, key_at, IsFitPlace, AreKeys};

use crate::own_names::RecordNames;
use crate::places::Place;
use element_tree::ElementTree;
use ext_model::{NameKind, kind_of_name};
use std::alloc::{AllocError, Global};

/// What tells where a full name stands: no two names have one key, and keys are in the order of names.
#[derive(Clone, Copy, Debug, PartialEq, Eq, PartialOrd, Ord)]
pub(crate) struct NameKey {
    /// Whether the name is a generated one: labels come first.
    pub generated: bool,
    pub depth: usize,
    pub length: usize,
    /// The rank of the element.
    pub rank: usize,
    /// The number of the name among those of all elements.
    pub slot: usize,
}

// whether a name of a node is a generated one
fn is_generated(name: &[u8]) -> bool
    ensures { result ≡ is_generated (name_kind name.now) }
{
    match kind_of_name(name) {
        NameKind::Generated => true,
        NameKind::Global | NameKind::Label => false,
    }
}

// the key of the name with this number
fn key_of(tree: &ElementTree, records: &[RecordNames<'_>], place: Place, slot: usize) -> NameKey
    requires cells { AreOfRecords (length records.now) tree.now.elements }
    requires place { IsFitPlace tree.now.elements records.now place }
    ensures { result ≡ key_at tree.now.elements records.now place slot }
{
    let element = &tree.elements.items()[place.element];
    let text = records[element.cell].locals[place.own].text;
    NameKey {
        generated: is_generated(text),
        depth: element.depth,
        length: element.bytes + text.len(),
        rank: element.rank,
        slot,
    }
}

/// The keys of the names, in order. It takes time for a sort of them.
pub(crate) fn sorted_keys(
    alloc: Global,
    tree: &ElementTree,
    records: &[RecordNames<'_>],
    places: &[Place],
) -> Result<Vec<NameKey>, AllocError>
    requires cells { AreOfRecords (length records.now) tree.now.elements }
    requires places { All (IsFitPlace tree.now.elements records.now) places.now }
    ensures { IfOk result (λ keys. AreKeys tree.now.elements records.now places.now keys.items) }
{
    let mut keys = Vec::with_capacity(alloc, places.len())?;
    for (slot, place) in places.iter().enumerate() {
        keys.push(key_of(tree, records, *place, slot))?;
    }
    keys.sort_unstable();
    Ok(keys)
}
