//! Full names by numbers.
ghost use Rattle.std.specs.Prelude.{◌≡◌, ◌⊎◌, ◌<◌, ◌++◌, length, IfOk, IfErr, IfSome, IfNone, OnOk};
ghost use Rattle.circuit_model.specs.Elements.{AreRecords};
ghost use Rattle.element_tree.specs.Trees.{IsTreeOf};
ghost use Rattle.full_names.specs.NameLists.{HasFewNodes, HasNoNameFault, IsNameFaultOf};
ghost use Rattle.full_names.specs.Names.{AreNames, IsReached, IsLocalNumber, IsSpotOf, LacksName, HasSpot, GivesName, GivesText, IsOriginOf};

use crate::byte_counts::check_bytes;
use crate::globals::{GlobalName, global_names, global_place};
use crate::keys::sorted_keys;
use crate::orders::{slots_of, standings};
use crate::own_names::{OwnName, RecordNames, all_record_names, is_global_name, place_of};
use crate::paths::append_path;
use crate::places::{Place, Places, all_places};
use crate::reached::{Reached, reached_records};
use circuit_model::FlatFault;
use element_tree::ElementTree;
use ext_model::CellExt;
use std::alloc::{AllocError, Global};

/// Which name of a record one is: by its place among the record's own names, or among the global names of all.
#[derive(Clone, Copy, Debug, PartialEq, Eq)]
pub enum Spot {
    Local(usize),
    Global(usize),
}

/// Where a full name comes from: the first element that has it, and the first node there that does.
#[derive(Clone, Copy, Debug, PartialEq, Eq)]
pub struct Origin {
    pub element: usize,
    pub node: usize,
}

/// The full names of the nodes of a tree, numbered in name order.
#[derive(Drop)]
pub struct FullNames<'a> {
    exts: &'a [CellExt],
    root: usize,
    tree: &'a ElementTree,
    /// How many there are.
    pub count: usize,
    /// The global names in name order, which come before all others.
    globals: Vec<GlobalName<'a>>,
    /// For each record that is reached, its own names.
    records: Vec<RecordNames<'a>>,
    /// For each element, where its names begin in `places`.
    bases: Vec<usize>,
    /// The names that are not global, element by element.
    places: Vec<Place>,
    /// For each number of such a name in name order, which of `places` it is.
    slots: Vec<usize>,
    /// For each of `places`, its number in name order among those that are not global.
    standings: Vec<usize>,
}

/// The full names of the nodes of the tree whose root is that record. It takes time near-linear in the names of all elements.
///
/// Where they have more than `MOST_NAME_BYTES` bytes, each name counted once, they are refused as `TooMany(Names)`; beside that `Memory`
/// alone refuses.
pub fn full_names<'a>(
    alloc: Global,
    exts: &'a [CellExt],
    root: usize,
    tree: &'a ElementTree,
) -> Result<FullNames<'a>, FlatFault>
    requires records { AreRecords exts.now }
    requires root { root < length exts.now }
    requires tree { IsTreeOf exts.now root tree.now }
    requires nodes { HasFewNodes exts.now root }
    ensures few { IfOk result (λ names. HasNoNameFault exts.now root) }
    ensures names { IfOk result (λ names. AreNames names) }
    ensures exts { IfOk result (λ names. names.exts.now ≡ exts.now) }
    ensures root { IfOk result (λ names. names.root ≡ root) }
    ensures tree { IfOk result (λ names. names.tree.now ≡ tree.now) }
    ensures fault { IfErr result (λ fault. (fault ≡ FlatFault.Memory) ⊎ IsNameFaultOf exts.now root fault) }
{
    let Reached { cells, firsts } = reached_records(alloc, exts.len(), tree)?;
    let records = all_record_names(alloc, exts, &cells)?;
    let globals = global_names(alloc, tree, &firsts, &records)?;
    check_bytes(tree, &records, &globals)?;
    let Places { bases, places } = all_places(alloc, tree, &records)?;
    let keys = sorted_keys(alloc, tree, &records, &places)?;
    let slots = slots_of(alloc, &keys)?;
    let standings = standings(alloc, &slots)?;
    Ok(FullNames {
        exts,
        root,
        tree,
        count: globals.len() + slots.len(),
        globals,
        records,
        bases,
        places,
        slots,
        standings,
    })
}

/// A name that is not global: the number of its element, and what its record has of it.
#[derive(Clone, Copy)]
struct LocalName<'a> {
    element: usize,
    name: OwnName<'a>,
}

impl<'a> FullNames<'a> {
    // the name with this number among those that are not global
    fn local_name(&self, number: usize) -> LocalName<'a>
        requires names { AreNames self.now }
        requires number { number < length self.now.slots.items }
        ensures { IsLocalNumber self.now number result.element result.name }
    {
        let place = self.places[self.slots[number]];
        let cell = self.tree.elements.items()[place.element].cell;
        LocalName {
            element: place.element,
            name: self.records[cell].locals[place.own],
        }
    }

    /// Which name of the record this one is: `None` where no node of the record has it. The record is that of an element. It takes a
    /// search among the record's names, for a global name another among all global ones, and no memory.
    pub fn spot(&self, cell: usize, name: &[u8]) -> Option<Spot>
        requires names { AreNames self.now }
        requires reached { IsReached self.now cell }
        ensures some { IfSome result (λ spot. IsSpotOf self.now cell name.now spot) }
        ensures none { IfNone result (LacksName self.now cell name.now) }
    {
        let own = &self.records[cell];
        if is_global_name(name) {
            place_of(&own.globals, name)?;
            let place = global_place(&self.globals, name)?;
            Some(Spot::Global(place))
        } else {
            let place = place_of(&own.locals, name)?;
            Some(Spot::Local(place))
        }
    }

    /// The number of a name of an element's record. It takes no memory.
    pub fn number(&self, element: usize, spot: Spot) -> usize
        requires names { AreNames self.now }
        requires spot { HasSpot self.now element spot }
        ensures { GivesName self.now element spot result }
    {
        match spot {
            Spot::Local(own) => self.globals.len() + self.standings[self.bases[element] + own],
            Spot::Global(place) => place,
        }
    }

    /// Puts a full name at the end of a text. Want of memory alone refuses, and part of the name may then stand there.
    pub fn append(&self, number: usize, out: &mut Vec<u8>) -> Result<(), AllocError>
        requires names { AreNames self.now }
        requires number { number < self.now.count }
        ensures { OnOk result (GivesText self.now number out.old.items out.new.items) }
    {
        if number < self.globals.len() {
            return out.extend_from_slice(self.globals[number].text);
        }
        let local = self.local_name(number - self.globals.len());
        append_path(self.exts, self.tree, local.element, out)?;
        out.extend_from_slice(local.name.text)
    }

    /// Where a full name comes from. It takes no memory.
    pub fn origin(&self, number: usize) -> Origin
        requires names { AreNames self.now }
        requires number { number < self.now.count }
        ensures { IsOriginOf self.now number result }
    {
        if number < self.globals.len() {
            let name = self.globals[number];
            return Origin {
                element: name.element,
                node: name.node,
            };
        }
        let local = self.local_name(number - self.globals.len());
        Origin {
            element: local.element,
            node: local.name.node,
        }
    }
}
