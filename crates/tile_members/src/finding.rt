//! Finding the members that have tiles.
ghost use Rattle.std.specs.Prelude.{◌≡◌, ◌+◌, ◌≤◌, [], IfOk};
ghost use Rattle.finite_sets.specs.Lists.{Distinct};
ghost use Rattle.element_paths.specs.CellLibrary.LayoutTrees.{tree_at};
ghost use Rattle.element_paths.specs.CellLibrary.Libraries.{seen};
ghost use Rattle.element_paths.specs.LibraryTrees.NamedCells.{named_tree_at};
ghost use Rattle.tile_members.specs.steps.Finding.{HasMembers, IsFinderOf};
ghost use Rattle.tile_members.specs.steps.KnownMembers.{AddsNameOrNone, IsOfMember};
ghost use Rattle.tile_members.specs.steps.OpenedCells.{HasOpenNode};
ghost use Rattle.tile_members.specs.TileMembers.{HasTile, IsPartTile};

use crate::known_members::KnownMembers;
use crate::member_names::MemberNames;
use crate::members_have_whole_tiles;
use crate::opened_cells::OpenedCells;
use element_paths::cell_library::{Opened, PartTile, Reader};
use ext_model::{CellKey, ExtTable};
use names_lists::Name;
use std::alloc::{AllocError, Global};
use std::sync::ledger::Ledger;

/// Finds the members of a cell that have tiles of its parts, and keeps what it learns on the way.
#[derive(Drop)]
pub struct MemberFinder<'a> {
    alloc: Global,
    cell: CellKey,
    opened: OpenedCells,
    names: MemberNames<'a>,
    known: KnownMembers,
}

impl<'a> MemberFinder<'a> {
    /// A finder of members of the cell. It takes no memory now.
    pub fn of(
        alloc: Global,
        library: &'a Reader<'a>,
        records: &'a ExtTable,
        cell: CellKey,
    ) -> MemberFinder<'a>
        ensures finder { IsFinderOf library.now result }
        ensures cell { result.cell ≡ cell }
        ensures records { result.names.records.now ≡ records.now }
        ensures names { result.known.names.items ≡ [] }
    {
        MemberFinder {
            alloc,
            cell,
            opened: OpenedCells::new(alloc),
            names: MemberNames::of(alloc, library, records),
            known: KnownMembers::new(alloc),
        }
    }

    // The number of the member that a node of a tile's cell is of, which becomes known.
    fn add_node(
        &mut self,
        library: &Reader<'_>,
        tile: &PartTile,
        node: usize,
    ) -> Result<usize, AllocError>
        requires members { HasMembers library.now self.old.names.records.now self.old.cell.0 }
        requires finder { IsFinderOf library.now self.old }
        requires tile { IsPartTile (tree_at (seen library.now) self.old.cell.0) tile.now }
        requires node { HasOpenNode library.now self.old.opened tile.now node }
        ensures finder { IfOk result (λ _. IsFinderOf library.now self.new) }
        ensures cell { self.new.cell ≡ self.old.cell }
        ensures records { self.new.names.records ≡ self.old.names.records }
        ensures opened { self.new.opened ≡ self.old.opened }
        ensures added { IfOk result (AddsNameOrNone self.old.known.names.items self.new.known.names.items) }
        ensures is { IfOk result (IsOfMember (seen library.now) self.old.cell.0 self.old.opened self.new.known.names.items (tile.now.element, node)) }
    {
        library.lawful();
        let opened = self.opened.at(tile.of);
        let name = self.names.name_of(
            library,
            self.cell,
            tile.element as usize,
            opened.name_of(node),
        )?;
        let key = (tile.element, node);
        let number = self.known.add(self.alloc, key, name.as_slice())?;
        Ok(number)
    }

    /// The number of the member that has the tile. It takes a step where the cell whose paint the tile is was not open yet. Want of memory alone
    /// refuses.
    pub fn number_of<L: Ledger>(
        &mut self,
        library: &Reader<'_>,
        tile: &PartTile,
        steps: &mut Opened<L>,
    ) -> Result<usize, AllocError>
        requires members { HasMembers library.now self.old.names.records.now self.old.cell.0 }
        requires finder { IsFinderOf library.now self.old }
        requires tile { IsPartTile (tree_at (seen library.now) self.old.cell.0) tile.now }
        ensures finder { IfOk result (λ _. IsFinderOf library.now self.new) }
        ensures cell { self.new.cell ≡ self.old.cell }
        ensures records { self.new.names.records ≡ self.old.names.records }
        ensures added { IfOk result (AddsNameOrNone self.old.known.names.items self.new.known.names.items) }
        ensures has { IfOk result (λ number. HasTile library.now.tech (named_tree_at (seen library.now) self.old.cell.0) self.new.known.names.items
            number tile.now) }
        ensures steps { steps.new ≤ steps.old + 1 }
    {
        library.lawful();
        members_have_whole_tiles(library.tech());
        let node = self.opened.node_of(self.alloc, library, tile, steps)?;
        match self.known.number_of((tile.element, node)) {
            Some(number) => Ok(number),
            None => self.add_node(library, tile, node),
        }
    }

    /// The names of the members, by their numbers.
    pub fn into_names(self) -> Vec<Name>
        requires { self.known.index ≡ self.known.names.items }
        ensures names { result.items ≡ self.entry.known.names.items }
        ensures distinct { Distinct result.items }
    {
        self.known.into_names()
    }
}
