//! The members that have tiles of the parts of a cell.
ghost use Rattle.std.specs.Prelude.{◌≤◌, ◌+◌, ◌<◌, All, IfOk, length};
ghost use Rattle.element_paths.specs.LibraryTrees.HierarchyModel.CleanCells.{IsClean};
ghost use Rattle.ext_model.specs.Tables.{ext_of};
ghost use Rattle.element_paths.specs.CellLibrary.LayoutTrees.{tree_at};
ghost use Rattle.element_paths.specs.CellLibrary.Libraries.{seen};
ghost use Rattle.element_paths.specs.LibraryTrees.NamedCells.{named_tree_at};
ghost use Rattle.element_paths.specs.LibraryTrees.KeptRecords.{HaveKeptRecordsBelow};
ghost use Rattle.tile_members.specs.TileMembers.{AreTileMembers, IsPartTile};

use crate::finding::MemberFinder;
use element_paths::cell_library::{Opened, PartTile, Reader};
use element_paths::library_trees::clean_cell_has_clean_tree;
use ext_model::{CellKey, ExtTable};
use names_lists::Name;
use std::alloc::{AllocError, Global};
use std::sync::ledger::Ledger;

/// The names of members, each once, and for each tile the number of the member that has it: how many of the names stand before the member's.
#[derive(Drop)]
pub struct TileMembers {
    pub names: Vec<Name>,
    pub numbers: Vec<usize>,
}

/// The members of a clean cell that have these tiles of its parts, where the records of all cells below it are kept.
///
/// It opens each cell of which it has a tile once, for a step each. Want of memory alone refuses. Each tile takes a look-up of its cell and a
/// walk down a tree of the tiles of that cell's own paint, and the way down to what stands somewhere is gone once for each of its nodes.
pub fn tile_members<L: Ledger>(
    alloc: Global,
    library: &Reader<'_>,
    records: &ExtTable,
    cell: CellKey,
    tiles: &[PartTile],
    steps: &mut Opened<L>,
) -> Result<TileMembers, AllocError>
    requires cell { cell.0 < length library.now.contents }
    requires clean { IsClean library.now.tech (tree_at (seen library.now) cell.0) }
    requires records { HaveKeptRecordsBelow (seen library.now) (λ position. ext_of records.now (record { 0 = position })) cell.0 }
    requires tiles { All (IsPartTile (tree_at (seen library.now) cell.0)) tiles.now }
    ensures members { IfOk result (λ found. AreTileMembers library.now.tech (named_tree_at (seen library.now) cell.0) tiles.now
        found.names.items found.numbers.items) }
    ensures steps { steps.new ≤ steps.old + length tiles.now }
{
    library.lawful();
    clean_cell_has_clean_tree(library, cell);
    let mut finder = MemberFinder::of(alloc, library, records, cell);
    let mut numbers = Vec::with_capacity(alloc, tiles.len())?;
    for tile in tiles {
        let number = finder.number_of(library, tile, steps)?;
        numbers.push(number)?;
    }
    let names = finder.into_names();
    Ok(TileMembers { names, numbers })
}
