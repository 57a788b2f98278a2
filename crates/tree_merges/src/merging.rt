//! The rows of the merges of a clean cell.
ghost use Rattle.std.specs.Prelude.{◌≤◌, ◌+◌, ◌<◌, List, All, IfOk, length};
ghost use Rattle.finite_sets.specs.Lists.{Distinct};
ghost use Rattle.ext_model.specs.declared.records.MergeRec.{MergeRec};
ghost use Rattle.ext_model.specs.Rows.{AreRowsOf};
ghost use Rattle.hierarchy_model.specs.CleanCells.{IsClean};
ghost use Rattle.hier_merge.specs.CellLibrary.Libraries.{seen};
ghost use Rattle.hier_merge.specs.CellLibrary.LayoutTrees.{tree_at};
ghost use Rattle.tile_members.specs.LibraryTrees.NamedCells.{named_tree_at};
ghost use Rattle.tile_members.specs.LibraryTrees.KeptRecords.{HaveKeptRecordsBelow};
ghost use Rattle.piece_groups.specs.MeetingSums.TreeRecords.Merges.{AreGroupMerges};
ghost use Rattle.hier_merge.specs.MeetingPieces.{AreMeetingPieces};
ghost use Rattle.tile_members.specs.TileMembers.{AreTileMembers, IsPartTile};
ghost use Rattle.tree_merges.specs.steps.MarkedMerges.{AreMarkedMerges, AreMarkedSums};
ghost use Rattle.tree_merges.specs.steps.Pieces.{AreNumbered, ArePieceRegions, ArePieces};
ghost use Rattle.tree_merges.specs.Relations.{HasOwnNodes, records_in};

use crate::marking::{marks_of, marks_of_pieces};
use crate::piece_tiles::regions_of_pieces;
use ext_model::{CellKey, ExtTable, MergeRow};
use flood_nodes::Regions;
use hier_merge::cell_library::{Opened, PartTile, Reader};
use offences::PlaneStack;
use piece_groups::meeting_sums::{MeetingSum, meeting_sums};
use piece_groups::{marked_groups_are_recorded, merges_of_marks};
use std::alloc::{AllocError, Global};
use std::sync::ledger::Ledger;
use tech_model::Tech;
use tile_members::group_meetings::recorded_parts_have_members;
use tile_members::library_trees::{
    clean_cell_has_clean_tree, kept_records_are_of_the_tree, named_trees_have_the_layouts,
};
use tile_members::{TileMembers, tile_members};

/// The marks of members and regions, and for each mark what is to be added to its group.
#[derive(Drop)]
pub struct MarkedSums {
    pub marks: Vec<usize>,
    pub sums: Vec<MeetingSum>,
}

// The marks of members and of the regions of pieces, with their sums. The pieces and the regions are let go.
fn marked_sums(
    alloc: Global,
    tech: &Tech,
    pieces: Vec<PlaneStack>,
    members: &TileMembers,
    regions: Regions,
) -> Result<MarkedSums, AllocError>
    requires pieces { ArePieces tech.now pieces.items }
    requires regions { ArePieceRegions tech.now pieces.items regions }
    requires numbered { AreNumbered pieces.items members.now regions }
    ensures { IfOk result (AreMarkedSums tech.now pieces.items members.now regions) }
{
    let marks = marks_of(alloc, pieces.as_slice(), members, &regions)?;
    let groups = marks_of_pieces(
        alloc,
        &regions,
        members.names.len(),
        marks.labels.as_slice(),
    )?;
    let sums = meeting_sums(
        alloc,
        tech,
        pieces.as_slice(),
        regions.contacts(),
        groups.as_slice(),
        marks.count,
    )?;
    Ok(MarkedSums {
        marks: marks.labels,
        sums,
    })
}

// The rows of the merges of the groups that members make which stand together, with what is to be added to each group. The pieces and the
// regions are let go before.
fn merges_of_members(
    alloc: Global,
    tech: &Tech,
    pieces: Vec<PlaneStack>,
    members: &TileMembers,
    regions: Regions,
) -> Result<Vec<MergeRow>, AllocError>
    requires pieces { ArePieces tech.now pieces.items }
    requires regions { ArePieceRegions tech.now pieces.items regions }
    requires distinct { Distinct members.now.names.items }
    requires numbered { AreNumbered pieces.items members.now regions }
    ensures { IfOk result (λ rows. (merges : List MergeRec)
        × AreMarkedMerges tech.now pieces.items members.now regions merges × AreRowsOf merges rows.items) }
{
    let found = marked_sums(alloc, tech, pieces, members, regions)?;
    let merges = merges_of_marks(
        alloc,
        tech,
        members.names.as_slice(),
        found.marks.as_slice(),
        found.sums.as_slice(),
    )?;
    Ok(merges)
}

// The members of a clean cell that have the tiles, which are let go.
fn members_of<L: Ledger>(
    alloc: Global,
    library: &Reader<'_>,
    records: &ExtTable,
    cell: CellKey,
    tiles: Vec<PartTile>,
    steps: &mut Opened<L>,
) -> Result<TileMembers, AllocError>
    requires cell { cell.0 < length library.now.contents }
    requires clean { IsClean library.now.tech (tree_at (seen library.now) cell.0) }
    requires records { HaveKeptRecordsBelow (seen library.now) (records_in records.now) cell.0 }
    requires tiles { All (IsPartTile (tree_at (seen library.now) cell.0)) tiles.items }
    ensures members { IfOk result (λ found. AreTileMembers library.now.tech (named_tree_at (seen library.now) cell.0) tiles.items
        found.names.items found.numbers.items) }
    ensures steps { steps.new ≤ steps.old + length tiles.items }
{
    tile_members(alloc, library, records, cell, tiles.as_slice(), steps)
}

/// The rows of the merges of a clean cell, by the pieces at which its parts meet and the tiles that cover these.
///
/// The records of all cells below the cell are kept. It opens each cell once that has a tile which covers a piece. Tiles and pieces are let go as
/// soon as they aren't wanted any more. Want of memory alone refuses.
pub fn merges_of<L: Ledger>(
    alloc: Global,
    library: &Reader<'_>,
    records: &ExtTable,
    cell: CellKey,
    tiles: Vec<PartTile>,
    pieces: Vec<PlaneStack>,
    steps: &mut Opened<L>,
) -> Result<Vec<MergeRow>, AllocError>
    requires cell { cell.0 < length library.now.contents }
    requires clean { IsClean library.now.tech (tree_at (seen library.now) cell.0) }
    requires records { HaveKeptRecordsBelow (seen library.now) (records_in records.now) cell.0 }
    requires nodes { HasOwnNodes (seen library.now) cell.0 }
    requires pieces { AreMeetingPieces library.now.tech (tree_at (seen library.now) cell.0) tiles.items pieces.items }
    ensures merges { IfOk result (λ rows. (merges : List MergeRec)
        × AreGroupMerges library.now.tech (named_tree_at (seen library.now) cell.0) merges × AreRowsOf merges rows.items) }
    ensures steps { steps.new ≤ steps.old + length tiles.items }
{
    let tech = library.tech();
    library.lawful();
    clean_cell_has_clean_tree(library, cell);
    named_trees_have_the_layouts();
    kept_records_are_of_the_tree(library);
    recorded_parts_have_members(tech);
    marked_groups_are_recorded(tech);
    let members = members_of(alloc, library, records, cell, tiles, steps)?;
    let regions = regions_of_pieces(alloc, tech, pieces.as_slice())?;
    let merges = merges_of_members(alloc, tech, pieces, &members, regions)?;
    Ok(merges)
}
