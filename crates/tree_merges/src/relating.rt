//! What the parts of a cell do to each other: its merges in rows, or the squares at which its parts spoil each other.
ghost use Rattle.std.specs.Prelude.{◌≡◌, ◌≢◌, ◌↔◌, ◌≤◌, ◌+◌, ◌*◌, ◌<◌, ℕ, List, [], IfOk, length};
ghost use Rattle.ext_model.specs.declared.records.MergeRec.{MergeRec as OneMerge};
ghost use Rattle.ext_model.specs.Rows.{AreRowsOf};
ghost use Rattle.hierarchy_model.specs.CleanCells.{IsCleanBelow};
ghost use Rattle.hierarchy_model.specs.Laws.{KeepsWhatItHas};
ghost use Rattle.hier_merge.specs.CellLibrary.Libraries.{seen};
ghost use Rattle.hier_merge.specs.CellLibrary.LayoutTrees.{tree_at};
ghost use Rattle.tile_members.specs.LibraryTrees.NamedCells.{named_tree_at};
ghost use Rattle.tile_members.specs.LibraryTrees.KeptRecords.{HaveKeptRecordsBelow};
ghost use Rattle.piece_groups.specs.MeetingSums.TreeRecords.Merges.{AreGroupMerges};
ghost use Rattle.hier_merge.specs.Interactions.{IsWork};
ghost use Rattle.tree_merges.specs.Relations.{HasOwnNodes, records_in};
ghost use Rattle.hier_merge.specs.UncleanCells.{AreOffendingOf, IsCleanCell};

use crate::merging::merges_of;
use ext_model::{CellKey, ExtTable, MergeRow};
use geo_core::Rect;
use hier_merge::cell_library::{Opened, Reader};
use hier_merge::{Meeting, meeting_of};
use hierarchy_model::clean_cells_keep_what_they_have;
use names_lists::List;
use std::alloc::{AllocError, Global};
use std::sync::ledger::Ledger;

/// The rows of the merges of a clean cell, or the strips of the squares that offend, by plane.
#[derive(Debug, Drop)]
pub struct Related {
    pub merges: List<MergeRow>,
    pub offending: List<(u8, Rect)>,
}

/// The rows of the merges of a cell, or the strips of its squares that offend, by plane; there are no merges then.
///
/// All cells below the cell are clean, and their records are in the table. The cell's own paint and labels have node records: a list of them
/// exists for every cell, but only one that was computed proves it, so whoever calls this has made the records of the own paint before. It opens
/// the cell for a step, visits the areas in which its parts interact, for a step each tile, and opens each cell once that has such a tile. Want of
/// memory alone refuses.
pub fn relate<L: Ledger>(
    alloc: Global,
    library: &Reader<'_>,
    records: &ExtTable,
    cell: CellKey,
    steps: &mut Opened<L>,
) -> Result<Related, AllocError>
    requires cell { cell.0 < length library.now.contents }
    requires clean { IsCleanBelow library.now.tech (tree_at (seen library.now) cell.0) }
    requires records { HaveKeptRecordsBelow (seen library.now) (records_in records.now) cell.0 }
    requires nodes { HasOwnNodes (seen library.now) cell.0 }
    ensures squares { IfOk result (λ found. AreOffendingOf (seen library.now) cell.0 found.offending) }
    ensures clean { IfOk result (λ found. (found.offending ≡ []) ↔ IsCleanCell (seen library.now) cell.0) }
    ensures merges { IfOk result (λ found. found.offending ≡ []
        → (merges : List OneMerge) × AreGroupMerges library.now.tech (named_tree_at (seen library.now) cell.0) merges × AreRowsOf merges found.merges) }
    ensures none { IfOk result (λ found. found.offending ≢ [] → found.merges ≡ []) }
    ensures keeps { IfOk result (λ found. found.offending ≡ [] → KeepsWhatItHas library.now.tech (tree_at (seen library.now) cell.0)) }
    ensures work { IfOk result (λ _. (work : ℕ) × IsWork (seen library.now) cell.0 work × (steps.new ≤ steps.old + (2 * work + 1))) }
    ensures steps { (work : ℕ) → IsWork (seen library.now) cell.0 work → steps.new ≤ steps.old + (2 * work + 1) }
{
    library.lawful();
    library.typed(cell);
    clean_cells_keep_what_they_have(library.tech());
    let meeting = meeting_of(alloc, library, cell, steps)?;
    if !meeting.offending.is_empty() {
        return Ok(Related {
            merges: List::of(Vec::new(alloc)),
            offending: List::of(meeting.offending),
        });
    }
    let Meeting {
        tiles,
        stacks,
        offending,
    } = meeting;
    let merges = merges_of(alloc, library, records, cell, tiles, stacks, steps)?;
    Ok(Related {
        merges: List::of(merges),
        offending: List::of(offending),
    })
}
