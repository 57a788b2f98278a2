//! The squares at which the parts of a cell spoil each other.
ghost use Rattle.std.specs.Prelude.{◌≡◌, ◌≤◌, ◌+◌, ◌<◌, ◌^◌, ◌↔◌, ℕ, [], IfOk, length};
ghost use Rattle.cell_library.specs.LayoutModel.FlatSets.{parts_in};
ghost use Rattle.meeting_laws.specs.Offences.Offences.{OffendsOn};
ghost use Rattle.meeting_laws.specs.HierarchyModel.CleanCells.{IsClean, IsCleanBelow};
ghost use Rattle.meeting_laws.specs.HierarchyModel.Laws.{KeepsWhatItHas};
ghost use Rattle.cell_library.specs.Libraries.{seen};
ghost use Rattle.cell_library.specs.LayoutTrees.{tree_at};
ghost use Rattle.hier_merge.specs.Interactions.{IsWork};
ghost use Rattle.hier_merge.specs.steps.PlanePieces.{HaveTypedParts, parts_of_plane};
ghost use Rattle.hier_merge.specs.steps.Seams.{AreSeams};
ghost use Rattle.hier_merge.specs.StripLists.{AreStripsByPlane};

use crate::interactions::{VisitedTiles, meeting_tiles};
use crate::plane_pieces::{add_strips, plane_pieces};
use cell_library::{Opened, PartTile, Reader};
use ext_model::CellKey;
use geo_core::Rect;
use meeting_laws::hierarchy_model::clean_cells_keep_what_they_have;
use std::alloc::{AllocError, Global};
use std::sync::ledger::Ledger;
use tech_model::Tech;

/// The strips of the squares of the cell that offend, by plane. All cells below the cell are clean.
///
/// It opens the cell for a step, and visits the areas in which its parts interact, for a step each tile. Want of memory alone refuses.
pub fn offending_of<L: Ledger>(
    alloc: Global,
    library: &Reader<'_>,
    cell: CellKey,
    steps: &mut Opened<L>,
) -> Result<Vec<(u8, Rect)>, AllocError>
    requires cell { cell.0 < length library.now.contents }
    requires clean { IsCleanBelow library.now.tech (tree_at (seen library.now) cell.0) }
    ensures squares { IfOk result (λ found. AreStripsByPlane
        (OffendsOn library.now.tech (parts_in library.now.tech (tree_at (seen library.now) cell.0))) (length library.now.tech.planes) found.items) }
    ensures clean { IfOk result (λ found. (found.items ≡ []) ↔ IsClean library.now.tech (tree_at (seen library.now) cell.0)) }
    ensures keeps { IfOk result (λ found. found.items ≡ [] → KeepsWhatItHas library.now.tech (tree_at (seen library.now) cell.0)) }
    ensures work { IfOk result (λ _. (work : ℕ) × IsWork (seen library.now) cell.0 work × (steps.new ≤ steps.old + work + 1)) }
    ensures steps { (work : ℕ) → IsWork (seen library.now) cell.0 work → steps.new ≤ steps.old + work + 1 }
{
    library.lawful();
    library.typed(cell);
    clean_cells_keep_what_they_have(library.tech());
    let VisitedTiles { tiles, seams } = meeting_tiles(alloc, library, cell, steps)?;
    let found = offending_by_plane(alloc, library.tech(), tiles.as_slice(), seams.as_slice())?;
    Ok(found)
}

// The strips of what offends of the parts that the tiles make, plane by plane. The pieces of a plane are dropped before the next.
fn offending_by_plane(
    alloc: Global,
    tech: &Tech,
    tiles: &[PartTile],
    seams: &[usize],
) -> Result<Vec<(u8, Rect)>, AllocError>
    requires few { length tiles.now < 2 ^ 64 }
    requires typed { HaveTypedParts tech.now tiles.now }
    requires seams { AreSeams tiles.now seams.now }
    ensures { IfOk result (λ found. (typed : HaveTypedParts tech.now tiles.now) → AreStripsByPlane
        (λ plane. OffendsOn tech.now (parts_of_plane tech.now tiles.now typed.count plane) plane) (length tech.now.planes) found.items) }
{
    let mut found = Vec::new(alloc);
    for plane in 0..tech.raw().planes.items().len() {
        let plane = plane as u8;
        let pieces = plane_pieces(alloc, tech, tiles, seams, plane)?;
        add_strips(&mut found, plane, pieces.offending.as_slice())?;
    }
    Ok(found)
}
