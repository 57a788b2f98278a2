//! The pieces at which the parts of a cell meet.
ghost use Rattle.std.specs.Prelude.{◌≡◌, ◌↔◌, ◌≤◌, ◌+◌, ◌++◌, ◌<◌, ◌^◌, ℕ, [], map, IfOk, OnOk, length};
ghost use Rattle.meeting_laws.specs.HierarchyModel.CleanCells.{IsCleanBelow};
ghost use Rattle.cell_library.specs.Libraries.{seen};
ghost use Rattle.cell_library.specs.LayoutTrees.{tree_at};
ghost use Rattle.hier_merge.specs.Interactions.{IsWork};
ghost use Rattle.hier_merge.specs.MeetingPieces.{AreMeetingPieces};
ghost use Rattle.hier_merge.specs.steps.PlanePieces.{AddsPlane, ArePlanePieces, HaveTypedParts, plane_stack};
ghost use Rattle.hier_merge.specs.steps.Seams.{AreSeams};
ghost use Rattle.hier_merge.specs.UncleanCells.{AreOffendingOf, IsCleanCell};

use crate::interactions::{VisitedTiles, meeting_tiles};
use crate::plane_pieces::{PlanePieces, add_strips, plane_pieces};
use cell_library::{Opened, PartTile, Reader};
use ext_model::CellKey;
use geo_core::Rect;
use meeting_laws::offences::{PlaneStack, TypedStack};
use std::alloc::{AllocError, Global};
use std::sync::ledger::Ledger;
use tech_model::Tech;

/// The tiles of the parts of a cell where they interact, and the pieces that they make.
#[derive(Drop)]
pub struct Meeting {
    pub tiles: Vec<PartTile>,
    /// By plane. The members of a piece are numbers of tiles.
    pub stacks: Vec<PlaneStack>,
    /// The strips of the squares that offend, by plane.
    pub offending: Vec<(u8, Rect)>,
}

/// The pieces of planes, and what offends of them.
#[derive(Drop)]
pub struct Pieces {
    pub stacks: Vec<PlaneStack>,
    pub offending: Vec<(u8, Rect)>,
}

/// The pieces at which the parts of a cell meet, and the squares of them that offend. All cells below the cell are clean.
///
/// It opens the cell for a step, and visits the areas in which its parts interact, for a step each tile. Want of memory alone refuses.
pub fn meeting_of<L: Ledger>(
    alloc: Global,
    library: &Reader<'_>,
    cell: CellKey,
    steps: &mut Opened<L>,
) -> Result<Meeting, AllocError>
    requires cell { cell.0 < length library.now.contents }
    requires clean { IsCleanBelow library.now.tech (tree_at (seen library.now) cell.0) }
    ensures pieces { IfOk result (λ found. AreMeetingPieces library.now.tech (tree_at (seen library.now) cell.0)
        found.tiles.items found.stacks.items) }
    ensures squares { IfOk result (λ found. AreOffendingOf (seen library.now) cell.0 found.offending.items) }
    ensures clean { IfOk result (λ found. (found.offending.items ≡ []) ↔ IsCleanCell (seen library.now) cell.0) }
    ensures counted { IfOk result (λ found. steps.new ≡ steps.old + (length found.tiles.items + 1)) }
    ensures work { IfOk result (λ found. IsWork (seen library.now) cell.0 (length found.tiles.items)) }
    ensures steps { (work : ℕ) → IsWork (seen library.now) cell.0 work → steps.new ≤ steps.old + (work + 1) }
{
    library.lawful();
    library.typed(cell);
    let VisitedTiles { tiles, seams } = meeting_tiles(alloc, library, cell, steps)?;
    let Pieces { stacks, offending } = pieces_of(
        alloc,
        library.tech(),
        tiles.as_slice(),
        seams.as_slice(),
    )?;
    Ok(Meeting {
        tiles,
        stacks,
        offending,
    })
}

// The pieces that the tiles make, plane by plane.
fn pieces_of(
    alloc: Global,
    tech: &Tech,
    tiles: &[PartTile],
    seams: &[usize],
) -> Result<Pieces, AllocError>
    requires few { length tiles.now < 2 ^ 64 }
    requires typed { HaveTypedParts tech.now tiles.now }
    requires seams { AreSeams tiles.now seams.now }
    ensures { IfOk result (λ pieces. ArePlanePieces tech.now tiles.now (length tech.now.planes) pieces) }
{
    let mut pieces = Pieces {
        stacks: Vec::new(alloc),
        offending: Vec::new(alloc),
    };
    for plane in 0..tech.raw().planes.items().len() {
        add_plane(alloc, tech, &mut pieces, tiles, seams, plane as u8)?;
    }
    Ok(pieces)
}

// Adds the pieces of a plane, and what offends of them.
fn add_plane(
    alloc: Global,
    tech: &Tech,
    pieces: &mut Pieces,
    tiles: &[PartTile],
    seams: &[usize],
    plane: u8,
) -> Result<(), AllocError>
    requires few { length tiles.now < 2 ^ 64 }
    requires typed { HaveTypedParts tech.now tiles.now }
    requires seams { AreSeams tiles.now seams.now }
    ensures { OnOk result (AddsPlane tech.now tiles.now plane pieces.old pieces.new) }
{
    let PlanePieces { stacks, offending } = plane_pieces(alloc, tech, tiles, seams, plane)?;
    add_strips(&mut pieces.offending, plane, offending.as_slice())?;
    add_stacks(&mut pieces.stacks, plane, stacks)?;
    Ok(())
}

// Adds the pieces of a plane.
fn add_stacks(
    stacks: &mut Vec<PlaneStack>,
    plane: u8,
    found: Vec<TypedStack>,
) -> Result<(), AllocError>
    ensures { OnOk result (stacks.new.items ≡ stacks.old.items ++ map (plane_stack plane) found.items) }
{
    stacks.reserve(found.len())?;
    for stack in found {
        stacks.push(PlaneStack { plane, stack })?;
    }
    Ok(())
}
