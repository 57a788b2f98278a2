//! Where the parts of a cell interact, and the tiles that they have there.
ghost use Rattle.std.specs.Prelude.{◌≡◌, ◌≤◌, ◌+◌, ◌++◌, ◌<◌, ◌⊎◌, ◌∷◌, [], ℕ, All, AllPairs, IfOk, OnOk, length};
ghost use Rattle.std.specs.Option.{option_to_list};
ghost use Rattle.geo_core.specs.Areas.{AreDisjoint, IsNear};
ghost use Rattle.cell_library.specs.LayoutModel.FlatSets.{parts_in};
ghost use Rattle.cell_library.specs.CellTree.Hulls.{IsLawfulBox};
ghost use Rattle.cell_library.specs.Libraries.{seen};
ghost use Rattle.cell_library.specs.LayoutTrees.{tree_at};
ghost use Rattle.cell_library.specs.ElementBoxes.{HoldParts};
ghost use Rattle.hier_merge.specs.Interactions.{ArePartBoxes, IsWork, IsWorkOver};
ghost use Rattle.hier_merge.specs.steps.MeetingTiles.{AreMeetingTiles};
ghost use Rattle.hier_merge.specs.steps.Seams.{AreSeams};
ghost use Rattle.hier_merge.specs.steps.Visits.{AreVisits};

use cell_library::{Opened, PartTile, Reader};
use ext_model::CellKey;
use geo_core::Rect;
use interact::areas;
use std::alloc::{AllocError, Global};
use std::sync::ledger::Ledger;

/// At least so many tiles lie between two seams.
const GROUP: usize = 256;

/// The tiles that visits of areas hand out.
#[derive(Drop)]
pub struct VisitedTiles {
    pub tiles: Vec<PartTile>,
    /// Places in the list, none before an earlier one. Where the areas lie apart, no tile before such a place shares a square with a tile
    /// behind it.
    pub seams: Vec<usize>,
}

/// The boxes of the cell's parts that have one: of its own paint, for which the cell is opened, and of its elements.
pub fn part_boxes<L: Ledger>(
    alloc: Global,
    library: &Reader<'_>,
    cell: CellKey,
    steps: &mut Opened<L>,
) -> Result<Vec<Rect>, AllocError>
    requires { cell.0 < length library.now.contents }
    ensures boxes { IfOk result (λ boxes. ArePartBoxes (seen library.now) cell.0 boxes.items) }
    ensures lawful { IfOk result (λ boxes. All IsLawfulBox boxes.items) }
    ensures hold { IfOk result (λ boxes. HoldParts boxes.items (parts_in library.now.tech (tree_at (seen library.now) cell.0))) }
    ensures step { steps.new ≡ steps.old + 1 }
{
    let own = library.open(cell, steps).box_of();
    library.unfolded();
    let elements = library.element_boxes(cell)?;
    let boxes = all_boxes(alloc, own, elements.as_slice())?;
    Ok(boxes)
}

// The own box, where there is one, and those of elements.
fn all_boxes(alloc: Global, own: Option<Rect>, elements: &[Rect]) -> Result<Vec<Rect>, AllocError>
    ensures { IfOk result (λ boxes. boxes.items ≡ option_to_list own ++ elements.now) }
{
    let mut boxes = Vec::with_capacity(alloc, elements.len() + 1)?;
    if let Some(area) = own {
        boxes.push(area)?;
    }
    boxes.extend_from_slice(elements)?;
    Ok(boxes)
}

// Adds the place where the tiles end so far as a seam, if there are enough of them behind the last one.
fn add_seam(seams: &mut Vec<usize>, end: usize) -> Result<(), AllocError>
    ensures { OnOk result ((seams.new.items ≡ seams.old.items) ⊎ (seams.new.items ≡ seams.old.items ++ end ∷ [])) }
{
    let last = seams.last().copied().unwrap_or(0);
    if end.saturating_sub(last) >= GROUP {
        seams.push(end)?;
    }
    Ok(())
}

/// The tiles that visits of the areas hand out, one after another, for a step each, with seams if the areas lie apart. Want of memory
/// alone refuses.
pub fn visit_all<L: Ledger>(
    alloc: Global,
    library: &Reader<'_>,
    cell: CellKey,
    areas: &[Rect],
    steps: &mut Opened<L>,
) -> Result<VisitedTiles, AllocError>
    requires cell { cell.0 < length library.now.contents }
    requires near { All IsNear areas.now }
    ensures tiles { IfOk result (λ found. AreVisits library.now.tech (tree_at (seen library.now) cell.0) areas.now found.tiles.items) }
    ensures seams { IfOk result (λ found. AllPairs AreDisjoint areas.now → AreSeams found.tiles.items found.seams.items) }
    ensures counted { IfOk result (λ found. steps.new ≡ steps.old + length found.tiles.items) }
    ensures steps { (work : ℕ) → IsWorkOver (tree_at (seen library.now) cell.0) areas.now work → steps.new ≤ steps.old + work }
{
    let mut visitor = library.visitor();
    let mut tiles = Vec::new(alloc);
    let mut seams = Vec::new(alloc);
    for area in areas {
        let found = visitor.visit(cell, *area, steps)?;
        tiles.extend_from_slice(found.as_slice())?;
        add_seam(&mut seams, tiles.len())?;
    }
    Ok(VisitedTiles { tiles, seams })
}

/// The tiles of the parts of the cell where the parts interact, for a step each, and a step for its paint, with seams. Want of memory alone
/// refuses.
pub fn meeting_tiles<L: Ledger>(
    alloc: Global,
    library: &Reader<'_>,
    cell: CellKey,
    steps: &mut Opened<L>,
) -> Result<VisitedTiles, AllocError>
    requires { cell.0 < length library.now.contents }
    ensures tiles { IfOk result (λ found. AreMeetingTiles library.now.tech (tree_at (seen library.now) cell.0) found.tiles.items) }
    ensures seams { IfOk result (λ found. AreSeams found.tiles.items found.seams.items) }
    ensures counted { IfOk result (λ found. steps.new ≡ steps.old + (length found.tiles.items + 1)) }
    ensures work { IfOk result (λ found. IsWork (seen library.now) cell.0 (length found.tiles.items)) }
    ensures steps { (work : ℕ) → IsWork (seen library.now) cell.0 work → steps.new ≤ steps.old + (work + 1) }
{
    library.lawful();
    let boxes = part_boxes(alloc, library, cell, steps)?;
    let areas = areas(alloc, boxes.as_slice())?;
    let found = visit_all(alloc, library, cell, areas.as_slice(), steps)?;
    Ok(found)
}
