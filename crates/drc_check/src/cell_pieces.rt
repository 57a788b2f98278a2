//! The pieces of all of a cell's flat layout whose types rules list.
ghost use Rattle.std.specs.Prelude.{◌<◌, ◌≤◌, All, IfOk, length};
ghost use Rattle.geo_core.specs.Covering.{IsProper};
ghost use Rattle.cell_library.specs.CellTree.Hulls.{SpansInRange};
ghost use Rattle.cell_library.specs.Libraries.{seen};
ghost use Rattle.cell_library.specs.LayoutTrees.{tree_at};
ghost use Rattle.drc_rules.specs.LawfulRules.{IsLawfulRule};
ghost use Rattle.drc_check.specs.steps.CellPieces.{AreCellPieces, AreListedPiecesOf};

use crate::bands::bands_of;
use crate::marks::listed_types;
use crate::pieces::{ListedPiece, add_listed};
use cell_library::{Opened, Reader};
use drc_rules::Rule;
use ext_model::CellKey;
use geo_core::Rect;
use std::alloc::{AllocError, Global};
use std::sync::ledger::Ledger;

/// The pieces of the cell's flat layout whose types rules list, for a step each tile that is visited. Want of memory alone refuses.
///
/// The cell's hull is visited band by band, and the tiles of one band are dropped before the next.
pub fn cell_pieces<L: Ledger>(
    alloc: Global,
    library: &Reader<'_>,
    cell: CellKey,
    rules: &[Rule],
    steps: &mut Opened<L>,
) -> Result<Vec<ListedPiece>, AllocError>
    requires cell { cell.0 < length library.now.contents }
    requires rules { All (IsLawfulRule library.now.tech) rules.now }
    ensures pieces { IfOk result (λ pieces. AreCellPieces library.now.tech (tree_at (seen library.now) cell.0) rules.now pieces.items) }
    ensures steps { steps.old ≤ steps.new }
{
    library.lawful();
    let Some(hull) = library.hull(cell) else {
        return Ok(Vec::new(alloc));
    };
    if !hull.has_square() {
        return Ok(Vec::new(alloc));
    }
    let found = pieces_in(alloc, library, cell, rules, &hull, steps)?;
    Ok(found)
}

// The pieces in the cell's hull.
fn pieces_in<L: Ledger>(
    alloc: Global,
    library: &Reader<'_>,
    cell: CellKey,
    rules: &[Rule],
    hull: &Rect,
    steps: &mut Opened<L>,
) -> Result<Vec<ListedPiece>, AllocError>
    requires cell { cell.0 < length library.now.contents }
    requires rules { All (IsLawfulRule library.now.tech) rules.now }
    requires proper { IsProper hull.now }
    requires spans { SpansInRange hull.now }
    ensures pieces { IfOk result (λ pieces. AreListedPiecesOf library.now.tech (tree_at (seen library.now) cell.0) rules.now hull.now pieces.items) }
    ensures steps { steps.old ≤ steps.new }
{
    let marks = listed_types(alloc, rules)?;
    let bands = bands_of(alloc, hull, library.standing_count(cell))?;
    let mut visitor = library.visitor();
    let mut pieces = Vec::new(alloc);
    for band in bands.as_slice() {
        let tiles = visitor.visit(cell, *band, steps)?;
        add_listed(
            alloc,
            library.tech(),
            rules,
            marks.as_slice(),
            tiles.as_slice(),
            &mut pieces,
        )?;
    }
    Ok(pieces)
}
