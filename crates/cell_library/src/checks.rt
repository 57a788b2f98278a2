//! What edits are refused for before anything is tried.
ghost use Rattle.std.specs.Prelude.{◌≡◌, ◌<◌, true, IfErr, OnOk};
ghost use Rattle.geo_core.specs.Areas.{has_square};
ghost use Rattle.cell_bodies.specs.Numbers.{has_sides};
ghost use Rattle.cell_bodies.specs.CellPaint.Painting.{is_in_range};
ghost use Rattle.cell_library.specs.Refusals.{AreaIsRefused, EditIsRefused, LabelAreaIsRefused, NothingElse};

use crate::faults::LibFault;
use crate::limits::{LibraryLimit, MOST_EDITS};
use cell_bodies::cell_paint::is_coordinate;
use cell_bodies::has_sides;
use cell_tree::CellTree;
use geo_core::Rect;

/// Refuses an edit where there were too many.
pub fn check_edits(tree: &CellTree) -> Result<(), LibFault>
    ensures few { OnOk result (tree.now.edits < MOST_EDITS) }
    ensures fault { IfErr result (EditIsRefused tree.now.edits NothingElse) }
{
    if tree.edits() == MOST_EDITS {
        return Err(LibFault::TooMany(LibraryLimit::Edits));
    }
    Ok(())
}

// Whether the rectangle lies within the range of paint.
fn is_in_range(area: &Rect) -> bool
    ensures { result ≡ is_in_range area.now }
{
    is_coordinate(area.xlo)
        && is_coordinate(area.ylo)
        && is_coordinate(area.xhi)
        && is_coordinate(area.yhi)
}

/// Refuses an edit of an area where there were too many edits, where the area has no square, and where it goes past the range.
pub fn check_area(tree: &CellTree, area: &Rect) -> Result<(), LibFault>
    ensures few { OnOk result (tree.now.edits < MOST_EDITS) }
    ensures proper { OnOk result (has_square area.now ≡ true) }
    ensures near { OnOk result (is_in_range area.now ≡ true) }
    ensures fault { IfErr result (EditIsRefused tree.now.edits (AreaIsRefused area.now NothingElse)) }
{
    if tree.edits() == MOST_EDITS {
        return Err(LibFault::TooMany(LibraryLimit::Edits));
    }
    if !area.has_square() {
        return Err(LibFault::EmptyRect);
    }
    if !is_in_range(area) {
        return Err(LibFault::OutOfRange);
    }
    Ok(())
}

/// Refuses a label where there were too many edits, where its rectangle ends before it begins, and where it goes past the range.
pub fn check_label(tree: &CellTree, area: &Rect) -> Result<(), LibFault>
    ensures few { OnOk result (tree.now.edits < MOST_EDITS) }
    ensures sides { OnOk result (has_sides area.now ≡ true) }
    ensures near { OnOk result (is_in_range area.now ≡ true) }
    ensures fault { IfErr result (EditIsRefused tree.now.edits (LabelAreaIsRefused area.now NothingElse)) }
{
    if tree.edits() == MOST_EDITS {
        return Err(LibFault::TooMany(LibraryLimit::Edits));
    }
    if !has_sides(area) {
        return Err(LibFault::EmptyRect);
    }
    if !is_in_range(area) {
        return Err(LibFault::OutOfRange);
    }
    Ok(())
}
