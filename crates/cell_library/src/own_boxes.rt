//! The boxes of what cells have of their own.
ghost use Rattle.std.specs.Prelude.{◌≡◌, ◌<◌, length};
ghost use Rattle.cell_bodies.specs.CellPaint.Paints.{layout_of};
ghost use Rattle.cell_library.specs.Contents.{held_at};
ghost use Rattle.cell_library.specs.OwnBoxes.{OwnBoxIs, box_with};

use crate::contents::Contents;
use cell_bodies::cell_paint::CellPaint;
use geo_core::Rect;
use tech_model::Label;

/// The smallest rectangle that goes round the box, where there is one, and the area.
pub fn box_with(found: Option<Rect>, area: Rect) -> Rect
    ensures { result ≡ box_with found area }
{
    match found {
        Some(found) => found.joined(&area),
        None => area,
    }
}

/// The smallest rectangle that holds the paint and the labels.
pub fn own_box(paint: &CellPaint, labels: &[Label]) -> Option<Rect>
    ensures { OwnBoxIs (layout_of paint.now) labels.now result }
{
    let mut found = paint.box_of();
    for label in labels {
        found = Some(box_with(found, label.area));
    }
    found
}

/// The box of what the cell has of its own.
pub fn box_of_own(contents: &Contents, cell: usize) -> Option<Rect>
    requires { cell < length contents.now }
    ensures { OwnBoxIs (layout_of (held_at contents.now cell).paint) (held_at contents.now cell).labels result }
{
    let content = contents.get(cell);
    own_box(&content.paint, content.labels.as_slice())
}
