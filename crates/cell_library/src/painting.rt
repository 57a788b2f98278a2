//! Paint and labels of one cell, and its box in the tree.
ghost use Rattle.std.specs.Prelude.{◌≡◌, ◌<◌, false, length, Some, All, IsTrue, IfOk, OnOk, OnErr, IfErr};
ghost use Rattle.cell_bodies.specs.Numbers.{has_sides};
ghost use Rattle.cell_bodies.specs.CellPaint.Paints.{layout_of};
ghost use Rattle.cell_tree.specs.Hulls.{IsLawfulBox};
ghost use Rattle.cell_tree.specs.Trees.{cell_at, with_own, IsEdited, WouldKeepWithin};
ghost use Rattle.cell_library.specs.steps.CellEdits.{with_area, BoxIsRefused, IsPaintedIn, IsErasedIn, IsLabelledIn, IsUnlabelledIn};
ghost use Rattle.cell_library.specs.Contents.{held_at, IsRepainted};
ghost use Rattle.cell_library.specs.Libraries.{IsLawfulHeld};
ghost use Rattle.cell_library.specs.OwnBoxes.{OwnBoxIs, box_with};
ghost use Rattle.cell_library.specs.Refusals.{AreaIsRefused, LabelAreaIsRefused, EditIsRefused, NothingElse, FirstOf, HasFaultOrLacksMemory, has_text};

use crate::checks::{check_area, check_edits, check_label};
use crate::contents::Contents;
use crate::faults::LibFault;
use crate::limits::MOST_EDITS;
use crate::own_boxes::{box_of_own, box_with};
use crate::own_restorations::box_after;
use cell_tree::CellTree;
use geo_core::Rect;
use tech_model::{Label, LayerId, Tech};

// The cell's box, were it to go round the area too, unless the hull of some cell would go past the range of paint.
fn fitting_box(tree: &mut CellTree, cell: usize, area: Rect) -> Result<Rect, LibFault>
    requires cell { cell < length tree.old.cells }
    requires area { IsLawfulBox area }
    ensures round { IfOk result (λ own. own ≡ box_with (cell_at tree.old.cells cell).own area) }
    ensures lawful { IfOk result IsLawfulBox }
    ensures fits { OnOk result (WouldKeepWithin tree.old cell (with_area tree.old cell area)) }
    ensures fault { IfErr result (BoxIsRefused tree.old cell area) }
    ensures same { tree.new ≡ tree.old }
{
    tree.lawful();
    let own = box_with(tree.own_box(cell), area);
    match tree.fits_box(cell, Some(own)) {
        Ok(()) => Ok(own),
        Err(_) => Err(LibFault::OutOfRange),
    }
}

// Gives the cell a box that fits.
fn set_box(tree: &mut CellTree, cell: usize, own: Rect)
    requires cell { cell < length tree.old.cells }
    requires edits { tree.old.edits < MOST_EDITS }
    requires lawful { IsLawfulBox own }
    requires fits { WouldKeepWithin tree.old cell (with_own (cell_at tree.old.cells cell) (Some own)) }
    ensures { IsEdited tree.old tree.new cell (with_own (cell_at tree.old.cells cell) (Some own)) }
{
    tree.lawful();
    match tree.set_box(cell, Some(own)) {
        Ok(()) => {}
        Err(_) => unreachable!(),
    }
}

/// Paints the layer over the area in a cell, whose box then goes round the area too. A refusal changes no layout and not the tree.
pub fn paint_cell(
    tech: &Tech,
    contents: &mut Contents,
    tree: &mut CellTree,
    cell: usize,
    layer: LayerId,
    area: Rect,
) -> Result<(), LibFault>
    requires cell { cell < length contents.old }
    requires so_many { length tree.old.cells ≡ length contents.old }
    requires held { IsLawfulHeld tech.now (held_at contents.old cell) }
    requires layer { layer.0 < length tech.now.layers }
    ensures done { OnOk result (IsPaintedIn tech.now layer.0 area cell contents.old contents.new tree.old tree.new) }
    ensures kept { OnErr result (IsRepainted contents.old contents.new cell (λ own. own)) }
    ensures same { OnErr result (tree.new ≡ tree.old) }
    ensures fault { IfErr result (HasFaultOrLacksMemory (EditIsRefused tree.old.edits (AreaIsRefused area (BoxIsRefused tree.old cell area)))) }
{
    check_area(tree, &area)?;
    let own = fitting_box(tree, cell, area)?;
    contents.paint(cell, tech, layer, area)?;
    set_box(tree, cell, own);
    Ok(())
}

/// Erases the layer from the area in a cell, whose box is then that of what is left. A refusal changes no layout and not the tree.
pub fn erase_cell(
    tech: &Tech,
    contents: &mut Contents,
    tree: &mut CellTree,
    cell: usize,
    layer: LayerId,
    area: Rect,
) -> Result<(), LibFault>
    requires cell { cell < length contents.old }
    requires so_many { length tree.old.cells ≡ length contents.old }
    requires held { IsLawfulHeld tech.now (held_at contents.old cell) }
    requires own { OwnBoxIs (layout_of (held_at contents.old cell).paint) (held_at contents.old cell).labels (cell_at tree.old.cells cell).own }
    requires layer { layer.0 < length tech.now.layers }
    ensures done { OnOk result (IsErasedIn tech.now layer.0 area cell contents.old contents.new tree.old tree.new) }
    ensures kept { OnErr result (IsRepainted contents.old contents.new cell (λ own. own)) }
    ensures same { OnErr result (tree.new ≡ tree.old) }
    ensures fault { IfErr result (HasFaultOrLacksMemory (EditIsRefused tree.old.edits (AreaIsRefused area NothingElse))) }
{
    check_area(tree, &area)?;
    // The proof takes from these calls what holds of the technology, the paint and the tree.
    let _ = tech.raw();
    contents.sound(cell);
    tree.lawful();
    contents.erase(cell, tech, layer, area)?;
    let own = box_after(contents, tree, cell, &area);
    tree.shrink_box(cell, own);
    Ok(())
}

/// Adds a label at the end of a cell's, whose box then goes round it too. A refusal changes nothing.
pub fn label_cell(
    contents: &mut Contents,
    tree: &mut CellTree,
    cell: usize,
    label: Label,
) -> Result<(), LibFault>
    requires cell { cell < length contents.old }
    requires so_many { length tree.old.cells ≡ length contents.old }
    ensures done { OnOk result (IsLabelledIn label cell contents.old contents.new tree.old tree.new) }
    ensures kept { OnErr result (contents.new ≡ contents.old) }
    ensures same { OnErr result (tree.new ≡ tree.old) }
    ensures fault { IfErr result (HasFaultOrLacksMemory (EditIsRefused tree.old.edits (LabelAreaIsRefused label.area (BoxIsRefused tree.old cell label.area)))) }
{
    check_label(tree, &label.area)?;
    let own = fitting_box(tree, cell, label.area)?;
    contents.push_label(cell, label)?;
    set_box(tree, cell, own);
    Ok(())
}

// Whether some label has the text.
fn has_text(labels: &[Label], text: &[u8]) -> bool
    ensures { result ≡ has_text labels.now text.now }
{
    labels.iter().any(|label| label.text.bytes() == text)
}

/// Takes each label with the text away from a cell, whose box is then that of what is left. A refusal changes nothing. It takes no
/// memory.
pub fn unlabel_cell(
    contents: &mut Contents,
    tree: &mut CellTree,
    cell: usize,
    text: &[u8],
) -> Result<(), LibFault>
    requires cell { cell < length contents.old }
    requires so_many { length tree.old.cells ≡ length contents.old }
    requires labels { All (λ label. IsTrue (has_sides label.area)) (held_at contents.old cell).labels }
    requires own { OwnBoxIs (layout_of (held_at contents.old cell).paint) (held_at contents.old cell).labels (cell_at tree.old.cells cell).own }
    ensures done { OnOk result (IsUnlabelledIn text.now cell contents.old contents.new tree.old tree.new) }
    ensures kept { OnErr result (contents.new ≡ contents.old) }
    ensures same { OnErr result (tree.new ≡ tree.old) }
    ensures fault { IfErr result (EditIsRefused tree.old.edits (FirstOf (has_text (held_at contents.old cell).labels text.now ≡ false) LibFault.NoLabel NothingElse)) }
{
    check_edits(tree)?;
    if !has_text(contents.get(cell).labels.as_slice(), text) {
        return Err(LibFault::NoLabel);
    }
    tree.lawful();
    contents.remove_labels(cell, text);
    let own = box_of_own(contents, cell);
    tree.shrink_box(cell, own);
    Ok(())
}
