//! What gives a cell back the paint and the labels that it had.
ghost use Rattle.std.specs.Prelude.{◌≡◌, ◌<◌, length, All, IsTrue, OnOk, OnErr, IfErr, IfSome};
ghost use Rattle.geo_core.specs.Areas.{IsNear};
ghost use Rattle.geo_core.specs.Covering.{IsProper};
ghost use Rattle.cell_bodies.specs.Numbers.{has_sides};
ghost use Rattle.cell_bodies.specs.CellPaint.Paints.{layout_of, IsSoundPaint};
ghost use Rattle.cell_bodies.specs.CellPaint.Pieces.{with_pieces, CanStandIn};
ghost use Rattle.cell_tree.specs.declared.sizes.Dimension.TheVariants.{Hull};
ghost use Rattle.cell_tree.specs.Trees.{cell_at, with_own, IsEdited, IsLawfulOwn, WouldPass};
ghost use Rattle.cell_library.specs.Contents.{held_at, without_last, IsRepainted};
ghost use Rattle.cell_library.specs.OwnBoxes.{OwnBoxIs};
ghost use Rattle.cell_library.specs.steps.OwnRestorations.{are_between, is_inside, HasRoomFor, IsBoxBefore, IsPutBackIn, IsRelabelledIn};
ghost use Rattle.cell_library.specs.Refusals.{EditIsRefused, NothingElse, HasFaultOrLacksMemory};

use crate::checks::check_edits;
use crate::contents::Contents;
use crate::faults::LibFault;
use crate::limits::MOST_EDITS;
use crate::own_boxes::box_of_own;
use cell_tree::CellTree;
use geo_core::{Piece, Rect};
use tech_model::Label;

// Whether two ends lie between the outer two.
fn are_between(low: i64, high: i64, from: i64, to: i64) -> bool
    ensures { result ≡ are_between low high from to }
{
    from < low && high < to
}

// Whether the area lies inside the box and touches none of its sides.
fn is_inside(area: &Rect, outer: &Rect) -> bool
    ensures { result ≡ is_inside area.now outer.now }
{
    are_between(area.xlo, area.xhi, outer.xlo, outer.xhi)
        && are_between(area.ylo, area.yhi, outer.ylo, outer.yhi)
}

/// The box of what the cell has of its own, where the tree has the box of what differs in the area alone. Where the area touches no side of
/// that box, it stays, whatever the size of the cell.
pub fn box_after(contents: &Contents, tree: &CellTree, cell: usize, area: &Rect) -> Option<Rect>
    requires cell { cell < length contents.now }
    requires so_many { length tree.now.cells ≡ length contents.now }
    requires before { IsBoxBefore area.now (layout_of (held_at contents.now cell).paint) (held_at contents.now cell).labels (cell_at tree.now.cells cell).own }
    ensures { OwnBoxIs (layout_of (held_at contents.now cell).paint) (held_at contents.now cell).labels result }
{
    if let Some(old) = tree.own_box(cell) {
        if is_inside(area, &old) {
            return Some(old);
        }
    }
    box_of_own(contents, cell)
}

// The box of what the cell has of its own after a label went, or none did.
fn box_without(
    contents: &Contents,
    tree: &CellTree,
    cell: usize,
    gone: Option<Label>,
) -> Option<Rect>
    requires cell { cell < length contents.now }
    requires so_many { length tree.now.cells ≡ length contents.now }
    requires before { IfSome gone (λ label.
        IsBoxBefore label.area (layout_of (held_at contents.now cell).paint) (held_at contents.now cell).labels (cell_at tree.now.cells cell).own) }
    ensures { OwnBoxIs (layout_of (held_at contents.now cell).paint) (held_at contents.now cell).labels result }
{
    match gone {
        Some(label) => box_after(contents, tree, cell, &label.area),
        None => box_of_own(contents, cell),
    }
}

// Gives the cell a box for which it has room.
fn give_box(tree: &mut CellTree, cell: usize, own: Option<Rect>)
    requires cell { cell < length tree.old.cells }
    requires edits { tree.old.edits < MOST_EDITS }
    requires lawful { IsLawfulOwn own }
    requires fits { WouldPass Hull tree.old cell (with_own (cell_at tree.old.cells cell) own) → ⊥ }
    ensures { IsEdited tree.old tree.new cell (with_own (cell_at tree.old.cells cell) own) }
{
    match tree.set_box(cell, own) {
        Ok(()) => {}
        Err(_) => unreachable!(),
    }
}

/// Puts the pieces in the area of a cell, and space between them. The cell has room for that. A refusal changes no layout and not the
/// tree.
pub fn put_back_cell(
    contents: &mut Contents,
    tree: &mut CellTree,
    cell: usize,
    area: Rect,
    pieces: &[(u8, Piece)],
) -> Result<(), LibFault>
    requires cell { cell < length contents.old }
    requires so_many { length tree.old.cells ≡ length contents.old }
    requires proper { IsProper area }
    requires near { IsNear area }
    requires pieces { CanStandIn area (length (held_at contents.old cell).paint.planes) pieces.now }
    requires sound { IsSoundPaint (held_at contents.old cell).paint.kinds (with_pieces area pieces.now (layout_of (held_at contents.old cell).paint)) }
    requires room { HasRoomFor tree.old cell (with_pieces area pieces.now (layout_of (held_at contents.old cell).paint)) (held_at contents.old cell).labels }
    requires own { OwnBoxIs (layout_of (held_at contents.old cell).paint) (held_at contents.old cell).labels (cell_at tree.old.cells cell).own }
    ensures done { OnOk result (IsPutBackIn area pieces.now cell contents.old contents.new tree.old tree.new) }
    ensures kept { OnErr result (IsRepainted contents.old contents.new cell (λ own. own)) }
    ensures same { OnErr result (tree.new ≡ tree.old) }
    ensures fault { IfErr result (HasFaultOrLacksMemory (EditIsRefused tree.old.edits NothingElse)) }
{
    check_edits(tree)?;
    contents.put_back(cell, area, pieces)?;
    let own = box_after(contents, tree, cell, &area);
    give_box(tree, cell, own);
    Ok(())
}

/// Takes the last label of a cell away, where it has one. A refusal changes nothing. It takes no memory.
pub fn drop_last_label_of(
    contents: &mut Contents,
    tree: &mut CellTree,
    cell: usize,
) -> Result<(), LibFault>
    requires cell { cell < length contents.old }
    requires so_many { length tree.old.cells ≡ length contents.old }
    requires labels { All (λ label. IsTrue (has_sides label.area)) (held_at contents.old cell).labels }
    requires own { OwnBoxIs (layout_of (held_at contents.old cell).paint) (held_at contents.old cell).labels (cell_at tree.old.cells cell).own }
    ensures done { OnOk result (IsRelabelledIn (without_last (held_at contents.old cell).labels) cell contents.old contents.new tree.old tree.new) }
    ensures kept { OnErr result (contents.new ≡ contents.old) }
    ensures same { OnErr result (tree.new ≡ tree.old) }
    ensures fault { IfErr result (EditIsRefused tree.old.edits NothingElse) }
{
    check_edits(tree)?;
    tree.lawful();
    let gone = contents.pop_label(cell);
    let own = box_without(contents, tree, cell, gone);
    tree.shrink_box(cell, own);
    Ok(())
}

/// Gives a cell these labels, for which it has room. A refusal changes nothing. It takes no memory.
pub fn set_labels_of(
    contents: &mut Contents,
    tree: &mut CellTree,
    cell: usize,
    labels: Vec<Label>,
) -> Result<(), LibFault>
    requires cell { cell < length contents.old }
    requires so_many { length tree.old.cells ≡ length contents.old }
    requires room { HasRoomFor tree.old cell (layout_of (held_at contents.old cell).paint) labels.items }
    ensures done { OnOk result (IsRelabelledIn labels.items cell contents.old contents.new tree.old tree.new) }
    ensures kept { OnErr result (contents.new ≡ contents.old) }
    ensures same { OnErr result (tree.new ≡ tree.old) }
    ensures fault { IfErr result (EditIsRefused tree.old.edits NothingElse) }
{
    check_edits(tree)?;
    contents.set_labels(cell, labels);
    let own = box_of_own(contents, cell);
    give_box(tree, cell, own);
    Ok(())
}
