//! What takes edits and changes back, made of the library as it is before them.
ghost use Rattle.std.specs.Prelude.{◌≡◌, ◌<◌, ◌&&◌, true, false, length, slice_get, IfOk, IfNone, IfSome, IsSomeAnd, MatchOption, Some};
ghost use Rattle.geo_core.specs.Areas.{IsNear, has_square};
ghost use Rattle.geo_core.specs.Covering.{IsProper};
ghost use Rattle.edit_script.specs.CellLibrary.CellPaint.Painting.{is_in_range};
ghost use Rattle.edit_script.specs.CellLibrary.Libraries.{seen};
ghost use Rattle.edit_script.specs.CellLibrary.Refusals.{has_id};
ghost use Rattle.edit_script.specs.CellLibrary.Views.{view_at};
ghost use Rattle.edit_script.specs.ScriptLines.Forms.{IsFormed};
ghost use Rattle.edit_script.specs.Editing.{editing_of};
ghost use Rattle.edit_script.specs.Edits.{applied};
ghost use Rattle.undo_log.specs.Inverses.{CanBeMade, TakesBack, changed};
ghost use Rattle.undo_log.specs.steps.Makings.{Accepts, AddsLast, BringsAgain, GivesGrid, OfUse, PutsBack};
ghost use Rattle.undo_log.specs.Versions.{is_edit};

use crate::changes::Change;
use cell_paint::is_coordinate;
use cell_tree::UseBody;
use edit_script::cell_library::Library;
use edit_script::script_lines::Command;
use ext_model::CellKey;
use geo_core::Rect;
use names_lists::{List, Name};
use std::alloc::{AllocError, Global};
use tech_model::Label;

// Whether paint may go over the area.
fn can_be_painted(area: &Rect) -> bool
    ensures { result ≡ (has_square area.now && is_in_range area.now) }
{
    area.has_square()
        && is_coordinate(area.xlo)
        && is_coordinate(area.ylo)
        && is_coordinate(area.xhi)
        && is_coordinate(area.yhi)
}

// What puts back what stands in the area.
fn paint_back(library: &Library, cell: CellKey, area: Rect) -> Result<Change, AllocError>
    requires cell { cell.0 < length library.now.contents }
    requires proper { IsProper area }
    requires near { IsNear area }
    ensures { IfOk result (λ back. PutsBack library.now.tech (view_at (seen library.now) cell.0) area back) }
{
    library.sound(cell);
    match library.take_out(cell, area) {
        Ok(pieces) => Ok(Change::Repaint(area, List::of(pieces))),
        Err(_) => Err(AllocError),
    }
}

// The same, if paint may go over the area.
fn brush_back(library: &Library, cell: CellKey, area: Rect) -> Result<Option<Change>, AllocError>
    requires cell { cell.0 < length library.now.contents }
    ensures { IfOk result (λ made. MatchOption made ((has_square area && is_in_range area) ≡ false)
        (PutsBack library.now.tech (view_at (seen library.now) cell.0) area)) }
{
    if !can_be_painted(&area) {
        return Ok(None);
    }
    Ok(Some(paint_back(library, cell, area)?))
}

// The place of the use of the id among the cell's, and its body, if there is one.
fn use_of(library: &Library, cell: CellKey, id: &Name) -> Option<(usize, UseBody)>
    requires cell { cell.0 < length library.now.contents }
    ensures there { IfSome result (λ found. slice_get (view_at (seen library.now) cell.0).uses found.0 ≡ Some (id.now, found.1)) }
    ensures none { IfNone result (has_id (view_at (seen library.now) cell.0).uses id.now ≡ false) }
{
    let Some(place) = library.find_use(cell, id.bytes()) else {
        return None;
    };
    let Some((_, used)) = library.use_at(cell, place) else {
        unreachable!();
    };
    Some((place, *used))
}

// What brings the use of the id again where it stands, if there is one.
fn use_back(
    alloc: Global,
    library: &Library,
    cell: CellKey,
    id: &Name,
) -> Result<Option<Change>, AllocError>
    requires cell { cell.0 < length library.now.contents }
    ensures { IfOk result (OfUse (view_at (seen library.now) cell.0) id.now (BringsAgain (view_at (seen library.now) cell.0) id.now)) }
{
    match use_of(library, cell, id) {
        Some((place, used)) => Ok(Some(Change::InsertUse(place, id.copy(alloc)?, used))),
        None => Ok(None),
    }
}

// What gives the use of the id the grid that it has, if there is one.
fn grid_back(
    alloc: Global,
    library: &Library,
    cell: CellKey,
    id: &Name,
) -> Result<Option<Change>, AllocError>
    requires cell { cell.0 < length library.now.contents }
    ensures { IfOk result (OfUse (view_at (seen library.now) cell.0) id.now (GivesGrid (view_at (seen library.now) cell.0) id.now)) }
{
    match use_of(library, cell, id) {
        Some((_, used)) => Ok(Some(Change::SetGrid(id.copy(alloc)?, used.grid))),
        None => Ok(None),
    }
}

/// An equal label.
pub fn copy_label(alloc: Global, label: &Label) -> Result<Label, AllocError>
    ensures { IfOk result (λ copy. copy ≡ label.now) }
{
    Ok(Label {
        layer: label.layer,
        area: label.area,
        position: label.position,
        text: label.text.copy(alloc)?,
    })
}

/// Equal labels.
pub fn copy_labels(alloc: Global, labels: &[Label]) -> Result<Vec<Label>, AllocError>
    ensures { IfOk result (λ copies. copies.items ≡ labels.now) }
{
    let mut copies = Vec::with_capacity(alloc, labels.len())?;
    for label in labels {
        copies.push_reserved(copy_label(alloc, label)?);
    }
    Ok(copies)
}

// What gives the cell the labels that it has.
fn labels_back(alloc: Global, library: &Library, cell: CellKey) -> Result<Change, AllocError>
    requires cell { cell.0 < length library.now.contents }
    ensures { IfOk result (λ back. back ≡ Change.SetLabels (view_at (seen library.now) cell.0).labels) }
{
    let labels = copy_labels(alloc, library.labels_of(cell))?;
    Ok(Change::SetLabels(List::of(labels)))
}

/// What takes the command back, where it is an edit of the cell that is accepted.
pub fn inverse_of_edit(
    alloc: Global,
    library: &Library,
    cell: CellKey,
    command: &Command,
) -> Result<Option<Change>, AllocError>
    requires cell { cell.0 < length library.now.contents }
    requires formed { IsFormed command.now }
    requires edit { is_edit command.now ≡ true }
    ensures { IfOk result (λ made. Accepts (editing_of library.now (Some cell)) command.now
        → IsSomeAnd made (TakesBack (seen library.now) (applied (editing_of library.now (Some cell)) command.now).library cell.0)) }
{
    library.lawful();
    match command {
        Command::Paint(_, area) => brush_back(library, cell, *area),
        Command::Erase(_, area) => brush_back(library, cell, *area),
        Command::Place(_, id, _) => Ok(Some(Change::DeleteUse(id.copy(alloc)?))),
        Command::Array(id, _) => grid_back(alloc, library, cell, id),
        Command::Move(id, dx, dy) => Ok(Some(Change::MoveUse(id.copy(alloc)?, -*dx, -*dy))),
        Command::Delete(id) => use_back(alloc, library, cell, id),
        Command::Label(_, _, _, _) => Ok(Some(Change::DropLabel)),
        Command::Unlabel(_) => Ok(Some(labels_back(alloc, library, cell)?)),
        _ => unreachable!(),
    }
}

// What adds the last label of the cell again.
fn label_back(alloc: Global, library: &Library, cell: CellKey) -> Result<Change, AllocError>
    requires cell { cell.0 < length library.now.contents }
    requires some { 0 < length (view_at (seen library.now) cell.0).labels }
    ensures { IfOk result (λ back. AddsLast (view_at (seen library.now) cell.0).labels back) }
{
    let labels = library.labels_of(cell);
    let last = &labels[labels.len() - 1];
    Ok(Change::AddLabel(copy_label(alloc, last)?))
}

/// What takes the change back.
pub fn inverse_of_change(
    alloc: Global,
    library: &Library,
    cell: CellKey,
    change: &Change,
) -> Result<Change, AllocError>
    requires cell { cell.0 < length library.now.contents }
    requires change { CanBeMade (seen library.now) cell.0 change.now }
    ensures { IfOk result (λ back. TakesBack (seen library.now) (changed (seen library.now) cell.0 change.now) cell.0 back) }
{
    library.lawful();
    match change {
        Change::Repaint(area, _) => paint_back(library, cell, *area),
        Change::InsertUse(_, id, _) => Ok(Change::DeleteUse(id.copy(alloc)?)),
        Change::DeleteUse(id) => match use_back(alloc, library, cell, id)? {
            Some(back) => Ok(back),
            None => unreachable!(),
        },
        Change::MoveUse(id, dx, dy) => Ok(Change::MoveUse(id.copy(alloc)?, -*dx, -*dy)),
        Change::SetGrid(id, _) => match grid_back(alloc, library, cell, id)? {
            Some(back) => Ok(back),
            None => unreachable!(),
        },
        Change::AddLabel(_) => Ok(Change::DropLabel),
        Change::DropLabel => label_back(alloc, library, cell),
        Change::SetLabels(_) => labels_back(alloc, library, cell),
    }
}
