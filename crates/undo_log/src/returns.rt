//! A library is brought to an earlier version.
ghost use Rattle.std.specs.Prelude.{◌≡◌, ◌≢◌, ◌⊎◌, ◌<◌, [], List, length, IfErr, OnErr, OnOk};
ghost use Rattle.edit_script.specs.CellLibrary.Libraries.{IsNextEdit, IsSame, edits_of, seen};
ghost use Rattle.edit_script.specs.CellLibrary.Refusals.{AnswersOrLacksMemory, EditIsRefused, NothingElse};
ghost use Rattle.edit_script.specs.CellLibrary.declared.limits.TheConstants.{MOST_EDITS};
ghost use Rattle.undo_log.specs.Inverses.{CanBeMade, IsReturned, LeadTo, changed};
ghost use Rattle.undo_log.specs.Versions.{Version};

use crate::changes::{Change, Inverse};
use crate::faults::UndoFault;
use crate::inverses::{copy_label, copy_labels, inverse_of_change};
use crate::trails::Trail;
use edit_script::cell_library::{LibFault, Library};
use ext_model::CellKey;
use std::alloc::Global;

// Makes the change of the cell. It takes its memory first.
fn make(
    alloc: Global,
    library: &mut Library,
    cell: CellKey,
    change: &Change,
) -> Result<(), LibFault>
    requires cell { cell.0 < length library.old.contents }
    requires change { CanBeMade (seen library.old) cell.0 change.now }
    ensures answers { AnswersOrLacksMemory (EditIsRefused (edits_of library.old) NothingElse) result }
    ensures made { OnOk result (seen library.new ≡ changed (seen library.old) cell.0 change.now) }
    ensures edit { OnOk result (IsNextEdit library.old library.new cell.0) }
    ensures refused { OnErr result (IsSame library.old library.new) }
{
    library.lawful();
    match change {
        Change::Repaint(area, pieces) => library.put_back(cell, *area, pieces.items()),
        Change::InsertUse(at, id, used) => library.insert_use(cell, *at, id.copy(alloc)?, *used),
        Change::DeleteUse(id) => library.delete_use(cell, id.bytes()),
        Change::MoveUse(id, dx, dy) => library.move_use(cell, id.bytes(), *dx, *dy),
        Change::SetGrid(id, grid) => library.set_grid(cell, id.bytes(), *grid),
        Change::AddLabel(label) => library.label(cell, copy_label(alloc, label)?),
        Change::DropLabel => library.drop_last_label(cell),
        Change::SetLabels(labels) => library.set_labels(cell, copy_labels(alloc, labels.items())?),
    }
}

// What is told of a fault of the library.
fn fault_of(fault: LibFault) -> UndoFault
    ensures memory { fault ≡ LibFault.Memory → result ≡ UndoFault.Memory }
    ensures edits { fault ≢ LibFault.Memory → result ≡ UndoFault.Edits }
{
    match fault {
        LibFault::Memory => UndoFault::Memory,
        _ => UndoFault::Edits,
    }
}

/// Brings the library to where the latest inverse leads. The inverse goes, and what takes it back comes to the other inverses. It takes its
/// memory first, and a refusal changes nothing.
pub fn bring_back(
    alloc: Global,
    library: &mut Library,
    from: &mut Trail,
    to: &mut Trail,
) -> Result<(), UndoFault>
    requires some { from.old ≢ [] }
    requires fits { (versions : List Version) × LeadTo (seen library.old) from.old versions }
    ensures returned { OnOk result ((earlier later : List Version) → LeadTo (seen library.old) from.old earlier → LeadTo (seen library.old) to.old later
        → IsReturned library.old library.new earlier later from.new to.new) }
    ensures few { OnOk result (edits_of library.old ≢ MOST_EDITS) }
    ensures refused { IfErr result (λ fault. (fault ≡ UndoFault.Memory) ⊎ ((edits_of library.old ≡ MOST_EDITS) × (fault ≡ UndoFault.Edits))) }
    ensures same { OnErr result (IsSame library.old library.new) }
    ensures from { OnErr result (from.new ≡ from.old) }
    ensures to { OnErr result (to.new ≡ to.old) }
{
    library.lawful();
    let Some(latest) = from.latest() else {
        unreachable!();
    };
    let cell = latest.cell;
    let back = inverse_of_change(alloc, library, cell, &latest.change)?;
    to.push(Inverse { cell, change: back })?;
    match make(alloc, library, cell, &latest.change) {
        Ok(()) => {
            from.drop_latest();
            Ok(())
        }
        Err(fault) => {
            to.drop_latest();
            Err(fault_of(fault))
        }
    }
}
