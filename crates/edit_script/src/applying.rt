//! Applies a command.
ghost use Rattle.std.specs.Prelude.{◌≡◌, IfErr, OnOk, OnErr};
ghost use Rattle.script_lines.specs.Forms.{IsFormed};
ghost use Rattle.cell_library.specs.Libraries.{IsSame};
ghost use Rattle.edit_script.specs.Answers.{Applies};
ghost use Rattle.edit_script.specs.Editing.{IsCurrent, editing_of};
ghost use Rattle.edit_script.specs.Edits.{applied};
ghost use Rattle.edit_script.specs.Refusals.{ApplyIsRefused, IsRefusedOrLacksMemory};
ghost use Rattle.edit_script.specs.Stamps.{IsStamped};

use crate::cell_edits::{edit_cell, new_cell};
use crate::faults::EditFault;
use crate::own_edits::{erase, label, paint, unlabel};
use crate::use_edits::{array, delete_use, move_use, place};
use cell_library::Library;
use ext_model::CellKey;
use script_lines::Command;
use std::alloc::Global;

// What `apply` does, by the kind of command.
fn dispatch(
    alloc: Global,
    library: &mut Library,
    current: &mut Option<CellKey>,
    command: &Command,
) -> Result<(), EditFault>
    requires formed { IsFormed command.now }
    requires current { IsCurrent library.old current.old }
    ensures applies { Applies library.old current.old library.new current.new command.now result }
    ensures stamped { OnOk result (IsStamped library.old library.new current.old command.now) }
{
    match command {
        Command::New(name) => new_cell(alloc, library, current, name),
        Command::Edit(name) => edit_cell(alloc, library, current, name),
        Command::Paint(layer, area) => paint(alloc, library, *current, layer, *area),
        Command::Erase(layer, area) => erase(alloc, library, *current, layer, *area),
        Command::Place(name, id, six) => place(alloc, library, *current, name, id, six),
        Command::Array(id, six) => array(alloc, library, *current, id, six),
        Command::Move(id, dx, dy) => move_use(alloc, library, *current, id, *dx, *dy),
        Command::Delete(id) => delete_use(alloc, library, *current, id),
        Command::Label(layer, area, position, text) => {
            label(alloc, library, *current, layer, *area, *position, text)
        }
        Command::Unlabel(text) => unlabel(alloc, library, *current, text),
        _ => Ok(()),
    }
}

/// Applies one of the commands `new`, `edit`, `paint`, `erase`, `place`, `array`, `move`, `delete`, `label` and `unlabel`. Other commands do
/// nothing. A refused command changes nothing.
pub fn apply(
    alloc: Global,
    library: &mut Library,
    current: &mut Option<CellKey>,
    command: &Command,
) -> Result<(), EditFault>
    requires formed { IsFormed command.now }
    requires current { IsCurrent library.old current.old }
    ensures done { OnOk result (editing_of library.new current.new ≡ applied (editing_of library.old current.old) command.now) }
    ensures accepted { OnOk result ((fault : EditFault) → ApplyIsRefused (editing_of library.old current.old) command.now fault → ⊥) }
    ensures refused { IfErr result (IsRefusedOrLacksMemory (editing_of library.old current.old) command.now) }
    ensures same { OnErr result (IsSame library.old library.new) }
    ensures stamped { OnOk result (IsStamped library.old library.new current.old command.now) }
    ensures kept { OnErr result (current.new ≡ current.old) }
    ensures current { IsCurrent library.new current.new }
{
    dispatch(alloc, library, current, command)
}
