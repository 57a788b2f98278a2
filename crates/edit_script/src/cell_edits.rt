//! The commands that make a cell or choose one.
ghost use Rattle.std.specs.Prelude.{IsTrue, OnOk};
ghost use Rattle.text_scan.specs.PlainNames.{is_plain_name};
ghost use Rattle.edit_script.specs.Answers.{Applies};
ghost use Rattle.edit_script.specs.Stamps.{IsStamped};

use crate::faults::EditFault;
use crate::lookups::{cell_called, with_word};
use cell_library::Library;
use ext_model::CellKey;
use names_lists::Name;
use script_lines::Command;
use std::alloc::Global;

/// Makes an empty cell, and makes it the current one.
pub(crate) fn new_cell(
    alloc: Global,
    library: &mut Library,
    current: &mut Option<CellKey>,
    name: &Name,
) -> Result<(), EditFault>
    requires { IsTrue (is_plain_name name.now) }
    ensures applies { Applies library.old current.old library.new current.new (Command.New name.now) result }
    ensures stamped { OnOk result (IsStamped library.old library.new current.old (Command.New name.now)) }
{
    let Ok(copied) = name.copy(alloc) else {
        return Err(EditFault::Memory);
    };
    match library.new_cell(copied) {
        Ok(key) => {
            *current = Some(key);
            Ok(())
        }
        Err(fault) => Err(with_word(alloc, name, fault)),
    }
}

/// Makes the cell of the name the current one.
pub(crate) fn edit_cell(
    alloc: Global,
    library: &Library,
    current: &mut Option<CellKey>,
    name: &Name,
) -> Result<(), EditFault>
    ensures applies { Applies library.now current.old library.now current.new (Command.Edit name.now) result }
    ensures stamped { OnOk result (IsStamped library.now library.now current.old (Command.Edit name.now)) }
{
    match cell_called(alloc, library, name) {
        Ok(found) => {
            *current = Some(found);
            Ok(())
        }
        Err(fault) => Err(fault),
    }
}
