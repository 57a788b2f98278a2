//! The commands that change the uses of the current cell.
ghost use Rattle.std.specs.Prelude.{◌≡◌, Some, IsTrue, OnOk};
ghost use Rattle.script_lines.specs.CellBodies.Numbers.{is_index};
ghost use Rattle.script_lines.specs.CellBodies.Words.{is_use_id};
ghost use Rattle.script_lines.specs.Forms.{AreSixNumbers, IsNumber};
ghost use Rattle.edit_script.specs.Answers.{Applies};
ghost use Rattle.edit_script.specs.Editing.{IsCurrent};
ghost use Rattle.edit_script.specs.Edits.{grid_of};
ghost use Rattle.edit_script.specs.Stamps.{IsStamped};

use crate::faults::EditFault;
use crate::lookups::{cell_called, told};
use cell_library::Library;
use ext_model::CellKey;
use geo_core::Grid;
use names_lists::Name;
use script_lines::Command;
use std::alloc::Global;

/// Adds a use of the cell of the name to the current cell, by the six numbers of a transform.
pub(crate) fn place(
    alloc: Global,
    library: &mut Library,
    current: Option<CellKey>,
    name: &Name,
    id: &Name,
    six: &[i64; 6],
) -> Result<(), EditFault>
    requires current { IsCurrent library.old current }
    requires id { IsTrue (is_use_id id.now) }
    ensures applies { Applies library.old current library.new current (Command.Place name.now id.now six.now) result }
    ensures stamped { OnOk result (IsStamped library.old library.new current (Command.Place name.now id.now six.now)) }
{
    let Some(cell) = current else {
        return Err(EditFault::NoCurrent);
    };
    match cell_called(alloc, library, name) {
        Ok(child) => {
            let Ok(copied) = id.copy(alloc) else {
                return Err(EditFault::Memory);
            };
            told(alloc, id, library.place(cell, child, copied, *six))
        }
        Err(fault) => Err(fault),
    }
}

// The grid of six numbers.
fn grid_of(six: &[i64; 6]) -> Grid
    requires { AreSixNumbers six.now }
    ensures is { grid_of six.now ≡ Some result }
    ensures xlo { IsTrue (is_index result.xlo) }
    ensures xhi { IsTrue (is_index result.xhi) }
    ensures ylo { IsTrue (is_index result.ylo) }
    ensures yhi { IsTrue (is_index result.yhi) }
{
    let [xlo, xhi, xsep, ylo, yhi, ysep] = *six;
    Grid {
        xlo,
        xhi,
        xsep,
        ylo,
        yhi,
        ysep,
    }
}

/// Makes the use an array, by the six numbers of a grid.
pub(crate) fn array(
    alloc: Global,
    library: &mut Library,
    current: Option<CellKey>,
    id: &Name,
    six: &[i64; 6],
) -> Result<(), EditFault>
    requires current { IsCurrent library.old current }
    requires six { AreSixNumbers six.now }
    ensures applies { Applies library.old current library.new current (Command.Array id.now six.now) result }
    ensures stamped { OnOk result (IsStamped library.old library.new current (Command.Array id.now six.now)) }
{
    let Some(cell) = current else {
        return Err(EditFault::NoCurrent);
    };
    let grid = grid_of(six);
    told(alloc, id, library.place_array(cell, id.bytes(), grid))
}

/// Displaces the use.
pub(crate) fn move_use(
    alloc: Global,
    library: &mut Library,
    current: Option<CellKey>,
    id: &Name,
    dx: i64,
    dy: i64,
) -> Result<(), EditFault>
    requires current { IsCurrent library.old current }
    requires dx { IsNumber dx }
    requires dy { IsNumber dy }
    ensures applies { Applies library.old current library.new current (Command.Move id.now dx dy) result }
    ensures stamped { OnOk result (IsStamped library.old library.new current (Command.Move id.now dx dy)) }
{
    let Some(cell) = current else {
        return Err(EditFault::NoCurrent);
    };
    told(alloc, id, library.move_use(cell, id.bytes(), dx, dy))
}

/// Takes the use away.
pub(crate) fn delete_use(
    alloc: Global,
    library: &mut Library,
    current: Option<CellKey>,
    id: &Name,
) -> Result<(), EditFault>
    requires { IsCurrent library.old current }
    ensures applies { Applies library.old current library.new current (Command.Delete id.now) result }
    ensures stamped { OnOk result (IsStamped library.old library.new current (Command.Delete id.now)) }
{
    let Some(cell) = current else {
        return Err(EditFault::NoCurrent);
    };
    told(alloc, id, library.delete_use(cell, id.bytes()))
}
