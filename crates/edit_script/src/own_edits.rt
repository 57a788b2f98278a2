//! The commands that change what the current cell has of its own: its paint and its labels.
ghost use Rattle.std.specs.Prelude.{◌≡◌, pos, unsigned_abs, IsTrue, OnOk};
ghost use Rattle.script_lines.specs.CellBodies.Numbers.{is_position};
ghost use Rattle.script_lines.specs.CellBodies.Words.{is_label_text};
ghost use Rattle.script_lines.specs.CellBodies.declared.limits.TheConstants.{LAST_POSITION};
ghost use Rattle.script_lines.specs.Arguments.{is_between};
ghost use Rattle.edit_script.specs.Answers.{Applies};
ghost use Rattle.edit_script.specs.Editing.{IsCurrent};
ghost use Rattle.edit_script.specs.Stamps.{IsStamped};

use crate::faults::EditFault;
use crate::lookups::{label_layer, layer_called, told};
use cell_library::Library;
use ext_model::CellKey;
use geo_core::Rect;
use names_lists::Name;
use script_lines::Command;
use std::alloc::Global;
use tech_model::Label;

/// Paints the layer over the area in the current cell.
pub(crate) fn paint(
    alloc: Global,
    library: &mut Library,
    current: Option<CellKey>,
    layer: &Name,
    area: Rect,
) -> Result<(), EditFault>
    requires { IsCurrent library.old current }
    ensures applies { Applies library.old current library.new current (Command.Paint layer.now area) result }
    ensures stamped { OnOk result (IsStamped library.old library.new current (Command.Paint layer.now area)) }
{
    let Some(cell) = current else {
        return Err(EditFault::NoCurrent);
    };
    match layer_called(alloc, library, layer) {
        Ok(number) => told(alloc, layer, library.paint(cell, number, area)),
        Err(fault) => Err(fault),
    }
}

/// Erases the layer from the area in the current cell.
pub(crate) fn erase(
    alloc: Global,
    library: &mut Library,
    current: Option<CellKey>,
    layer: &Name,
    area: Rect,
) -> Result<(), EditFault>
    requires { IsCurrent library.old current }
    ensures applies { Applies library.old current library.new current (Command.Erase layer.now area) result }
    ensures stamped { OnOk result (IsStamped library.old library.new current (Command.Erase layer.now area)) }
{
    let Some(cell) = current else {
        return Err(EditFault::NoCurrent);
    };
    match layer_called(alloc, library, layer) {
        Ok(number) => told(alloc, layer, library.erase(cell, number, area)),
        Err(fault) => Err(fault),
    }
}

// The number of a position as labels have it.
fn position_number(position: i64) -> u8
    requires { IsTrue (is_between (pos 0) (pos LAST_POSITION) position) }
    ensures is { result ≡ unsigned_abs position }
    ensures fits { IsTrue (is_position result) }
{
    position.unsigned_abs() as u8
}

/// Adds a label to the current cell. Its layer may be `space`.
pub(crate) fn label(
    alloc: Global,
    library: &mut Library,
    current: Option<CellKey>,
    layer: &Name,
    area: Rect,
    position: i64,
    text: &Name,
) -> Result<(), EditFault>
    requires current { IsCurrent library.old current }
    requires position { IsTrue (is_between (pos 0) (pos LAST_POSITION) position) }
    requires text { IsTrue (is_label_text text.now) }
    ensures applies { Applies library.old current library.new current (Command.Label layer.now area position text.now) result }
    ensures stamped { OnOk result (IsStamped library.old library.new current (Command.Label layer.now area position text.now)) }
{
    let Some(cell) = current else {
        return Err(EditFault::NoCurrent);
    };
    match label_layer(alloc, library, layer) {
        Ok(number) => {
            let Ok(copied) = text.copy(alloc) else {
                return Err(EditFault::Memory);
            };
            let label = Label {
                layer: number,
                area,
                position: position_number(position),
                text: copied,
            };
            told(alloc, text, library.label(cell, label))
        }
        Err(fault) => Err(fault),
    }
}

/// Takes each label with the text away from the current cell.
pub(crate) fn unlabel(
    alloc: Global,
    library: &mut Library,
    current: Option<CellKey>,
    text: &Name,
) -> Result<(), EditFault>
    requires { IsCurrent library.old current }
    ensures applies { Applies library.old current library.new current (Command.Unlabel text.now) result }
    ensures stamped { OnOk result (IsStamped library.old library.new current (Command.Unlabel text.now)) }
{
    let Some(cell) = current else {
        return Err(EditFault::NoCurrent);
    };
    told(alloc, text, library.unlabel(cell, text.bytes()))
}
