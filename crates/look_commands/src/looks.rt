//! What is told of a cell.
ghost use Rattle.std.specs.Prelude.{◌<◌, length, IfOk, IsOkUnless};
ghost use Rattle.cell_library.specs.Libraries.{seen};
ghost use Rattle.line_answers.specs.LineEffects.{IsOfInside};
ghost use Rattle.look_commands.specs.Looks.{Tells};

use crate::command_nodes::nodes;
use crate::command_save::save;
use crate::command_squares::squares;
use cell_library::Library;
use ext_model::CellKey;
use line_answers::told;
use names_lists::Name;
use session_model::{Answer, Halt};
use std::alloc::Global;

/// What is told of a cell.
#[derive(Clone, Copy, Debug, PartialEq, Eq)]
pub enum Look {
    /// `nodes c`: the lines of the nodes of its own paint.
    Nodes,
    /// `save c`: its file is stored.
    Save,
    /// `squares c`: that it is clean, or the squares that offend of the first cell at or below it that is not.
    Squares,
}

/// Tells this of the cell, which has this name.
pub fn tell(
    alloc: Global,
    library: &Library,
    cell: CellKey,
    name: &Name,
    look: Look,
) -> Result<Answer, Halt>
    requires cell { cell.0 < length library.now.contents }
    ensures tells { IfOk result (λ answer. Tells look (seen library.now) cell.0 name.now answer.lines.items answer.stores.items) }
    ensures inside { IfOk result (λ answer. IsOfInside answer.lines.items) }
    ensures memory { IsOkUnless result Halt.Memory }
{
    match look {
        Look::Nodes => Ok(told(alloc, nodes(alloc, library, cell)?)),
        Look::Save => save(alloc, library, cell, name),
        Look::Squares => Ok(told(alloc, squares(alloc, library, cell, name)?)),
    }
}
