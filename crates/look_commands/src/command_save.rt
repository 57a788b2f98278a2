//! `save c`: stores c.mag.
ghost use Rattle.std.specs.Prelude.{◌≡◌, ◌<◌, ◌∷◌, [], length, IfOk, IsOkUnless};
ghost use Rattle.cell_library.specs.Libraries.{seen};
ghost use Rattle.line_answers.specs.LineEffects.{IsOfInside, reply};
ghost use Rattle.look_commands.specs.CommandSave.{SavesCell, saved_text};

use cell_library::Library;
use ext_model::CellKey;
use library_answers::mag_text::write_mag;
use line_answers::{append_with_name, file_name, one_line, one_store, reply};
use names_lists::{List, Name};
use session_model::{Answer, Halt, ReportLine, Store};
use std::alloc::{AllocError, Global};

/// Stores the file of the cell, which has this name.
pub fn save(alloc: Global, library: &Library, cell: CellKey, name: &Name) -> Result<Answer, Halt>
    requires { cell.0 < length library.now.contents }
    ensures saves { IfOk result (λ answer. SavesCell (seen library.now) cell.0 name.now answer.lines.items answer.stores.items) }
    ensures inside { IfOk result (λ answer. IsOfInside answer.lines.items) }
    ensures memory { IsOkUnless result Halt.Memory }
{
    let text = write_mag(alloc, library, cell)?;
    let store = Store {
        name: file_name(alloc, name, b".mag")?,
        bytes: List::of(text),
    };
    Ok(Answer {
        lines: saved(alloc, name)?,
        stores: one_store(alloc, store)?,
    })
}

// The reply to a `save`.
fn saved(alloc: Global, cell: &Name) -> Result<Vec<ReportLine>, AllocError>
    ensures { IfOk result (λ lines. lines.items ≡ reply (saved_text cell.now) ∷ []) }
{
    let mut text = Vec::new(alloc);
    append_with_name(&mut text, b"save ", cell)?;
    one_line(alloc, reply(text))
}
