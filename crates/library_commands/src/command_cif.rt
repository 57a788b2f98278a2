//! `cif c`: it stores the CIF text of c, and leaves the session as it is.
ghost use Rattle.std.specs.Prelude.{IfOk, IsOkUnless};
ghost use Rattle.session_model.specs.Effects.{AnswersAlone};
ghost use Rattle.line_answers.specs.LineEffects.{IsOfInside};
ghost use Rattle.workspace.specs.KeptSessions.{IsSession, state_of};
ghost use Rattle.library_commands.specs.CommandCif.{WriteMeans};

use cif_commands::cif;
use line_answers::{refuse_no_cell, refuse_no_tech};
use names_lists::Name;
use session_model::{Answer, Halt};
use std::alloc::Global;
use workspace::LayoutSession;

/// Writes the cell of this name as a CIF text, the script's line of this number.
pub fn write_cif(
    alloc: Global,
    session: &LayoutSession,
    number: usize,
    name: &Name,
) -> Result<Answer, Halt>
    requires { IsSession session.now }
    ensures effect { IfOk result (AnswersAlone (WriteMeans number (state_of session.now) name.now) (state_of session.now)) }
    ensures inside { IfOk result (λ answer. IsOfInside answer.lines.items) }
    ensures memory { IsOkUnless result Halt.Memory }
{
    let Some(edited) = &session.edited else {
        return refuse_no_tech(alloc, number);
    };
    let Some(cell) = edited.library.find(name.bytes()) else {
        return refuse_no_cell(alloc, number, name);
    };
    cif(alloc, &edited.library, number, cell, name)
}
