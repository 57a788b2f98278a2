//! The commands that edit.
ghost use Rattle.std.specs.Prelude.{◌≡◌, ◌∷◌, [], IfOk, IsOkUnless};
ghost use Rattle.script_lines.specs.Forms.{IsFormed};
ghost use Rattle.session_model.specs.Effects.{AnswersAlone};
ghost use Rattle.line_answers.specs.LineEffects.{IsOfInside};
ghost use Rattle.line_answers.specs.Refusals.{refusal_line};
ghost use Rattle.workspace.specs.LibraryAnswers.Refusals.{edit_refusal};
ghost use Rattle.workspace.specs.KeptSessions.{IsSession, state_of};
ghost use Rattle.library_commands.specs.CommandEdits.{EditMeans, nothing_to_edit};

use line_answers::{refuse_no_cell, refuse_no_tech, told};
use script_lines::Command;
use session_model::{Answer, Halt};
use std::alloc::Global;
use uniqueness::edit_script::EditFault;
use workspace::LayoutSession;
use workspace::library_answers::{ok, refuse_edit};

/// A command that edits, the script's line of this number.
pub fn edit(
    alloc: Global,
    session: &mut LayoutSession,
    number: usize,
    command: &Command,
) -> Result<Answer, Halt>
    requires session { IsSession session.old }
    requires formed { IsFormed command.now }
    ensures effect { IfOk result (AnswersAlone (EditMeans number (state_of session.old) command.now) (state_of session.new)) }
    ensures kept { IsSession session.new }
    ensures inside { IfOk result (λ answer. IsOfInside answer.lines.items) }
    ensures memory { IsOkUnless result Halt.Memory }
{
    let Some(edited) = &mut session.edited else {
        return refuse_without_tech(alloc, number, command);
    };
    edited.library.lawful();
    match edited
        .log
        .apply(&mut edited.library, &mut edited.current, command)
    {
        Ok(()) => Ok(told(alloc, ok(alloc)?)),
        Err(EditFault::Memory) => Err(Halt::Memory),
        Err(fault) => refused(alloc, number, fault),
    }
}

// The answer where an edit is refused for some other reason than want of memory. The fault is let go.
fn refused(alloc: Global, number: usize, fault: EditFault) -> Result<Answer, Halt>
    ensures lines { IfOk result (λ answer. answer.lines.items ≡ refusal_line number (edit_refusal fault) ∷ []) }
    ensures stores { IfOk result (λ answer. answer.stores.items ≡ []) }
    ensures memory { IsOkUnless result Halt.Memory }
{
    refuse_edit(alloc, number, &fault)
}

// The answer to a command that edits where no technology was read yet.
fn refuse_without_tech(alloc: Global, number: usize, command: &Command) -> Result<Answer, Halt>
    ensures lines { IfOk result (λ answer. answer.lines.items ≡ refusal_line number (nothing_to_edit command.now) ∷ []) }
    ensures stores { IfOk result (λ answer. answer.stores.items ≡ []) }
    ensures inside { IfOk result (λ answer. IsOfInside answer.lines.items) }
    ensures memory { IsOkUnless result Halt.Memory }
{
    match command {
        Command::Edit(cell) => refuse_no_cell(alloc, number, cell),
        _ => refuse_no_tech(alloc, number),
    }
}
