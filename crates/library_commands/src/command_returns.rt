//! `undo` and `redo`.
ghost use Rattle.std.specs.Prelude.{◌≡◌, ◌⊎◌, Some, IfErr, IfOk, IsOkUnless, OnErr, OnOk};
ghost use Rattle.session_model.specs.Effects.{AnswersAlone};
ghost use Rattle.line_answers.specs.LineEffects.{IsOfInside};
ghost use Rattle.workspace.specs.KeptSessions.{IsEdited, IsSession, edited_state, state_of};
ghost use Rattle.library_commands.specs.CommandReturns.{IsBrought, ReturnIsRefused, ReturnMeans, nothing_left};

use line_answers::told;
use look_commands::undo_log::UndoFault;
use session_model::{Answer, Halt};
use std::alloc::Global;
use workspace::library_answers::{ok, refuse_undo};
use workspace::{Edited, LayoutSession};

/// Which way a cell is brought among its versions.
#[derive(Clone, Copy, Debug, PartialEq, Eq)]
pub enum Way {
    /// To the one before the latest edit that is done.
    Undo,
    /// To the one after the latest edit that was taken back.
    Redo,
}

/// `undo` or `redo`, the script's line of this number.
pub fn bring_back(
    alloc: Global,
    session: &mut LayoutSession,
    number: usize,
    way: Way,
) -> Result<Answer, Halt>
    requires session { IsSession session.old }
    ensures effect { IfOk result (AnswersAlone (ReturnMeans way number (state_of session.old)) (state_of session.new)) }
    ensures kept { IsSession session.new }
    ensures inside { IfOk result (λ answer. IsOfInside answer.lines.items) }
    ensures memory { IsOkUnless result Halt.Memory }
{
    match &mut session.edited {
        Some(edited) => bring_edited(alloc, edited, number, way),
        None => refuse_undo(alloc, number, nothing_left(way)),
    }
}

// That no edit is left.
fn nothing_left(way: Way) -> UndoFault
    ensures { result ≡ nothing_left way }
{
    match way {
        Way::Undo => UndoFault::NothingToUndo,
        Way::Redo => UndoFault::NothingToRedo,
    }
}

// Brings a cell of the library that is edited to a version.
fn bring_edited(alloc: Global, edited: &mut Edited, number: usize, way: Way) -> Result<Answer, Halt>
    requires edited { IsEdited edited.old }
    ensures effect { IfOk result (AnswersAlone (ReturnMeans way number (Some (edited_state edited.old))) (Some (edited_state edited.new))) }
    ensures kept { IsEdited edited.new }
    ensures inside { IfOk result (λ answer. IsOfInside answer.lines.items) }
    ensures memory { IsOkUnless result Halt.Memory }
{
    match take_way(edited, way) {
        Ok(()) => Ok(told(alloc, ok(alloc)?)),
        Err(UndoFault::Memory) => Err(Halt::Memory),
        Err(fault) => refuse_undo(alloc, number, fault),
    }
}

// Brings the library that is edited to a version.
fn take_way(edited: &mut Edited, way: Way) -> Result<(), UndoFault>
    requires edited { IsEdited edited.old }
    ensures brought { OnOk result (IsBrought way (edited_state edited.old) (edited_state edited.new)) }
    ensures kept { IsEdited edited.new }
    ensures refused { IfErr result (λ fault. (fault ≡ UndoFault.Memory) ⊎ ReturnIsRefused way (edited_state edited.old) fault) }
    ensures same { OnErr result (edited_state edited.new ≡ edited_state edited.old) }
{
    edited.library.lawful();
    match way {
        Way::Undo => edited.log.undo(&mut edited.library),
        Way::Redo => edited.log.redo(&mut edited.library),
    }
}
