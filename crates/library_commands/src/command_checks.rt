//! `drc c f`: it tells where c violates design rules, and leaves the session as it is.
ghost use Rattle.std.specs.Prelude.{◌≡◌, Some, IfOk};
ghost use Rattle.outside_io.specs.Files.{Files};
ghost use Rattle.session_model.specs.Causes.{HasCauses, kinds_of};
ghost use Rattle.session_model.specs.Effects.{Answers};
ghost use Rattle.workspace.specs.KeptSessions.{IsSession, edited_state, state_of};
ghost use Rattle.library_commands.specs.CommandChecks.{CheckMeans};

use drc_commands::drc;
use line_answers::{refuse_no_cell, refuse_no_tech};
use names_lists::Name;
use outside_io::Shelf;
use session_model::{Answer, Halt};
use std::alloc::Global;
use workspace::{Edited, LayoutSession};

/// A check of the cell of this name by the design rules of a file, the script's line of this number.
pub fn check<F: Shelf>(
    alloc: Global,
    session: &LayoutSession,
    shelf: &mut F,
    number: usize,
    name: &Name,
    file: &Name,
) -> Result<Answer, Halt>
    requires { IsSession session.now }
    ensures effect { (files : Files) → F.files shelf.old ≡ Some files → IfOk result (λ answer.
        Answers (CheckMeans number (state_of session.now) files name.now file.now) (state_of session.now) answer
        (F.fetch_plan shelf.old) (F.fetch_plan shelf.new)) }
    ensures files { F.files shelf.new ≡ F.files shelf.old }
    ensures causes { HasCauses F.Shelf shelf.old shelf.new kinds_of result }
{
    match &session.edited {
        Some(edited) => check_named(alloc, edited, shelf, number, name, file),
        None => refuse_no_tech(alloc, number),
    }
}

// Checks the cell of this name, where there is one.
fn check_named<F: Shelf>(
    alloc: Global,
    edited: &Edited,
    shelf: &mut F,
    number: usize,
    name: &Name,
    file: &Name,
) -> Result<Answer, Halt>
    ensures effect { (files : Files) → F.files shelf.old ≡ Some files → IfOk result (λ answer.
        Answers (CheckMeans number (Some (edited_state edited.now)) files name.now file.now) (Some (edited_state edited.now)) answer
        (F.fetch_plan shelf.old) (F.fetch_plan shelf.new)) }
    ensures files { F.files shelf.new ≡ F.files shelf.old }
    ensures causes { HasCauses F.Shelf shelf.old shelf.new kinds_of result }
{
    match edited.library.find(name.bytes()) {
        Some(cell) => drc(alloc, &edited.library, shelf, number, cell, name, file),
        None => refuse_no_cell(alloc, number, name),
    }
}
