//! `load c`: reads c.mag and the file of every cell below it that the library lacks.
ghost use Rattle.std.specs.Prelude.{◌≡◌, Some, IfOk, IsTrue};
ghost use Rattle.text_scan.specs.PlainNames.{is_plain_name};
ghost use Rattle.outside_io.specs.Files.{Files};
ghost use Rattle.session_model.specs.Causes.{HasCauses, kinds_of};
ghost use Rattle.session_model.specs.Effects.{Answers};
ghost use Rattle.workspace.specs.KeptSessions.{IsEdited, IsSession, edited_state, state_of};
ghost use Rattle.library_commands.specs.CommandLoad.{LoadMeans};

use ext_model::CellKey;
use line_answers::{refuse_no_tech, told};
use names_lists::Name;
use outside_io::Shelf;
use session_model::{Answer, Halt};
use std::alloc::Global;
use uniqueness::cell_loading::{Loaded, load_cells};
use workspace::library_answers::{loaded, refuse_load};
use workspace::{Edited, LayoutSession};

/// `load c`, the script's line of this number.
pub fn load<F: Shelf>(
    alloc: Global,
    session: &mut LayoutSession,
    shelf: &mut F,
    number: usize,
    cell: &Name,
) -> Result<Answer, Halt>
    requires session { IsSession session.old }
    requires cell { IsTrue (is_plain_name cell.now) }
    ensures effect { (files : Files) → F.files shelf.old ≡ Some files → IfOk result (λ answer.
        Answers (LoadMeans number (state_of session.old) files cell.now) (state_of session.new) answer (F.fetch_plan shelf.old) (F.fetch_plan shelf.new)) }
    ensures kept { IsSession session.new }
    ensures files { F.files shelf.new ≡ F.files shelf.old }
    ensures causes { HasCauses F.Shelf shelf.old shelf.new kinds_of result }
{
    match &mut session.edited {
        Some(edited) => load_into(alloc, edited, shelf, number, cell),
        None => refuse_no_tech(alloc, number),
    }
}

// Loads the cell into the library that is edited, where it becomes the current one.
fn load_into<F: Shelf>(
    alloc: Global,
    edited: &mut Edited,
    shelf: &mut F,
    number: usize,
    cell: &Name,
) -> Result<Answer, Halt>
    requires edited { IsEdited edited.old }
    requires cell { IsTrue (is_plain_name cell.now) }
    ensures effect { (files : Files) → F.files shelf.old ≡ Some files → IfOk result (λ answer.
        Answers (LoadMeans number (Some (edited_state edited.old)) files cell.now) (Some (edited_state edited.new)) answer
        (F.fetch_plan shelf.old) (F.fetch_plan shelf.new)) }
    ensures kept { IsEdited edited.new }
    ensures files { F.files shelf.new ≡ F.files shelf.old }
    ensures causes { HasCauses F.Shelf shelf.old shelf.new kinds_of result }
{
    edited.library.lawful();
    let first = edited.library.cell_count();
    match load_cells(alloc, &mut edited.library, shelf, cell)? {
        Loaded::Cells(count) => {
            edited.current = Some(CellKey(first));
            edited.log.forget();
            let lines = loaded(alloc, cell, count)?;
            Ok(told(alloc, lines))
        }
        Loaded::Refused(fault) => refuse_load(alloc, number, &fault),
    }
}
