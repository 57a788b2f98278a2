//! `vectors c f` and `grade c f`: runs f.vec on the network of the circuit of c, and tells what it replies or which stuck faults it detects.
ghost use Rattle.std.specs.Prelude.{◌≡◌, ◌<◌, Some, length, IfOk};
ghost use Rattle.outside_io.specs.Files.{Files};
ghost use Rattle.session_model.specs.Causes.{HasCauses, kinds_of};
ghost use Rattle.session_model.specs.Effects.{Answers};
ghost use Rattle.session_model.specs.Fetches.{text_in};
ghost use Rattle.workspace.specs.KeptSessions.{IsEdited, IsSession, edited_state, state_of};
ghost use Rattle.extract_commands.specs.CommandVectors.{RunsFetched, VectorsMeans, run_of};

use crate::cell_runs::run_extracted;
use ext_model::CellKey;
use line_answers::{file_name, refuse_file, refuse_no_cell, refuse_no_tech};
use names_lists::{List, Name};
use outside_io::Shelf;
use session_model::{Answer, Fetched, Halt, fetch_text};
use std::alloc::{AllocError, Global};
use workspace::network_runs::NetworkRun;
use workspace::{Edited, LayoutSession};

/// What is asked of vectors on the circuit of a cell.
#[derive(Clone, Copy, Debug, PartialEq, Eq)]
pub enum VectorQuestion {
    /// What they reply: `vectors c f`.
    Replies,
    /// Which stuck faults they detect: `grade c f`.
    Faults,
}

/// `vectors c f` or `grade c f`, the script's line of this number.
pub fn vectors<F: Shelf>(
    alloc: Global,
    session: &mut LayoutSession,
    shelf: &mut F,
    number: usize,
    budget: u32,
    question: VectorQuestion,
    name: &Name,
    file: &Name,
) -> Result<Answer, Halt>
    requires { IsSession session.old }
    ensures effect { (files : Files) → F.files shelf.old ≡ Some files → IfOk result (λ answer.
        Answers (VectorsMeans question budget number (state_of session.old) files name.now file.now) (state_of session.new) answer
        (F.fetch_plan shelf.old) (F.fetch_plan shelf.new)) }
    ensures kept { IsSession session.new }
    ensures files { F.files shelf.new ≡ F.files shelf.old }
    ensures causes { HasCauses F.Shelf shelf.old shelf.new kinds_of result }
{
    match &mut session.edited {
        Some(edited) => {
            vectors_named(alloc, edited, shelf, number, budget, question, name, file)
        }
        None => refuse_no_tech(alloc, number),
    }
}

// Runs vectors on the circuit of the cell of this name, where there is one.
fn vectors_named<F: Shelf>(
    alloc: Global,
    edited: &mut Edited,
    shelf: &mut F,
    number: usize,
    budget: u32,
    question: VectorQuestion,
    name: &Name,
    file: &Name,
) -> Result<Answer, Halt>
    requires { IsEdited edited.old }
    ensures effect { (files : Files) → F.files shelf.old ≡ Some files → IfOk result (λ answer.
        Answers (VectorsMeans question budget number (Some (edited_state edited.old)) files name.now file.now) (Some (edited_state edited.new)) answer
        (F.fetch_plan shelf.old) (F.fetch_plan shelf.new)) }
    ensures kept { IsEdited edited.new }
    ensures files { F.files shelf.new ≡ F.files shelf.old }
    ensures causes { HasCauses F.Shelf shelf.old shelf.new kinds_of result }
{
    match edited.library.find(name.bytes()) {
        Some(cell) => {
            let file = file_name(alloc, file, b".vec")?;
            fetch_vectors(
                alloc, edited, shelf, number, budget, question, cell, name, file,
            )
        }
        None => refuse_no_cell(alloc, number, name),
    }
}

// Runs the vectors of a file on the circuit of the cell of this name.
fn fetch_vectors<F: Shelf>(
    alloc: Global,
    edited: &mut Edited,
    shelf: &mut F,
    number: usize,
    budget: u32,
    question: VectorQuestion,
    cell: CellKey,
    name: &Name,
    file: Name,
) -> Result<Answer, Halt>
    requires edited { IsEdited edited.old }
    requires cell { cell.0 < length edited.old.library.contents }
    ensures effect { (files : Files) → F.files shelf.old ≡ Some files → IfOk result (λ answer.
        Answers (RunsFetched question budget number name.now file (text_in files file) (edited_state edited.old) cell.0) (Some (edited_state edited.new)) answer
        (F.fetch_plan shelf.old) (F.fetch_plan shelf.new)) }
    ensures kept { IsEdited edited.new }
    ensures files { F.files shelf.new ≡ F.files shelf.old }
    ensures causes { HasCauses F.Shelf shelf.old shelf.new kinds_of result }
{
    match fetch_text(alloc, shelf, &file)? {
        Fetched::Text(text) => {
            let run = run_of(alloc, question, name, text)?;
            run_extracted(alloc, edited, number, budget, &run, cell)
        }
        Fetched::Refused(fault) => refuse_file(alloc, number, &file, fault),
    }
}

// What is run to answer the question, of vectors of this text on the circuit of the cell of this name.
fn run_of(
    alloc: Global,
    question: VectorQuestion,
    name: &Name,
    text: Vec<u8>,
) -> Result<NetworkRun, AllocError>
    ensures { IfOk result (λ run. run ≡ run_of question name.now text.items) }
{
    let text = List::of(text);
    match question {
        VectorQuestion::Replies => Ok(NetworkRun::Vectors(text)),
        VectorQuestion::Faults => Ok(NetworkRun::Grade(name.copy(alloc)?, text)),
    }
}
