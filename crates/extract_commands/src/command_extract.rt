//! `extract c`: makes a new record of each dirty cell at and below c, and stores its file.
ghost use Rattle.std.specs.Prelude.{◌≡◌, ◌<◌, ◌⊎◌, ◌++◌, ◌∷◌, Some, [], length, IfOk, IsOkUnless};
ghost use Rattle.session_model.specs.Effects.{AnswersAlone};
ghost use Rattle.line_answers.specs.LineEffects.{IsOfInside, reply};
ghost use Rattle.workspace.specs.KeptSessions.{IsEdited, IsSession, edited_state, state_of};
ghost use Rattle.workspace.specs.Extractions.{RefusesUnclean};
ghost use Rattle.extract_commands.specs.CommandExtract.{ExtractMeans, ExtractsCell, extracted_text};

use ext_model::CellKey;
use line_answers::{
    append_count, append_with_name, joined, one_line, refuse_no_cell, refuse_no_tech, reply, told,
};
use names_lists::Name;
use session_model::{Answer, Halt, ReportLine};
use std::alloc::{AllocError, Global};
use workspace::{Edited, Extracting, Extraction, LayoutSession, extract_cell};

/// `extract c`, the script's line of this number.
pub fn extract(
    alloc: Global,
    session: &mut LayoutSession,
    number: usize,
    name: &Name,
) -> Result<Answer, Halt>
    requires { IsSession session.old }
    ensures effect { IfOk result (AnswersAlone (ExtractMeans number (state_of session.old) name.now) (state_of session.new)) }
    ensures kept { IsSession session.new }
    ensures inside { IfOk result (λ answer. IsOfInside answer.lines.items) }
    ensures memory { IsOkUnless result Halt.Memory }
{
    match &mut session.edited {
        Some(edited) => extract_named(alloc, edited, number, name),
        None => refuse_no_tech(alloc, number),
    }
}

// Extracts the cell of this name, where there is one.
fn extract_named(
    alloc: Global,
    edited: &mut Edited,
    number: usize,
    name: &Name,
) -> Result<Answer, Halt>
    requires { IsEdited edited.old }
    ensures effect { IfOk result (AnswersAlone (ExtractMeans number (Some (edited_state edited.old)) name.now) (Some (edited_state edited.new))) }
    ensures kept { IsEdited edited.new }
    ensures inside { IfOk result (λ answer. IsOfInside answer.lines.items) }
    ensures memory { IsOkUnless result Halt.Memory }
{
    match edited.library.find(name.bytes()) {
        Some(cell) => extract_found(alloc, edited, number, cell, name),
        None => refuse_no_cell(alloc, number, name),
    }
}

// Extracts the cell, which has this name.
fn extract_found(
    alloc: Global,
    edited: &mut Edited,
    number: usize,
    cell: CellKey,
    name: &Name,
) -> Result<Answer, Halt>
    requires edited { IsEdited edited.old }
    requires cell { cell.0 < length edited.old.library.contents }
    ensures effect { let work = edited_state edited.old in IfOk result (AnswersAlone
        (λ effect. ExtractsCell name.now work cell.0 effect ⊎ RefusesUnclean number work [] cell.0 effect) (Some (edited_state edited.new))) }
    ensures kept { IsEdited edited.new }
    ensures inside { IfOk result (λ answer. IsOfInside answer.lines.items) }
    ensures memory { IsOkUnless result Halt.Memory }
{
    match extract_cell(alloc, edited, number, cell)? {
        Extracting::Done(extraction) => answer(alloc, extraction, name),
        Extracting::Refused(lines) => Ok(told(alloc, lines.into_vec())),
    }
}

// What the extraction of the cell of this name comes to, and the reply to it.
fn answer(alloc: Global, extraction: Extraction, name: &Name) -> Result<Answer, Halt>
    ensures lines { IfOk result (λ answer. answer.lines.items ≡ extraction.lines ++ reply (extracted_text name.now extraction.count) ∷ []) }
    ensures stores { IfOk result (λ answer. answer.stores.items ≡ extraction.stores) }
    ensures memory { IsOkUnless result Halt.Memory }
{
    let told = extracted(alloc, name, extraction.count)?;
    Ok(Answer {
        lines: joined(extraction.lines, told)?,
        stores: extraction.stores.into_vec(),
    })
}

// The reply to an `extract` that made so many records.
fn extracted(alloc: Global, cell: &Name, count: usize) -> Result<Vec<ReportLine>, AllocError>
    ensures { IfOk result (λ lines. lines.items ≡ reply (extracted_text cell.now count) ∷ []) }
{
    let mut text = Vec::new(alloc);
    append_with_name(&mut text, b"extract ", cell)?;
    append_count(&mut text, b": ", count, b" cells")?;
    one_line(alloc, reply(text))
}
