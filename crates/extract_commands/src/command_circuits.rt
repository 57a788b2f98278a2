//! `flat c` and `sim c`: extract c, and store the flat file or the sim file of its circuit.
ghost use Rattle.std.specs.Prelude.{◌≡◌, ◌<◌, ◌⊎◌, ◌++◌, Some, [], length, IfOk, IsOkUnless};
ghost use Rattle.layout_gen.specs.CellLibrary.Libraries.{seen};
ghost use Rattle.workspace.specs.Caches.{Agrees};
ghost use Rattle.session_model.specs.Effects.{AnswersAlone};
ghost use Rattle.line_answers.specs.LineEffects.{IsOfInside};
ghost use Rattle.workspace.specs.KeptSessions.{IsEdited, IsSession, edited_state, state_of};
ghost use Rattle.uniqueness.specs.CircuitCommands.Circuits.{lines_of, stores_of};
ghost use Rattle.extract_commands.specs.CommandCircuits.{CircuitMeans, IsWrittenAt, WritesCircuit};
ghost use Rattle.workspace.specs.Extracting.{IsFreshBelow};
ghost use Rattle.workspace.specs.Extractions.{RefusesUnclean};

use ext_model::CellKey;
use line_answers::{joined, refuse_no_cell, refuse_no_tech, told};
use names_lists::Name;
use session_model::{Answer, Halt};
use std::alloc::Global;
use uniqueness::circuit_commands::{
    CircuitFile, Limit, Written, write_flat_file, write_given, written_alone,
};
use workspace::circuit_laws::flat_transistor_has_letter_and_lengths;
use workspace::{
    Edited, Extracting, Extraction, Flattened, LayoutSession, extract_cell, flatten_kept,
    flatten_kept_into,
};

/// `flat c` or `sim c`, by the file that is stored, the script's line of this number.
pub fn circuit(
    alloc: Global,
    session: &mut LayoutSession,
    number: usize,
    name: &Name,
    file: CircuitFile,
) -> Result<Answer, Halt>
    requires { IsSession session.old }
    ensures effect { IfOk result (AnswersAlone (CircuitMeans file number (state_of session.old) name.now) (state_of session.new)) }
    ensures kept { IsSession session.new }
    ensures inside { IfOk result (λ answer. IsOfInside answer.lines.items) }
    ensures memory { IsOkUnless result Halt.Memory }
{
    match &mut session.edited {
        Some(edited) => circuit_named(alloc, edited, number, name, file),
        None => refuse_no_tech(alloc, number),
    }
}

// Extracts the cell of this name and writes its circuit, where there is one.
fn circuit_named(
    alloc: Global,
    edited: &mut Edited,
    number: usize,
    name: &Name,
    file: CircuitFile,
) -> Result<Answer, Halt>
    requires { IsEdited edited.old }
    ensures effect { IfOk result (AnswersAlone (CircuitMeans file number (Some (edited_state edited.old)) name.now) (Some (edited_state edited.new))) }
    ensures kept { IsEdited edited.new }
    ensures inside { IfOk result (λ answer. IsOfInside answer.lines.items) }
    ensures memory { IsOkUnless result Halt.Memory }
{
    match edited.library.find(name.bytes()) {
        Some(cell) => circuit_found(alloc, edited, number, cell, name, file),
        None => refuse_no_cell(alloc, number, name),
    }
}

// Extracts the cell, which has this name, and writes its circuit.
fn circuit_found(
    alloc: Global,
    edited: &mut Edited,
    number: usize,
    cell: CellKey,
    name: &Name,
    file: CircuitFile,
) -> Result<Answer, Halt>
    requires edited { IsEdited edited.old }
    requires cell { cell.0 < length edited.old.library.contents }
    ensures effect { let work = edited_state edited.old in IfOk result (AnswersAlone
        (λ effect. WritesCircuit file number name.now work cell.0 effect ⊎ RefusesUnclean number work [] cell.0 effect)
        (Some (edited_state edited.new))) }
    ensures kept { IsEdited edited.new }
    ensures inside { IfOk result (λ answer. IsOfInside answer.lines.items) }
    ensures memory { IsOkUnless result Halt.Memory }
{
    match extract_cell(alloc, edited, number, cell)? {
        Extracting::Done(extraction) => {
            let written = write_kept(alloc, edited, cell, name, file)?;
            answer(alloc, number, extraction, written)
        }
        Extracting::Refused(lines) => Ok(told(alloc, lines.into_vec())),
    }
}

// Writes the circuit of a cell where none at and below it is dirty.
fn write_kept(
    alloc: Global,
    edited: &mut Edited,
    cell: CellKey,
    name: &Name,
    file: CircuitFile,
) -> Result<Written, Halt>
    requires agrees { Agrees edited.old.library edited.old.cache }
    requires cell { cell.0 < length edited.old.library.contents }
    requires fresh { IsFreshBelow edited.old.library edited.old.cache cell.0 }
    ensures written { IfOk result (IsWrittenAt file (seen edited.old.library) cell.0 name.now) }
    ensures same { edited.new ≡ edited.old }
    ensures memory { IsOkUnless result Halt.Memory }
{
    match file {
        CircuitFile::Flat => write_flat_kept(alloc, edited, cell, name),
        CircuitFile::Sim => write_sim_kept(alloc, edited, cell, name),
    }
}

// Writes its flat file.
fn write_flat_kept(
    alloc: Global,
    edited: &mut Edited,
    cell: CellKey,
    name: &Name,
) -> Result<Written, Halt>
    requires agrees { Agrees edited.old.library edited.old.cache }
    requires cell { cell.0 < length edited.old.library.contents }
    requires fresh { IsFreshBelow edited.old.library edited.old.cache cell.0 }
    ensures written { IfOk result (IsWrittenAt CircuitFile.Flat (seen edited.old.library) cell.0 name.now) }
    ensures same { edited.new ≡ edited.old }
    ensures memory { IsOkUnless result Halt.Memory }
{
    match flatten_kept(alloc, edited, cell)? {
        Flattened::Circuit(circuit) => write_flat_file(alloc, name, &circuit),
        Flattened::Passed(limit) => Ok(Written::Passed(Limit::Circuit(limit))),
    }
}

// Writes its sim file. Its transistors are written as they are found, so that they are not all there at once.
fn write_sim_kept(
    alloc: Global,
    edited: &mut Edited,
    cell: CellKey,
    name: &Name,
) -> Result<Written, Halt>
    requires agrees { Agrees edited.old.library edited.old.cache }
    requires cell { cell.0 < length edited.old.library.contents }
    requires fresh { IsFreshBelow edited.old.library edited.old.cache cell.0 }
    ensures written { IfOk result (IsWrittenAt CircuitFile.Sim (seen edited.old.library) cell.0 name.now) }
    ensures same { edited.new ≡ edited.old }
    ensures memory { IsOkUnless result Halt.Memory }
{
    flat_transistor_has_letter_and_lengths();
    match flatten_kept_into(alloc, edited, cell)? {
        Flattened::Circuit(circuit) => write_given(alloc, name, circuit),
        Flattened::Passed(limit) => Ok(Written::Passed(Limit::Circuit(limit))),
    }
}

// What an extraction comes to, and then what is written.
fn answer(
    alloc: Global,
    number: usize,
    extraction: Extraction,
    written: Written,
) -> Result<Answer, Halt>
    ensures lines { IfOk result (λ answer. answer.lines.items ≡ extraction.lines ++ lines_of number written) }
    ensures stores { IfOk result (λ answer. answer.stores.items ≡ extraction.stores ++ stores_of written) }
    ensures memory { IsOkUnless result Halt.Memory }
{
    let told = written_alone(alloc, number, written)?;
    Ok(Answer {
        lines: joined(extraction.lines, told.lines)?,
        stores: joined(extraction.stores, told.stores)?,
    })
}
