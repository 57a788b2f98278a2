//! What the commands have in common that run something on the network of a cell's circuit.
ghost use Rattle.std.specs.Prelude.{◌≡◌, ◌<◌, ℕ, List as Words, Some, length, IfOk, IsOkUnless};
ghost use Rattle.layout_gen.specs.CellLibrary.Libraries.{seen};
ghost use Rattle.workspace.specs.Caches.{Agrees};
ghost use Rattle.line_answers.specs.LineEffects.{IsOfInside};
ghost use Rattle.workspace.specs.Extracting.{IsFreshBelow};
ghost use Rattle.workspace.specs.KeptSessions.{IsEdited, edited_state};
ghost use Rattle.extract_commands.specs.CellRuns.{RunsExtracted, TellsAt};

use ext_model::CellKey;
use line_answers::{joined, told};
use session_model::{Answer, Halt, ReportLine};
use std::alloc::Global;
use uniqueness::circuit_commands::circuit_limit_word;
use workspace::network_runs::{NetworkRun, limit_passed, run_circuit};
use workspace::{Edited, Extracting, Flattened, extract_cell, flatten_kept};

/// Extracts the cell, and then runs this on the network of its circuit.
pub fn run_extracted(
    alloc: Global,
    edited: &mut Edited,
    number: usize,
    budget: u32,
    run: &NetworkRun,
    cell: CellKey,
) -> Result<Answer, Halt>
    requires edited { IsEdited edited.old }
    requires cell { cell.0 < length edited.old.library.contents }
    ensures effect { (fetched : Words (Words ℕ)) → IfOk result (λ answer.
        RunsExtracted run.now budget number fetched (edited_state edited.old) cell.0 (record {
          state = Some (edited_state edited.new);
          lines = answer.lines.items;
          stores = answer.stores.items;
          fetched = fetched;
        })) }
    ensures kept { IsEdited edited.new }
    ensures inside { IfOk result (λ answer. IsOfInside answer.lines.items) }
    ensures memory { IsOkUnless result Halt.Memory }
{
    match extract_cell(alloc, edited, number, cell)? {
        Extracting::Done(extraction) => {
            let lines = run_kept(alloc, edited, number, budget, run, cell)?;
            Ok(Answer {
                lines: joined(extraction.lines, lines)?,
                stores: extraction.stores.into_vec(),
            })
        }
        Extracting::Refused(lines) => Ok(told(alloc, lines.into_vec())),
    }
}

// Runs it on the circuit of a cell where none at and below it is dirty.
fn run_kept(
    alloc: Global,
    edited: &mut Edited,
    number: usize,
    budget: u32,
    run: &NetworkRun,
    cell: CellKey,
) -> Result<Vec<ReportLine>, Halt>
    requires agrees { Agrees edited.old.library edited.old.cache }
    requires cell { cell.0 < length edited.old.library.contents }
    requires fresh { IsFreshBelow edited.old.library edited.old.cache cell.0 }
    ensures tells { IfOk result (λ lines. TellsAt run.now budget number (seen edited.old.library) cell.0 lines.items) }
    ensures inside { IfOk result (λ lines. IsOfInside lines.items) }
    ensures same { edited.new ≡ edited.old }
    ensures memory { IsOkUnless result Halt.Memory }
{
    match flatten_kept(alloc, edited, cell)? {
        Flattened::Circuit(circuit) => run_circuit(alloc, number, budget, run, &circuit),
        Flattened::Passed(limit) => limit_passed(alloc, number, circuit_limit_word(limit)),
    }
}
