//! `generate n`: makes a stack of n rows of n tiles, extracts it, and runs its vectors on the network of its circuit.
ghost use Rattle.std.specs.Prelude.{◌≡◌, ◌≤◌, pos, Some, length, IsTrue, IfOk, IsOkUnless};
ghost use Rattle.std.specs.Int.RustNames.{unsigned_abs};
ghost use Rattle.script_lines.specs.Arguments.{is_between};
ghost use Rattle.session_model.specs.Effects.{AnswersAlone};
ghost use Rattle.line_answers.specs.LineEffects.{IsOfInside};
ghost use Rattle.workspace.specs.KeptSessions.{IsEdited, IsSession, edited_state, state_of};
ghost use Rattle.extract_commands.specs.CommandGenerate.{GenerateMeans, GeneratesStack, is_refused, unless_refused};
ghost use Rattle.extract_commands.specs.steps.MadeStacks.{IsCellOf, IsStackMade};

use crate::cell_runs::run_extracted;
use ext_model::CellKey;
use layout_gen::{GenerateFault, MOST_TILES, generate as make_cells};
use line_answers::refuse_no_tech;
use script_lines::MOST_GENERATED;
use session_model::{Answer, Halt, LineKind, ReportLine};
use std::alloc::Global;
use workspace::library_answers::refuse_generate;
use workspace::network_runs::NetworkRun;
use workspace::{Edited, LayoutSession};

/// The stack that was made, or why none was.
#[derive(Debug, Drop)]
pub enum MadeStack {
    Made(CellKey),
    Refused(GenerateFault),
}

/// `generate n`, the script's line of this number.
pub fn generate(
    alloc: Global,
    session: &mut LayoutSession,
    number: usize,
    budget: u32,
    count: i64,
) -> Result<Answer, Halt>
    requires session { IsSession session.old }
    requires count { IsTrue (is_between (pos 1) MOST_GENERATED count) }
    ensures effect { IfOk result (AnswersAlone (GenerateMeans budget number (state_of session.old) count) (state_of session.new)) }
    ensures kept { IsSession session.new }
    ensures inside { IfOk result (λ answer. IsOfInside answer.lines.items) }
    ensures memory { IsOkUnless result Halt.Memory }
{
    match &mut session.edited {
        Some(edited) => generate_into(alloc, edited, number, budget, count),
        None => refuse_no_tech(alloc, number),
    }
}

// How many rows a command asks for.
fn rows_of(count: i64) -> u32
    requires { IsTrue (is_between (pos 1) MOST_GENERATED count) }
    ensures rows { result ≡ unsigned_abs count }
    ensures some { 1 ≤ result }
    ensures few { result ≤ MOST_TILES }
{
    count.unsigned_abs() as u32
}

// Makes the stack that a command asks for in the library that is edited, extracts it and runs its vectors.
fn generate_into(
    alloc: Global,
    edited: &mut Edited,
    number: usize,
    budget: u32,
    count: i64,
) -> Result<Answer, Halt>
    requires edited { IsEdited edited.old }
    requires count { IsTrue (is_between (pos 1) MOST_GENERATED count) }
    ensures effect { IfOk result (AnswersAlone (GeneratesStack budget number (unsigned_abs count) (edited_state edited.old)) (Some (edited_state edited.new))) }
    ensures kept { IsEdited edited.new }
    ensures inside { IfOk result (λ answer. IsOfInside answer.lines.items) }
    ensures memory { IsOkUnless result Halt.Memory }
{
    let n = rows_of(count);
    match make_stack(alloc, edited, n)? {
        MadeStack::Made(cell) => {
            let run = NetworkRun::Stack(n);
            let answer = run_extracted(alloc, edited, number, budget, &run, cell)?;
            forget_unless_refused(edited, answer.lines.as_slice());
            Ok(answer)
        }
        MadeStack::Refused(fault) => refuse_generate(alloc, number, &fault),
    }
}

// Whether the command is refused that these lines answer.
fn is_refused(lines: &[ReportLine]) -> bool
    ensures { result ≡ is_refused lines.now }
{
    lines
        .iter()
        .any(|line| matches!(line.kind, LineKind::Refusal(_)))
}

// Forgets the edits that can be undone, unless these lines refuse the command.
fn forget_unless_refused(edited: &mut Edited, lines: &[ReportLine])
    requires { IsEdited edited.old }
    ensures state { edited_state edited.new ≡ unless_refused lines.now (edited_state edited.old) }
    ensures kept { IsEdited edited.new }
{
    if !is_refused(lines) {
        edited.log.forget();
    }
}

// Makes a stack of n rows in the library that is edited, where it becomes the current cell.
fn make_stack(alloc: Global, edited: &mut Edited, n: u32) -> Result<MadeStack, Halt>
    requires edited { IsEdited edited.old }
    requires some { 1 ≤ n }
    requires few { n ≤ MOST_TILES }
    ensures made { IfOk result (IsStackMade n (edited_state edited.old) (edited_state edited.new)) }
    ensures cell { IfOk result (IsCellOf (length edited.new.library.contents)) }
    ensures kept { IsEdited edited.new }
    ensures memory { IsOkUnless result Halt.Memory }
{
    edited.library.lawful();
    match make_cells(alloc, &mut edited.library, n) {
        Ok(cell) => {
            edited.library.sound_view();
            edited.current = Some(cell);
            Ok(MadeStack::Made(cell))
        }
        Err(GenerateFault::Memory) => Err(Halt::Memory),
        Err(fault) => Ok(MadeStack::Refused(fault)),
    }
}
