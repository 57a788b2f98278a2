//! A session: what each line of a script does, and what answers it.
ghost use Rattle.std.specs.Prelude.{◌≡◌, ◌∷◌, [], Some, IfOk, IsOkUnless};
ghost use Rattle.outside_io.specs.Files.{Files};
ghost use Rattle.script_lines.specs.Forms.{IsFormed};
ghost use Rattle.session_model.specs.Causes.{HasCauses, kinds_of};
ghost use Rattle.session_model.specs.Effects.{Answers};
ghost use Rattle.line_answers.specs.Refusals.{refusal_line};
ghost use Rattle.library_commands.specs.Workspace.KeptSessions.{IsSession, state_of};
ghost use Rattle.magex_top.specs.Refusals.{line_fault_text, line_refusal};
ghost use Rattle.magex_top.specs.Sessions.{CommandMeans, LineMeans};

use extract_commands::circuit_commands::{CircuitFile, ext2sim};
use extract_commands::network_commands::simrun;
use extract_commands::{VectorQuestion, circuit, extract, generate, vectors};
use library_commands::cif_commands::cifstat;
use library_commands::look_commands::Look;
use library_commands::{
    LayoutSession, Way, bring_back, check, edit, load, look_at, tech, write_cif,
};
use line_answers::{refuse, told, worded};
use outside_io::Shelf;
use script_lines::{Command, LineFault, read_line};
use session_model::{Answer, Halt, Session};
use std::alloc::Global;

/// The session of a run: that of its lines, and the most steps of a phase.
#[derive(Drop)]
pub struct RunSession {
    pub session: LayoutSession,
    pub budget: u32,
}

impl Session for RunSession {
    ghost use Rattle.magex_top.specs.Sessions.{IsRunSession, RunLineMeans, RunState, run_state_of};

    ghost State = { RunState };

    ghost state = { run_state_of };

    ghost is_sound = { IsRunSession };

    ghost means = { RunLineMeans };

    fn answer_line<F: Shelf>(
        &mut self,
        alloc: Global,
        shelf: &mut F,
        number: usize,
        line: &[u8],
    ) -> Result<Answer, Halt> {
        let answered = answer_line(alloc, &mut self.session, shelf, number, self.budget, line);
        self.session.sound_library();
        answered
    }
}

// Does what a line asks for, but for its stores, and answers it.
fn answer_line<F: Shelf>(
    alloc: Global,
    session: &mut LayoutSession,
    shelf: &mut F,
    number: usize,
    budget: u32,
    line: &[u8],
) -> Result<Answer, Halt>
    requires session { IsSession session.old }
    ensures effect { (files : Files) → F.files shelf.old ≡ Some files → IfOk result (λ answer.
        Answers (LineMeans budget number (state_of session.old) files line.now) (state_of session.new) answer (F.fetch_plan shelf.old)
        (F.fetch_plan shelf.new)) }
    ensures kept { IsSession session.new }
    ensures files { F.files shelf.new ≡ F.files shelf.old }
    ensures causes { HasCauses F.Shelf shelf.old shelf.new kinds_of result }
{
    match read_line(alloc, line) {
        Ok(None) => Ok(told(alloc, Vec::new(alloc))),
        Ok(Some(command)) => answer(alloc, session, shelf, number, budget, &command),
        Err(LineFault::Memory) => Err(Halt::Memory),
        Err(fault) => refuse_line(alloc, number, fault),
    }
}

// The answer to a line that is no command.
fn refuse_line(alloc: Global, number: usize, fault: LineFault) -> Result<Answer, Halt>
    ensures lines { IfOk result (λ answer. answer.lines.items ≡ refusal_line number (line_refusal fault) ∷ []) }
    ensures stores { IfOk result (λ answer. answer.stores.items ≡ []) }
    ensures memory { IsOkUnless result Halt.Memory }
{
    let refusal = worded(alloc, line_fault_text(fault))?;
    refuse(alloc, number, refusal)
}

fn line_fault_text(fault: LineFault) -> &'static [u8]
    ensures { result.now ≡ line_fault_text fault }
{
    match fault {
        LineFault::BadWord => b"E1 bad word",
        LineFault::BadForm => b"E2 bad form",
        LineFault::NumberRange => b"E3 number out of range",
        LineFault::Memory => b"",
    }
}

// Does what a command asks for, but for its stores, and answers it.
fn answer<F: Shelf>(
    alloc: Global,
    session: &mut LayoutSession,
    shelf: &mut F,
    number: usize,
    budget: u32,
    command: &Command,
) -> Result<Answer, Halt>
    requires session { IsSession session.old }
    requires formed { IsFormed command.now }
    ensures effect { (files : Files) → F.files shelf.old ≡ Some files → IfOk result (λ answer.
        Answers (CommandMeans budget number (state_of session.old) files command.now) (state_of session.new) answer (F.fetch_plan shelf.old)
        (F.fetch_plan shelf.new)) }
    ensures kept { IsSession session.new }
    ensures files { F.files shelf.new ≡ F.files shelf.old }
    ensures causes { HasCauses F.Shelf shelf.old shelf.new kinds_of result }
{
    match command {
        Command::Tech(name) => tech(alloc, session, shelf, number, name),
        Command::Load(cell) => load(alloc, session, shelf, number, cell),
        Command::New(_)
        | Command::Edit(_)
        | Command::Paint(_, _)
        | Command::Erase(_, _)
        | Command::Place(_, _, _)
        | Command::Array(_, _)
        | Command::Move(_, _, _)
        | Command::Delete(_)
        | Command::Label(_, _, _, _)
        | Command::Unlabel(_) => edit(alloc, session, number, command),
        Command::Undo => bring_back(alloc, session, number, Way::Undo),
        Command::Redo => bring_back(alloc, session, number, Way::Redo),
        Command::Save(cell) => look_at(alloc, session, number, cell, Look::Save),
        Command::Squares(cell) => look_at(alloc, session, number, cell, Look::Squares),
        Command::Drc(cell, file) => check(alloc, session, shelf, number, cell, file),
        Command::Cif(cell) => write_cif(alloc, session, number, cell),
        Command::Cifstat(file) => cifstat(alloc, shelf, number, file),
        Command::Nodes(cell) => look_at(alloc, session, number, cell, Look::Nodes),
        Command::Extract(cell) => extract(alloc, session, number, cell),
        Command::Flat(cell) => circuit(alloc, session, number, cell, CircuitFile::Flat),
        Command::Sim(cell) => circuit(alloc, session, number, cell, CircuitFile::Sim),
        Command::Ext2sim(cell) => ext2sim(alloc, shelf, number, cell),
        Command::Vectors(cell, file) => {
            let question = VectorQuestion::Replies;
            vectors(alloc, session, shelf, number, budget, question, cell, file)
        }
        Command::Grade(cell, file) => {
            let question = VectorQuestion::Faults;
            vectors(alloc, session, shelf, number, budget, question, cell, file)
        }
        Command::Simrun(cell, file) => simrun(alloc, shelf, number, budget, cell, file),
        Command::Generate(count) => generate(alloc, session, number, budget, *count),
    }
}
