//! `simrun c f`: runs f.vec on the network of c.sim.
ghost use Rattle.std.specs.Prelude.{◌≡◌, ◌∷◌, [], ℕ, List, Some, All, IfOk, IsOkUnless};
ghost use Rattle.outside_io.specs.Files.{Files};
ghost use Rattle.session_model.specs.Causes.{HasCauses, kinds_of};
ghost use Rattle.session_model.specs.Effects.{Answers, AnswersAfter};
ghost use Rattle.session_model.specs.Fetches.{text_in};
ghost use Rattle.sim_networks.specs.SimNetworks.{HasLetter};
ghost use Rattle.sim_text.specs.SimTexts.{sim_in};
ghost use Rattle.switch_net.specs.Net.{network_of};
ghost use Rattle.network_runs.specs.VectorRuns.Runs.{IsFresh};
ghost use Rattle.line_answers.specs.LineEffects.{IsOfInside};
ghost use Rattle.network_commands.specs.CommandSimrun.{RunsRead, RunsRecords, RunsVectors, SimrunMeans};
ghost use Rattle.network_runs.specs.Simulations.{TellsVectors};

use crate::refusals::refuse_sim;
use line_answers::{file_name, refuse_file, refuse_too_many, told};
use names_lists::Name;
use network_runs::{MadeNet, make_network, sim_limit_word, vector_lines};
use outside_io::Shelf;
use session_model::{Answer, Fetched, Halt, fetch_text};
use sim_networks::read_records_have_letters;
use sim_text::{SimAt, SimFault, SimFile, read_sim};
use std::alloc::Global;
use switch_net::NamedNet;

/// `simrun c f`, the script's line of this number. It leaves the session as it is.
pub fn simrun<F: Shelf>(
    alloc: Global,
    shelf: &mut F,
    number: usize,
    budget: u32,
    name: &Name,
    file: &Name,
) -> Result<Answer, Halt>
    ensures effect { (files : Files) → F.files shelf.old ≡ Some files → IfOk result (λ answer.
        Answers (SimrunMeans budget number files name.now file.now) tt answer (F.fetch_plan shelf.old) (F.fetch_plan shelf.new)) }
    ensures files { F.files shelf.new ≡ F.files shelf.old }
    ensures causes { HasCauses F.Shelf shelf.old shelf.new kinds_of result }
{
    let source = file_name(alloc, name, b".sim")?;
    let file = file_name(alloc, file, b".vec")?;
    match fetch_text(alloc, shelf, &source)? {
        Fetched::Text(text) => run_text(alloc, shelf, number, budget, source, &text, file),
        Fetched::Refused(fault) => refuse_file(alloc, number, &source, fault),
    }
}

// Runs vectors on the network of a sim text.
fn run_text<F: Shelf>(
    alloc: Global,
    shelf: &mut F,
    number: usize,
    budget: u32,
    source: Name,
    text: &[u8],
    file: Name,
) -> Result<Answer, Halt>
    ensures effect { (files : Files) → F.files shelf.old ≡ Some files → IfOk result (λ answer.
        AnswersAfter (source ∷ []) (RunsRead budget number files source (sim_in text.now) file) tt answer (F.fetch_plan shelf.old) (F.fetch_plan shelf.new)) }
    ensures files { F.files shelf.new ≡ F.files shelf.old }
    ensures causes { HasCauses F.Shelf shelf.old shelf.new kinds_of result }
{
    read_records_have_letters();
    match read_sim(alloc, text) {
        Ok(sim) => run_records(alloc, shelf, number, budget, &sim, file),
        Err(
            SimAt {
                line: _,
                fault: SimFault::Memory,
            },
        ) => Err(Halt::Memory),
        Err(at) => refuse_sim(alloc, number, &source, &at),
    }
}

// Runs vectors on the network of sim records, where it passes no limit.
fn run_records<F: Shelf>(
    alloc: Global,
    shelf: &mut F,
    number: usize,
    budget: u32,
    sim: &SimFile,
    file: Name,
) -> Result<Answer, Halt>
    requires letters { All HasLetter sim.now.fets }
    ensures effect { (files : Files) (fetched : List (List ℕ)) → F.files shelf.old ≡ Some files → IfOk result (λ answer.
        AnswersAfter fetched (RunsRecords budget number files sim.now file fetched) tt answer (F.fetch_plan shelf.old) (F.fetch_plan shelf.new)) }
    ensures files { F.files shelf.new ≡ F.files shelf.old }
    ensures causes { HasCauses F.Shelf shelf.old shelf.new kinds_of result }
{
    match make_network(alloc, sim)? {
        MadeNet::Net(named) => run_network(alloc, shelf, number, budget, named, file),
        MadeNet::Passed(limit) => refuse_too_many(alloc, number, sim_limit_word(limit)),
    }
}

// Runs the vectors of a file on a network as it is made.
fn run_network<F: Shelf>(
    alloc: Global,
    shelf: &mut F,
    number: usize,
    budget: u32,
    named: NamedNet,
    file: Name,
) -> Result<Answer, Halt>
    requires fresh { IsFresh (network_of named.net) named.names }
    ensures effect { (files : Files) (fetched : List (List ℕ)) → F.files shelf.old ≡ Some files → IfOk result (λ answer.
        AnswersAfter fetched (RunsVectors budget number (text_in files file) file (network_of named.net) named.names fetched) tt answer
        (F.fetch_plan shelf.old) (F.fetch_plan shelf.new)) }
    ensures files { F.files shelf.new ≡ F.files shelf.old }
    ensures causes { HasCauses F.Shelf shelf.old shelf.new kinds_of result }
{
    match fetch_text(alloc, shelf, &file)? {
        Fetched::Text(text) => run_fetched(alloc, number, budget, named, &text),
        Fetched::Refused(fault) => refuse_file(alloc, number, &file, fault),
    }
}

// Runs vectors of this text on a network as it is made.
fn run_fetched(
    alloc: Global,
    number: usize,
    budget: u32,
    named: NamedNet,
    text: &[u8],
) -> Result<Answer, Halt>
    requires fresh { IsFresh (network_of named.net) named.names }
    ensures tells { IfOk result (λ answer. TellsVectors budget number text.now (network_of named.net) named.names answer.lines.items) }
    ensures stores { IfOk result (λ answer. answer.stores.items ≡ []) }
    ensures inside { IfOk result (λ answer. IsOfInside answer.lines.items) }
    ensures memory { IsOkUnless result Halt.Memory }
{
    let mut named = named;
    Ok(told(
        alloc,
        vector_lines(alloc, number, budget, &mut named, text)?,
    ))
}
