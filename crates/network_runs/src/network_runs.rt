//! What is run on the network of a circuit.
ghost use Rattle.std.specs.Prelude.{◌≡◌, ◌≤◌, ◌∷◌, [], All, length, IfOk, IsOkUnless};
ghost use Rattle.sim_records.specs.SimRecords.{HasLetterAndLengths, sim_of};
ghost use Rattle.switch_net.specs.declared.limits.TheConstants.{MOST_SWITCHES};
ghost use Rattle.switch_net.specs.Net.{network_of};
ghost use Rattle.sim_networks.specs.SimNetworks.{HasNodeForEach};
ghost use Rattle.vector_runs.specs.Runs.{IsFresh};
ghost use Rattle.line_answers.specs.LineEffects.{IsOfInside};
ghost use Rattle.network_runs.specs.Grading.{preferred_names};
ghost use Rattle.network_runs.specs.NetworkRuns.{CanBeSimulated, TellsCircuit, TellsOn, TellsOutcome, outcome_lines, unsettled_line};
ghost use Rattle.network_runs.specs.Simulations.{IsNetOf};

use crate::grading::coverage_lines;
use crate::refusals::{limit_passed, sim_limit_word};
use crate::simulations::{MadeNet, make_network, vector_line, vector_lines};
use ext_model::Circuit;
use line_answers::reply;
use names_lists::{List, Name};
use session_model::{Halt, ReportLine};
use sim_records::sim_of;
use sim_text::{SimFault, SimFile, SimLimit};
use stack_runs::{Outcome, run_stack, summary_of};
use std::alloc::{AllocError, Global};
use switch_net::NamedNet;
use vector_runs::VecReply;

/// What is run on the network of a circuit.
#[derive(Debug, Drop)]
pub enum NetworkRun {
    /// A vector file of this text.
    Vectors(List<u8>),
    /// A vector file of this text, with each stuck fault of the circuit of the cell of this name.
    Grade(Name, List<u8>),
    /// The vectors of a stack of so many rows.
    Stack(u32),
}

/// Runs it on a circuit.
pub fn run_circuit(
    alloc: Global,
    number: usize,
    budget: u32,
    run: &NetworkRun,
    circuit: &Circuit,
) -> Result<Vec<ReportLine>, Halt>
    requires lengths { All HasLetterAndLengths circuit.now.fets }
    requires simulated { CanBeSimulated circuit.now }
    ensures tells { IfOk result (λ lines. TellsCircuit run.now budget number circuit.now lines.items) }
    ensures inside { IfOk result (λ lines. IsOfInside lines.items) }
    ensures memory { IsOkUnless result Halt.Memory }
{
    match sim_of(alloc, circuit) {
        Ok(sim) => run_sim(alloc, number, budget, run, circuit, &sim),
        Err(SimFault::Memory) => Err(Halt::Memory),
        Err(_) => limit_passed(alloc, number, sim_limit_word(SimLimit::Switches)),
    }
}

// Runs it on the network of the sim records of a circuit, which passes no limit.
fn run_sim(
    alloc: Global,
    number: usize,
    budget: u32,
    run: &NetworkRun,
    circuit: &Circuit,
    sim: &SimFile,
) -> Result<Vec<ReportLine>, Halt>
    requires records { sim.now ≡ sim_of circuit.now }
    requires simulated { CanBeSimulated circuit.now }
    requires few_switches { length sim.now.fets ≤ MOST_SWITCHES }
    ensures tells { IfOk result (λ lines. TellsOn run.now budget number circuit.now lines.items) }
    ensures inside { IfOk result (λ lines. IsOfInside lines.items) }
    ensures memory { IsOkUnless result Halt.Memory }
{
    match make_network(alloc, sim)? {
        MadeNet::Net(named) => {
            let mut named = named;
            run_network(alloc, number, budget, run, circuit, &mut named)
        }
        MadeNet::Passed(_) => unreachable!(),
    }
}

// Runs it on the network of a circuit as it is made.
fn run_network(
    alloc: Global,
    number: usize,
    budget: u32,
    run: &NetworkRun,
    circuit: &Circuit,
    named: &mut NamedNet,
) -> Result<Vec<ReportLine>, Halt>
    requires net { IsNetOf (sim_of circuit.now) (network_of named.old.net) named.old.names }
    requires fresh { IsFresh (network_of named.old.net) named.old.names }
    requires nodes { HasNodeForEach (preferred_names circuit.now) (network_of named.old.net) named.old.names }
    ensures tells { IfOk result (λ lines. TellsOn run.now budget number circuit.now lines.items) }
    ensures inside { IfOk result (λ lines. IsOfInside lines.items) }
    ensures memory { IsOkUnless result Halt.Memory }
{
    match run {
        NetworkRun::Vectors(text) => vector_lines(alloc, number, budget, named, text.items()),
        NetworkRun::Grade(cell, text) => {
            coverage_lines(alloc, number, budget, cell, text.items(), circuit, named)
        }
        NetworkRun::Stack(n) => stack_lines(alloc, budget, *n, circuit, named),
    }
}

// Runs the vectors of a stack of n rows on the network of its circuit.
fn stack_lines(
    alloc: Global,
    budget: u32,
    n: u32,
    circuit: &Circuit,
    named: &mut NamedNet,
) -> Result<Vec<ReportLine>, Halt>
    requires net { IsNetOf (sim_of circuit.now) (network_of named.old.net) named.old.names }
    requires fresh { IsFresh (network_of named.old.net) named.old.names }
    ensures tells { IfOk result (λ lines. TellsOutcome budget n circuit.now lines.items) }
    ensures inside { IfOk result (λ lines. IsOfInside lines.items) }
    ensures memory { IsOkUnless result Halt.Memory }
{
    let outcome = run_stack(alloc, named, n, budget)?;
    let lines = outcome_lines(alloc, n, circuit, outcome)?;
    Ok(lines)
}

// The lines that tell what came of a stack of n rows.
fn outcome_lines(
    alloc: Global,
    n: u32,
    circuit: &Circuit,
    outcome: Outcome,
) -> Result<Vec<ReportLine>, AllocError>
    ensures { IfOk result (λ lines. lines.items ≡ outcome_lines n circuit.now outcome) }
{
    let mut lines = unsettled_line(alloc, &outcome)?;
    let summary = summary_of(n, circuit, outcome)?;
    lines.push(reply(summary.text(alloc)?))?;
    Ok(lines)
}

// What is told of the phase, where it did not settle.
fn unsettled_line(alloc: Global, outcome: &Outcome) -> Result<Vec<ReportLine>, AllocError>
    ensures { IfOk result (λ lines. lines.items ≡ unsettled_line outcome.now) }
{
    let mut lines = Vec::new(alloc);
    if !outcome.settled {
        lines.push(vector_line(alloc, &VecReply::Unsettled(1))?)?;
    }
    Ok(lines)
}
