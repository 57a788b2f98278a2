//! What the commands have in common that run vectors on a network.
ghost use Rattle.std.specs.Prelude.{◌≡◌, ◌≢◌, ◌∷◌, [], All, IfOk, IsOkUnless, map};
ghost use Rattle.switch_net.specs.Net.{network_of};
ghost use Rattle.vector_files.specs.VectorFiles.{IsWithin};
ghost use Rattle.vector_runs.specs.Runs.{IsFresh};
ghost use Rattle.sim_networks.specs.SimNetworks.{HasLetter};
ghost use Rattle.line_answers.specs.LineEffects.{IsOfInside};
ghost use Rattle.line_answers.specs.Refusals.{refusal_line};
ghost use Rattle.network_runs.specs.Refusals.{vec_refusal};
ghost use Rattle.network_runs.specs.Simulations.{IsMadeNet, TellsRun, TellsVectors, kind_of, vector_line};

use crate::refusals::vec_refusal;
use line_answers::refused_line;
use names_lists::List;
use session_model::{Halt, LineKind, ReportLine};
use sim_networks::net_of;
use sim_text::{SimFault, SimFile, SimLimit};
use std::alloc::{AllocError, Global};
use switch_net::NamedNet;
use vector_files::{VecAt, VecFault, Vectors, read_vectors};
use vector_runs::{VecReply, run_vectors};

/// The network of sim records, or the limit that it would pass.
#[derive(Debug, Drop)]
pub enum MadeNet {
    Net(NamedNet),
    Passed(SimLimit),
}

/// Makes the network of sim records.
pub fn make_network(alloc: Global, sim: &SimFile) -> Result<MadeNet, Halt>
    requires letters { All HasLetter sim.now.fets }
    ensures made { IfOk result (IsMadeNet sim.now) }
    ensures memory { IsOkUnless result Halt.Memory }
{
    match net_of(alloc, sim) {
        Ok(named) => Ok(MadeNet::Net(named)),
        Err(SimFault::TooMany(limit)) => Ok(MadeNet::Passed(limit)),
        Err(SimFault::Memory) => Err(Halt::Memory),
        Err(_) => unreachable!(),
    }
}

/// The lines that answer a vector file of this text on a network as it is made.
pub fn vector_lines(
    alloc: Global,
    number: usize,
    budget: u32,
    named: &mut NamedNet,
    text: &[u8],
) -> Result<Vec<ReportLine>, Halt>
    requires fresh { IsFresh (network_of named.old.net) named.old.names }
    ensures tells { IfOk result (λ lines. TellsVectors budget number text.now (network_of named.old.net) named.old.names lines.items) }
    ensures inside { IfOk result (λ lines. IsOfInside lines.items) }
    ensures memory { IsOkUnless result Halt.Memory }
{
    match read_vectors(alloc, text, named) {
        Ok(vectors) => run_lines(alloc, budget, named, &vectors),
        Err(at) => refused_vectors(alloc, number, at),
    }
}

/// The line that refuses a vector file.
pub fn refused_vectors(alloc: Global, number: usize, at: VecAt) -> Result<Vec<ReportLine>, Halt>
    ensures told { IfOk result (λ lines. lines.items ≡ refusal_line number (vec_refusal at) ∷ []) }
    ensures fault { IfOk result (λ _. at.fault ≢ VecFault.Memory) }
    ensures inside { IfOk result (λ lines. IsOfInside lines.items) }
    ensures memory { IsOkUnless result Halt.Memory }
{
    if let VecFault::Memory = at.fault {
        return Err(Halt::Memory);
    }
    Ok(refused_line(alloc, number, vec_refusal(alloc, &at)?)?)
}

// The lines of what vectors reply on the network.
fn run_lines(
    alloc: Global,
    budget: u32,
    named: &mut NamedNet,
    vectors: &Vectors,
) -> Result<Vec<ReportLine>, Halt>
    requires fresh { IsFresh (network_of named.old.net) named.old.names }
    requires within { IsWithin named.old vectors.now }
    ensures tells { IfOk result (λ lines. TellsRun budget (network_of named.old.net) named.old.names vectors.now lines.items) }
    ensures inside { IfOk result (λ lines. IsOfInside lines.items) }
    ensures memory { IsOkUnless result Halt.Memory }
{
    let mut replies = Vec::new(alloc);
    run_vectors(alloc, named, vectors, budget, &mut replies)?;
    Ok(lines_told(alloc, &replies)?)
}

// The lines of replies.
fn lines_told(alloc: Global, replies: &[VecReply]) -> Result<Vec<ReportLine>, AllocError>
    ensures { IfOk result (λ lines. lines.items ≡ map vector_line replies.now) }
{
    let mut lines = Vec::with_capacity(alloc, replies.len())?;
    for reply in replies {
        lines.push(vector_line(alloc, reply)?)?;
    }
    Ok(lines)
}

/// The line of a reply.
pub fn vector_line(alloc: Global, reply: &VecReply) -> Result<ReportLine, AllocError>
    ensures { IfOk result (λ line. line ≡ vector_line reply.now) }
{
    Ok(ReportLine {
        kind: kind_of(reply),
        text: List::of(reply.text(alloc)?),
    })
}

// What kind of a line a reply is.
fn kind_of(reply: &VecReply) -> LineKind
    ensures { result ≡ kind_of reply.now }
{
    match reply {
        VecReply::Settled(_, _) | VecReply::Shown(_, _) => LineKind::Vector,
        VecReply::Unsettled(_) => LineKind::Unsettled,
    }
}
