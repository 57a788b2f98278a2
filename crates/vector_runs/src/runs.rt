//! Runs vectors on a network.
ghost use Rattle.std.specs.Prelude.{◌≡◌, ◌++◌, All, List, IfOk, OnOk, OnErr};
ghost use Rattle.switch_net.specs.Net.{network_of};
ghost use Rattle.vector_files.specs.VectorFiles.{IsWithin};
ghost use Rattle.vector_runs.specs.Running.{AddsReplies, FitsNodes};
ghost use Rattle.vector_runs.specs.Runs.{EndsRun, IsFresh, IsRun};
ghost use Rattle.vector_runs.specs.declared.replies.VecReply.{VecReply as ReplyOf};

use crate::progress::Progress;
use crate::rails::{make_fresh, start_states};
use crate::replies::VecReply;
use std::alloc::{AllocError, Global};
use switch_net::{Level, NamedNet};
use vector_files::Vectors;

/// Runs the vectors on the network, from the states in which it begins, and adds what they reply. The network is left with the inputs and
/// sizes that it had, after want of memory too, and then nothing is added.
pub fn run_vectors(
    alloc: Global,
    named: &mut NamedNet,
    vectors: &Vectors,
    budget: u32,
    replies: &mut Vec<VecReply>,
) -> Result<(), AllocError>
    requires fresh { IsFresh (network_of named.old.net) named.old.names }
    requires within { IsWithin named.old vectors.now }
    ensures run { OnOk result ((told : List ReplyOf) × IsRun (network_of named.old.net) named.old.names budget vectors.now told
        × (replies.new.items ≡ replies.old.items ++ told)) }
    ensures network { network_of named.new.net ≡ network_of named.old.net }
    ensures names { named.new.names ≡ named.old.names }
    ensures refused { OnErr result (replies.new.items ≡ replies.old.items) }
{
    run_to_end(alloc, named, vectors, budget, replies)?;
    Ok(())
}

/// Runs vectors on the network as `run_vectors` does, and tells the states in which they leave its nodes. They may change power and ground.
pub fn run_to_end(
    alloc: Global,
    named: &mut NamedNet,
    vectors: &Vectors,
    budget: u32,
    replies: &mut Vec<VecReply>,
) -> Result<Vec<Level>, AllocError>
    requires fresh { IsFresh (network_of named.old.net) named.old.names }
    requires within { All (λ line. FitsNodes named.old.net.nodes line.1) vectors.now.lines }
    ensures run { IfOk result (λ states. (told : List ReplyOf)
        × EndsRun (network_of named.old.net) named.old.names budget vectors.now told states.items
        × (replies.new.items ≡ replies.old.items ++ told)) }
    ensures network { network_of named.new.net ≡ network_of named.old.net }
    ensures names { named.new.names ≡ named.old.names }
    ensures refused { OnErr result (replies.new.items ≡ replies.old.items) }
{
    let told = replies.len();
    let ran = run_from_start(alloc, named, vectors, budget, replies);
    make_fresh(named);
    if ran.is_err() {
        replies.truncate(told);
    }
    ran
}

// Runs vectors as `run_to_end` does, but leaves the inputs and sizes as the lines changed them, and replies that were added before
// memory was short.
fn run_from_start(
    alloc: Global,
    named: &mut NamedNet,
    vectors: &Vectors,
    budget: u32,
    replies: &mut Vec<VecReply>,
) -> Result<Vec<Level>, AllocError>
    requires { All (λ line. FitsNodes named.old.net.nodes line.1) vectors.now.lines }
    ensures run { IfOk result (λ states. (told : List ReplyOf)
        × EndsRun (network_of named.old.net) named.old.names budget vectors.now told states.items
        × (replies.new.items ≡ replies.old.items ++ told)) }
    ensures names { named.new.names ≡ named.old.names }
    ensures nodes { named.new.net.nodes ≡ named.old.net.nodes }
    ensures switches { named.new.net.switches ≡ named.old.net.switches }
    ensures added { AddsReplies replies.old.items replies.new.items }
{
    let mut progress = Progress {
        states: start_states(alloc, named)?,
        phases: 0,
        touched: None,
    };
    progress.run_lines(
        alloc,
        &mut named.net,
        vectors.lines.items(),
        budget,
        replies,
    )?;
    let Progress {
        states,
        phases: _,
        touched: _,
    } = progress;
    Ok(states)
}
