//! The record of a run without a fault.

ghost use Rattle.std.specs.Prelude.{◌≡◌, ◌<◌, ◌≤◌, ◌++◌, ◌∷◌, ℕ, List as Items, All, IfOk, OnOk, true, length};
ghost use Rattle.switch_net.specs.Net.{network_of};
ghost use Rattle.switch_net.specs.Sets.{IsInside};
ghost use Rattle.switch_net.specs.Steady.{IsStep};
ghost use Rattle.vector_files.specs.declared.files.VecLine.{VecLine as VecLineOf};
ghost use Rattle.vector_runs.specs.Running.{FitsNodes};
ghost use Rattle.fault_replay.specs.declared.records.PhaseRecord.{PhaseRecord as PhaseRecordOf};
ghost use Rattle.fault_replay.specs.Changes.{changed};
ghost use Rattle.fault_replay.specs.Replays.{FitsRecord, IsQuietBut, IsRecorded, Records, StepsBy, listed};

use crate::changing::{changes_between, make_changes};
use crate::limits::MOST_CHANGES;
use crate::records::PhaseRecord;
use names_lists::List;
use std::alloc::{AllocError, Global};
use steady_state::{settle, step_near};
use switch_net::{Level, Net, NodeSet};
use vector_files::VecLine;

// The steps of a phase that were recorded, and whether the network rests behind them.
#[derive(Drop)]
struct RecordedSteps {
    steps: Vec<List<(u32, Level)>>,
    rests: bool,
}

// Adds the nodes of changes.
fn add_nodes(changes: &[(u32, Level)], nodes: &mut NodeSet)
    requires { All (λ change. change.0 < length nodes.old.inside) changes.now }
    ensures fits { length nodes.new.inside ≡ length nodes.old.inside }
    ensures grown { (v : ℕ) → IsInside nodes.old.inside v → IsInside nodes.new.inside v }
    ensures all { All (λ change. IsInside nodes.new.inside change.0) changes.now }
{
    for (node, _) in changes {
        nodes.add(*node);
    }
}

// All nodes of a network.
fn all_nodes(alloc: Global, count: u32) -> Result<NodeSet, AllocError>
    ensures fits { IfOk result (λ nodes. length nodes.inside ≡ count) }
    ensures all { IfOk result (λ nodes. (v : ℕ) → v < count → IsInside nodes.inside v) }
{
    let mut nodes = NodeSet::build(alloc, count as usize)?;
    for node in 0..count {
        nodes.add(node);
    }
    Ok(nodes)
}

// The changes of a step, where all is quiet that is not near these nodes.
fn find_changes(
    alloc: Global,
    net: &mut Net,
    states: &[Level],
    next: &mut [Level],
    moved: &NodeSet,
) -> Result<Vec<(u32, Level)>, AllocError>
    requires states { length states.now ≡ net.old.nodes }
    requires next { length next.old ≡ net.old.nodes }
    requires moved { length moved.now.inside ≡ net.old.nodes }
    ensures step { IfOk result (λ changes. IsQuietBut (network_of net.old) states.now (listed moved.now)
        → IsStep (network_of net.old) states.now (changed changes.items states.now)) }
    ensures within { IfOk result (λ changes. All (λ change. change.0 < net.old.nodes) changes.items) }
    ensures net { network_of net.new ≡ network_of net.old }
{
    step_near(net, states, next, moved.nodes(), None);
    let changes = changes_between(alloc, net.work.marks.nodes(), states, next)?;
    Ok(changes)
}

// Makes changes, and tells their nodes alone.
fn take_changes(changes: &[(u32, Level)], states: &mut [Level], moved: &mut NodeSet)
    requires changes { All (λ change. change.0 < length states.old) changes.now }
    requires moved { length moved.old.inside ≡ length states.old }
    ensures states { states.new ≡ changed changes.now states.old }
    ensures fits { length moved.new.inside ≡ length moved.old.inside }
    ensures told { All (λ change. IsInside moved.new.inside change.0) changes.now }
{
    make_changes(changes, states);
    moved.clear();
    add_nodes(changes, moved);
}

// Takes the steps of a phase, up to so many, as far as there is room for their changes.
fn record_steps(
    alloc: Global,
    net: &mut Net,
    states: &mut [Level],
    most: u32,
    room: &mut usize,
) -> Result<RecordedSteps, AllocError>
    requires states { length states.old ≡ net.old.nodes }
    ensures steps { IfOk result (λ recorded. StepsBy (network_of net.old) states.old recorded.steps.items states.new) }
    ensures rests { IfOk result (λ recorded. recorded.rests ≡ true → IsStep (network_of net.old) states.new states.new) }
    ensures few { IfOk result (λ recorded. length recorded.steps.items ≤ most) }
    ensures within { IfOk result (λ recorded. All (λ changes. All (λ change. change.0 < net.old.nodes) changes) recorded.steps.items) }
    ensures net { network_of net.new ≡ network_of net.old }
{
    let mut next = Vec::from_slice(alloc, states)?;
    let mut moved = all_nodes(alloc, net.nodes)?;
    let mut steps = Vec::new(alloc);
    'steps: loop {
        let changes = find_changes(alloc, net, states, &mut next, &moved)?;
        let rests = changes.is_empty();
        if rests || steps.len() == most as usize || changes.len() > *room {
            return Ok(RecordedSteps { steps, rests });
        }
        *room -= changes.len();
        take_changes(&changes, states, &mut moved);
        steps.push(List::of(changes))?;
    }
}

// Runs a phase.
fn record_phase(
    alloc: Global,
    net: &mut Net,
    states: &mut [Level],
    budget: u32,
    room: &mut usize,
) -> Result<PhaseRecord, AllocError>
    requires states { length states.old ≡ net.old.nodes }
    ensures recorded { IfOk result (λ phase. IsRecorded (network_of net.old) budget states.old phase states.new) }
    ensures fits { IfOk result (FitsRecord net.old.nodes budget) }
    ensures net { network_of net.new ≡ network_of net.old }
{
    let recorded = record_steps(alloc, net, states, budget, room)?;
    if recorded.rests {
        return Ok(PhaseRecord::Steps(List::of(recorded.steps)));
    }
    settle(net, states, budget - recorded.steps.len() as u32);
    *room = room.saturating_sub(states.len());
    Ok(PhaseRecord::Jump(List::of(Vec::from_slice(alloc, states)?)))
}

// Does what a line does, and records a phase.
fn record_line(
    alloc: Global,
    net: &mut Net,
    states: &mut [Level],
    line: &VecLine,
    budget: u32,
    room: &mut usize,
    phases: &mut Vec<PhaseRecord>,
) -> Result<(), AllocError>
    requires states { length states.old ≡ net.old.nodes }
    requires within { FitsNodes net.old.nodes line.now }
    requires fits { All (FitsRecord net.old.nodes budget) phases.old.items }
    ensures recorded { OnOk result ((number : ℕ) (rest : Items (ℕ × VecLineOf)) (later : Items PhaseRecordOf)
        → Records budget (network_of net.new) states.new rest later
        → (all : Items PhaseRecordOf) × (phases.new.items ++ later ≡ phases.old.items ++ all)
        × Records budget (network_of net.old) states.old ((number, line.now) ∷ rest) all) }
    ensures fits { OnOk result (All (FitsRecord net.old.nodes budget) phases.new.items) }
    ensures nodes { net.new.nodes ≡ net.old.nodes }
    ensures switches { net.new.switches ≡ net.old.switches }
{
    match line {
        VecLine::Set(node, level) => {
            net.set_input(*node);
            states[*node as usize] = *level;
        }
        VecLine::Free(node) => net.set_storage(*node),
        VecLine::Size(node, size) => net.set_size(*node, *size),
        VecLine::Phase => phases.push(record_phase(alloc, net, states, budget, room)?)?,
        VecLine::Show(_) => {}
    }
    Ok(())
}

/// The record of a run of lines from these states on, as far as there is room for it.
pub fn record(
    alloc: Global,
    net: &mut Net,
    states: &mut [Level],
    lines: &[(u32, VecLine)],
    budget: u32,
) -> Result<Vec<PhaseRecord>, AllocError>
    requires states { length states.old ≡ net.old.nodes }
    requires within { All (λ line. FitsNodes net.old.nodes line.1) lines.now }
    ensures recorded { IfOk result (λ phases. Records budget (network_of net.old) states.old lines.now phases.items) }
    ensures fits { IfOk result (λ phases. All (FitsRecord net.old.nodes budget) phases.items) }
    ensures nodes { net.new.nodes ≡ net.old.nodes }
    ensures switches { net.new.switches ≡ net.old.switches }
{
    let mut room = MOST_CHANGES;
    let mut phases = Vec::new(alloc);
    for (_, line) in lines {
        if room == 0 {
            return Ok(phases);
        }
        record_line(alloc, net, states, line, budget, &mut room, &mut phases)?;
    }
    Ok(phases)
}
