//! How far a run has come, and what each line does.
ghost use Rattle.std.specs.Prelude.{◌≡◌, ◌<◌, ◌≤◌, ◌+◌, ◌++◌, ◌∷◌, [], true, false, All, length, map, slice_set, IfSome, OnOk};
ghost use Rattle.switch_net.specs.Network.{IsSize};
ghost use Rattle.switch_net.specs.Net.{network_of};
ghost use Rattle.switch_net.specs.Phase.{IsPhase};
ghost use Rattle.vector_files.specs.declared.files.VecLine.TheVariants.{Phase};
ghost use Rattle.vector_runs.specs.Running.{AddsReplies, AreTouchedAfter, FitsNodes, IsRested, RanLine, RanLines, standing};
ghost use Rattle.vector_runs.specs.Runs.{RunsPhase, phase_reply as reply_of_phase, shown_in, with_input, with_size};

use crate::replies::VecReply;
use names_lists::Name;
use std::alloc::{AllocError, Global};
use steady_state::{Settled, settle_from};
use switch_net::{Level, Net};
use vector_files::VecLine;

/// How far a run has come: the states of the nodes, how many phases were run, and which inputs were set since the network rested, where
/// nothing else was done to it.
#[derive(Drop)]
pub struct Progress {
    pub states: Vec<Level>,
    pub phases: usize,
    pub touched: Option<Vec<u32>>,
}

/// The inputs with one more that was set. None are told where the node was no input, or where there is no memory for it.
fn with_touched(touched: Option<Vec<u32>>, was_input: bool, node: u32) -> Option<Vec<u32>>
    ensures { IfSome result (AreTouchedAfter touched was_input node) }
{
    let mut nodes = touched?;
    if !was_input || nodes.push(node).is_err() {
        return None;
    }
    Some(nodes)
}

/// No inputs, where a phase has settled, and else none are told.
fn touched_by_none(alloc: Global, settled: Settled) -> Option<Vec<u32>>
    ensures { IfSome result (λ nodes. (settled.done ≡ true) × (nodes.items ≡ [])) }
{
    if settled.done {
        Some(Vec::new(alloc))
    } else {
        None
    }
}

impl Progress {
    /// Runs lines from the beginning, and adds what they reply.
    pub fn run_lines(
        &mut self,
        alloc: Global,
        net: &mut Net,
        lines: &[(u32, VecLine)],
        budget: u32,
        replies: &mut Vec<VecReply>,
    ) -> Result<(), AllocError>
        requires states { length self.old.states.items ≡ net.old.nodes }
        requires rested { IsRested net.old self.old }
        requires begins { self.old.phases ≡ 0 }
        requires within { All (λ line. FitsNodes net.old.nodes line.1) lines.now }
        ensures ran { OnOk result (RanLines budget (standing net.old self.old) (map (λ line. line.1) lines.now) (standing net.new self.new)
            replies.old.items replies.new.items) }
        ensures nodes { net.new.nodes ≡ net.old.nodes }
        ensures switches { net.new.switches ≡ net.old.switches }
        ensures added { AddsReplies replies.old.items replies.new.items }
    {
        for (_, line) in lines {
            self.run_line(alloc, net, line, budget, replies)?;
        }
        Ok(())
    }

    fn run_line(
        &mut self,
        alloc: Global,
        net: &mut Net,
        line: &VecLine,
        budget: u32,
        replies: &mut Vec<VecReply>,
    ) -> Result<(), AllocError>
        requires states { length self.old.states.items ≡ net.old.nodes }
        requires rested { IsRested net.old self.old }
        requires room { self.old.phases < usize.MAX }
        requires within { FitsNodes net.old.nodes line.now }
        ensures ran { OnOk result (RanLine budget (standing net.old self.old) line.now (standing net.new self.new)
            replies.old.items replies.new.items) }
        ensures states { length self.new.states.items ≡ net.new.nodes }
        ensures rested { OnOk result (IsRested net.new self.new) }
        ensures counted { self.new.phases ≤ self.old.phases + 1 }
        ensures nodes { net.new.nodes ≡ net.old.nodes }
        ensures switches { net.new.switches ≡ net.old.switches }
        ensures added { AddsReplies replies.old.items replies.new.items }
    {
        match line {
            VecLine::Set(node, level) => self.set(net, *node, *level),
            VecLine::Free(node) => self.free(net, *node),
            VecLine::Size(node, size) => self.resize(net, *node, *size),
            VecLine::Phase => self.run_phase(alloc, net, budget, replies)?,
            VecLine::Show(asked) => self.show(alloc, asked.items(), replies)?,
        }
        Ok(())
    }

    /// Makes a node an input in this state.
    pub fn set(&mut self, net: &mut Net, node: u32, level: Level)
        requires node { node < net.old.nodes }
        requires states { length self.old.states.items ≡ net.old.nodes }
        requires rested { IsRested net.old self.old }
        ensures standing { standing net.new self.new ≡ record (standing net.old self.old) {
          net = with_input (network_of net.old) node true;
          states = slice_set self.old.states.items node level;
        } }
        ensures rested { IsRested net.new self.new }
    {
        let was_input = net.inputs.items()[node as usize];
        self.touched = with_touched(self.touched.take(), was_input, node);
        net.set_input(node);
        self.states[node as usize] = level;
    }

    /// Makes a node store charge.
    pub fn free(&mut self, net: &mut Net, node: u32)
        requires node { node < net.old.nodes }
        ensures standing { standing net.new self.new ≡ record (standing net.old self.old) { net = with_input (network_of net.old) node false } }
        ensures rested { IsRested net.new self.new }
    {
        self.touched = None;
        net.set_storage(node);
    }

    /// Gives a node a size.
    pub fn resize(&mut self, net: &mut Net, node: u32, size: u8)
        requires node { node < net.old.nodes }
        requires size { IsSize size }
        ensures standing { standing net.new self.new ≡ record (standing net.old self.old) { net = with_size (network_of net.old) node size } }
        ensures rested { IsRested net.new self.new }
    {
        self.touched = None;
        net.set_size(node, size);
    }

    // Takes the steps of a phase.
    fn settle(&mut self, net: &mut Net, budget: u32) -> Settled
        requires states { length self.old.states.items ≡ net.old.nodes }
        requires rested { IsRested net.old self.old }
        ensures phase { IsPhase (network_of net.old) budget self.old.states.items result.done result.steps self.new.states.items }
        ensures network { network_of net.new ≡ network_of net.old }
        ensures states { length self.new.states.items ≡ length self.old.states.items }
        ensures phases { self.new.phases ≡ self.old.phases }
    {
        match &self.touched {
            Some(nodes) => settle_from(net, &mut self.states, Some(nodes.as_slice()), budget),
            None => settle_from(net, &mut self.states, None, budget),
        }
    }

    /// Runs a phase.
    pub fn take_phase(&mut self, alloc: Global, net: &mut Net, budget: u32) -> Settled
        requires states { length self.old.states.items ≡ net.old.nodes }
        requires rested { IsRested net.old self.old }
        requires room { self.old.phases < usize.MAX }
        ensures ran { RunsPhase budget (standing net.old self.old) (standing net.new self.new)
            (reply_of_phase self.new.phases result.done result.steps ∷ []) }
        ensures network { network_of net.new ≡ network_of net.old }
        ensures states { length self.new.states.items ≡ length self.old.states.items }
        ensures rested { IsRested net.new self.new }
        ensures counted { self.new.phases ≡ self.old.phases + 1 }
    {
        let settled = self.settle(net, budget);
        self.touched = touched_by_none(alloc, settled);
        self.phases += 1;
        settled
    }

    fn run_phase(
        &mut self,
        alloc: Global,
        net: &mut Net,
        budget: u32,
        replies: &mut Vec<VecReply>,
    ) -> Result<(), AllocError>
        requires states { length self.old.states.items ≡ net.old.nodes }
        requires rested { IsRested net.old self.old }
        requires room { self.old.phases < usize.MAX }
        ensures ran { OnOk result (RanLine budget (standing net.old self.old) Phase (standing net.new self.new)
            replies.old.items replies.new.items) }
        ensures network { network_of net.new ≡ network_of net.old }
        ensures states { length self.new.states.items ≡ length self.old.states.items }
        ensures rested { OnOk result (IsRested net.new self.new) }
        ensures counted { self.new.phases ≡ self.old.phases + 1 }
        ensures added { AddsReplies replies.old.items replies.new.items }
    {
        let settled = self.take_phase(alloc, net, budget);
        replies.push(phase_reply(self.phases, settled))?;
        Ok(())
    }

    // Adds the states of the nodes that are asked for.
    fn show(
        &self,
        alloc: Global,
        asked: &[(Name, u32)],
        replies: &mut Vec<VecReply>,
    ) -> Result<(), AllocError>
        requires { All (λ named. named.1 < length self.now.states.items) asked.now }
        ensures shown { OnOk result (replies.new.items ≡ replies.old.items ++ shown_in self.now.states.items asked.now) }
        ensures added { AddsReplies replies.old.items replies.new.items }
    {
        for (name, node) in asked {
            replies.push(VecReply::Shown(name.copy(alloc)?, self.states[*node as usize]))?;
        }
        Ok(())
    }
}

// What is told of the phase of this number.
fn phase_reply(number: usize, settled: Settled) -> VecReply
    ensures { result ≡ reply_of_phase number settled.done settled.steps }
{
    if settled.done {
        VecReply::Settled(number, settled.steps)
    } else {
        VecReply::Unsettled(number)
    }
}
