//! Runs that are watched, in which a node may be stuck.
ghost use Rattle.std.specs.Prelude.{◌≡◌, ◌≢◌, ◌<◌, ◌≤◌, ◌+◌, ◌++◌, true, false, All, length, IfOk, IfSome, OnOk};
ghost use Rattle.switch_net.specs.declared.network.Net.{Net as NetOf};
ghost use Rattle.switch_net.specs.declared.switches.Level.TheVariants.{X};
ghost use Rattle.switch_net.specs.Net.{network_of};
ghost use Rattle.switch_net.specs.Path.{state_of};
ghost use Rattle.vector_files.specs.VectorFiles.{IsChangeable, IsWithin};
ghost use Rattle.vector_runs.specs.Running.{FitsNodes, HasBegun, IsRested, IsUnderWay, standing, states_of, watched};
ghost use Rattle.vector_runs.specs.Runs.{IsFresh};
ghost use Rattle.vector_runs.specs.Watching.{AreSeen, LineIsTaken, LinesShow, begun_with, counting, held, is_left_out as is_line_left_out, seen_in};

use crate::progress::Progress;
use crate::rails::{make_fresh, start_states};
use crate::stuck_faults::{StuckFault, is_left_out};
use names_lists::Name;
use std::alloc::{AllocError, Global};
use switch_net::{Level, NamedNet, Net};
use vector_files::{VecLine, Vectors};

/// What a line shows of a node.
#[derive(Debug, Drop)]
pub struct Seen {
    /// The number of the line.
    pub line: u32,
    /// The name by which the line asks for the node.
    pub name: Name,
    /// The state of the node.
    pub value: Level,
    /// Whether a phase was run before, and the last one settled.
    pub settled: bool,
}

/// A run under way, in which a node may be stuck.
#[derive(Drop)]
pub struct WatchedRun {
    pub progress: Progress,
    pub settled: bool,
    pub stuck: Option<StuckFault>,
}

// Makes a node that may be stuck an input in its state.
fn hold_stuck(progress: &mut Progress, net: &mut Net, stuck: Option<StuckFault>)
    requires node { IfSome stuck (λ fault. fault.node < net.old.nodes) }
    requires states { length progress.old.states.items ≡ net.old.nodes }
    requires rested { IsRested net.old progress.old }
    ensures standing { standing net.new progress.new ≡ held stuck (standing net.old progress.old) }
    ensures rested { IsRested net.new progress.new }
{
    if let Some(fault) = stuck {
        progress.set(net, fault.node, fault.value);
    }
}

impl WatchedRun {
    /// Begins a run on the network, from the states in which it begins. A stuck node becomes an input.
    pub fn begin(
        alloc: Global,
        named: &mut NamedNet,
        stuck: Option<StuckFault>,
    ) -> Result<WatchedRun, AllocError>
        requires { IfSome stuck (λ fault. fault.node < named.old.net.nodes) }
        ensures begun { IfOk result (λ run. HasBegun (network_of named.old.net) named.old.names stuck (watched named.new.net run)) }
        ensures stuck { IfOk result (λ run. run.stuck ≡ stuck) }
        ensures under_way { IfOk result (λ run. IsUnderWay named.new.net run) }
        ensures names { named.new.names ≡ named.old.names }
        ensures nodes { named.new.net.nodes ≡ named.old.net.nodes }
        ensures switches { named.new.net.switches ≡ named.old.net.switches }
    {
        let states = start_states(alloc, named)?;
        Ok(WatchedRun::begin_in(states, &mut named.net, stuck))
    }

    /// Begins a run on the network from these states. A stuck node becomes an input.
    pub fn begin_in(states: Vec<Level>, net: &mut Net, stuck: Option<StuckFault>) -> WatchedRun
        requires node { IfSome stuck (λ fault. fault.node < net.old.nodes) }
        requires states { length states.items ≡ net.old.nodes }
        ensures begun { watched net.new result ≡ begun_with stuck (network_of net.old) states.items }
        ensures stuck { result.stuck ≡ stuck }
        ensures under_way { IsUnderWay net.new result }
        ensures nodes { net.new.nodes ≡ net.old.nodes }
        ensures switches { net.new.switches ≡ net.old.switches }
    {
        let mut progress = Progress {
            states,
            phases: 0,
            touched: None,
        };
        hold_stuck(&mut progress, net, stuck);
        WatchedRun {
            progress,
            settled: false,
            stuck,
        }
    }

    /// Takes a line, but for one that would set the stuck node, free it or give it a size.
    pub fn take_line(&mut self, alloc: Global, net: &mut Net, line: &VecLine, budget: u32)
        requires under_way { IsUnderWay net.old self.old }
        requires room { (watched net.old self.old).at.phases < usize.MAX }
        requires within { FitsNodes net.old.nodes line.now }
        ensures left_out { is_line_left_out self.old.stuck line.now ≡ true → watched net.new self.new ≡ watched net.old self.old }
        ensures taken { is_line_left_out self.old.stuck line.now ≡ false
            → LineIsTaken budget (watched net.old self.old) line.now (watched net.new self.new) }
        ensures stuck { self.new.stuck ≡ self.old.stuck }
        ensures under_way { IsUnderWay net.new self.new }
        ensures counted { (watched net.new self.new).at.phases ≤ (watched net.old self.old).at.phases + 1 }
        ensures nodes { net.new.nodes ≡ net.old.nodes }
        ensures switches { net.new.switches ≡ net.old.switches }
    {
        if !is_left_out(self.stuck, line) {
            self.take_counting_line(alloc, net, line, budget);
        }
    }

    fn take_counting_line(&mut self, alloc: Global, net: &mut Net, line: &VecLine, budget: u32)
        requires under_way { IsUnderWay net.old self.old }
        requires room { (watched net.old self.old).at.phases < usize.MAX }
        requires within { FitsNodes net.old.nodes line.now }
        ensures taken { LineIsTaken budget (watched net.old self.old) line.now (watched net.new self.new) }
        ensures stuck { self.new.stuck ≡ self.old.stuck }
        ensures under_way { IsUnderWay net.new self.new }
        ensures counted { (watched net.new self.new).at.phases ≤ (watched net.old self.old).at.phases + 1 }
        ensures nodes { net.new.nodes ≡ net.old.nodes }
        ensures switches { net.new.switches ≡ net.old.switches }
    {
        match line {
            VecLine::Set(node, level) => self.progress.set(net, *node, *level),
            VecLine::Free(node) => self.progress.free(net, *node),
            VecLine::Size(node, size) => self.progress.resize(net, *node, *size),
            VecLine::Phase => self.settled = self.progress.take_phase(alloc, net, budget).done,
            VecLine::Show(_) => {}
        }
    }

    /// The state of a node.
    pub fn level(&self, node: u32) -> Level
        requires { node < length (states_of self.now) }
        ensures { result ≡ state_of (states_of self.now) node }
    {
        self.progress.states[node as usize]
    }

    /// Whether a phase was run and the last one settled.
    pub fn has_settled(&self) -> bool
        ensures { result ≡ self.now.settled }
    {
        self.settled
    }

    // Takes lines from the beginning, and adds what they show.
    fn watch_lines(
        &mut self,
        alloc: Global,
        net: &mut Net,
        lines: &[(u32, VecLine)],
        budget: u32,
    ) -> Result<Vec<Seen>, AllocError>
        requires under_way { IsUnderWay net.old self.old }
        requires begins { (watched net.old self.old).at.phases ≡ 0 }
        requires within { All (λ line. FitsNodes net.old.nodes line.1) lines.now }
        ensures shown { IfOk result (λ seen. LinesShow budget (watched net.old self.old) (counting self.old.stuck lines.now)
            (watched net.new self.new) seen.items) }
        ensures nodes { net.new.nodes ≡ net.old.nodes }
        ensures switches { net.new.switches ≡ net.old.switches }
    {
        let mut seen = Vec::new(alloc);
        for (number, line) in lines {
            self.show(alloc, *number, line, &mut seen)?;
            self.take_line(alloc, net, line, budget);
        }
        Ok(seen)
    }

    // Adds what the line of this number shows.
    fn show(
        &self,
        alloc: Global,
        number: u32,
        line: &VecLine,
        seen: &mut Vec<Seen>,
    ) -> Result<(), AllocError>
        requires { FitsNodes (length (states_of self.now)) line.now }
        ensures { OnOk result ((net : NetOf) → seen.new.items ≡ seen.old.items ++ seen_in (watched net self.now) number line.now) }
    {
        if let VecLine::Show(asked) = line {
            for (name, node) in asked.items() {
                seen.push(Seen {
                    line: number,
                    name: name.copy(alloc)?,
                    value: self.level(*node),
                    settled: self.settled,
                })?;
            }
        }
        Ok(())
    }
}

/// Runs the vectors on the network, from the states in which it begins, and tells what they show: each name of each line that shows, in
/// order. Where a node is stuck, it is an input in its state from the start on, and lines that would set it, free it or give it a size do
/// nothing. The network is left with the inputs and sizes that it had, after want of memory too.
pub fn watch(
    alloc: Global,
    named: &mut NamedNet,
    vectors: &Vectors,
    budget: u32,
    stuck: Option<StuckFault>,
) -> Result<Vec<Seen>, AllocError>
    requires fresh { IsFresh (network_of named.old.net) named.old.names }
    requires within { IsWithin named.old vectors.now }
    requires stuck { IfSome stuck (λ fault. IsChangeable named.old.names named.old.net.nodes fault.node) }
    requires level { IfSome stuck (λ fault. fault.value ≢ X) }
    ensures seen { IfOk result (λ seen. AreSeen (network_of named.old.net) named.old.names budget vectors.now stuck seen.items) }
    ensures network { network_of named.new.net ≡ network_of named.old.net }
    ensures names { named.new.names ≡ named.old.names }
{
    let seen = watch_from_start(alloc, named, vectors, budget, stuck);
    make_fresh(named);
    seen
}

// Runs vectors as `watch` does, but leaves the inputs and sizes as the run changed them.
fn watch_from_start(
    alloc: Global,
    named: &mut NamedNet,
    vectors: &Vectors,
    budget: u32,
    stuck: Option<StuckFault>,
) -> Result<Vec<Seen>, AllocError>
    requires within { All (λ line. FitsNodes named.old.net.nodes line.1) vectors.now.lines }
    requires stuck { IfSome stuck (λ fault. fault.node < named.old.net.nodes) }
    ensures seen { IfOk result (λ seen. AreSeen (network_of named.old.net) named.old.names budget vectors.now stuck seen.items) }
    ensures names { named.new.names ≡ named.old.names }
    ensures nodes { named.new.net.nodes ≡ named.old.net.nodes }
    ensures switches { named.new.net.switches ≡ named.old.net.switches }
{
    let mut run = WatchedRun::begin(alloc, named, stuck)?;
    run.watch_lines(alloc, &mut named.net, vectors.lines.items(), budget)
}
