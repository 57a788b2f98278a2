//! A run with a fault beside the run without.

ghost use Rattle.std.specs.Prelude.{◌≡◌, ◌<◌, ◌≤◌, ◌⊎◌, ℕ, List, All, IfOk, Some, length};
ghost use Rattle.switch_net.specs.declared.switches.Level.{Level as LevelOf};
ghost use Rattle.switch_net.specs.Net.{network_of};
ghost use Rattle.switch_net.specs.Network.{Network};
ghost use Rattle.switch_net.specs.Phase.{Steps};
ghost use Rattle.switch_net.specs.Sets.{IsInside};
ghost use Rattle.switch_net.specs.Steady.{IsStep};
ghost use Rattle.steady_state.specs.Levels.{AreSteady};
ghost use Rattle.steady_state.specs.Marked.{IsNear};
ghost use Rattle.vector_files.specs.declared.files.VecLine.TheVariants.{Set};
ghost use Rattle.vector_runs.specs.Running.{FitsNodes};
ghost use Rattle.fault_replay.specs.Changes.{IsTold, changed, replayed};
ghost use Rattle.fault_replay.specs.Replays.{EndsPhase, FitsRecord, IsAlong, IsRecorded, IsReplayFor, SettlesDown, StepsBy, listed, states_after};

use crate::changing::{
    copy_changes, differ_at, make_changes, take_states, tell_all, tell_all_at, tell_at,
};
use crate::records::PhaseRecord;
use names_lists::List;
use std::alloc::{AllocError, Global};
use steady_state::{settle, step_near};
use switch_net::{Level, Net, NodeSet};
use vector_files::VecLine;

/// What is worked with: the states of the run without the fault, what a step makes of marked nodes, the nodes that differ, and the node
/// that is held.
#[derive(Drop)]
pub struct Replay {
    pub good: Vec<Level>,
    pub next: Vec<Level>,
    pub differing: NodeSet,
    pub held: u32,
}

impl Replay {
    /// Begins beside a run from these states, in which this node is held.
    pub fn begin(alloc: Global, starts: &[Level], held: u32) -> Result<Replay, AllocError>
        requires { held < length starts.now }
        ensures good { IfOk result (λ replay. replay.good.items ≡ starts.now) }
        ensures held { IfOk result (λ replay. replay.held ≡ held) }
        ensures fits { IfOk result (λ replay. IsReplayFor (length starts.now) replay) }
        ensures told { IfOk result (λ replay. IsInside replay.differing.inside held) }
    {
        let mut differing = NodeSet::build(alloc, starts.len())?;
        differing.add(held);
        Ok(Replay {
            good: Vec::from_slice(alloc, starts)?,
            next: Vec::from_slice(alloc, starts)?,
            differing,
            held,
        })
    }

    // Marks what differences lead to, and works out what a step makes of it.
    fn look(&mut self, net: &mut Net, states: &[Level])
        requires replay { IsReplayFor net.old.nodes self.old }
        requires states { length states.now ≡ net.old.nodes }
        ensures near { IsNear (network_of net.old) states.now (listed self.old.differing) (Some self.old.held) net.new.work.marks.inside }
        ensures steady { AreSteady (network_of net.old) states.now net.new.work.marks.inside self.new.next.items }
        ensures good { self.new.good.items ≡ self.old.good.items }
        ensures differing { self.new.differing ≡ self.old.differing }
        ensures held { self.new.held ≡ self.old.held }
        ensures replay { IsReplayFor net.new.nodes self.new }
        ensures net { network_of net.new ≡ network_of net.old }
    {
        step_near(
            net,
            states,
            &mut self.next,
            self.differing.nodes(),
            Some(self.held),
        );
    }

    // Takes a step of both runs, where the one without the fault changes this, and what the marked nodes become is known.
    fn take(&mut self, net: &Net, changes: &[(u32, Level)], states: &mut [Level])
        requires replay { IsReplayFor net.now.nodes self.old }
        requires states { length states.old ≡ net.now.nodes }
        requires changes { All (λ change. change.0 < net.now.nodes) changes.now }
        ensures good { self.new.good.items ≡ changed changes.now self.old.good.items }
        ensures states { states.new ≡ replayed changes.now net.now.work.marks.inside (listed net.now.work.marks) self.old.held self.old.next.items states.old }
        ensures told { (v : ℕ) → IsInside net.now.work.marks.inside v ⊎ (v ≡ self.old.held)
            → IsTold self.new.good.items states.new self.new.differing.inside v }
        ensures held { self.new.held ≡ self.old.held }
        ensures replay { IsReplayFor net.now.nodes self.new }
    {
        let marks = &net.work.marks;
        make_changes(changes, &mut self.good);
        copy_changes(changes, marks, self.held, states);
        take_states(marks.nodes(), &self.next, states);
        self.differing.clear();
        tell_all_at(marks.nodes(), &self.good, states, &mut self.differing);
        tell_at(self.held, &self.good, states, &mut self.differing);
    }

    // Takes one step of both runs.
    fn take_step(&mut self, net: &mut Net, changes: &[(u32, Level)], states: &mut [Level])
        requires replay { IsReplayFor net.old.nodes self.old }
        requires states { length states.old ≡ net.old.nodes }
        requires changes { All (λ change. change.0 < net.old.nodes) changes.now }
        ensures good { self.new.good.items ≡ changed changes.now self.old.good.items }
        ensures steps { (good : Network) → IsAlong good (network_of net.old) self.old.held self.old.good.items states.old self.old.differing.inside
            → IsStep good self.old.good.items (changed changes.now self.old.good.items) → IsStep (network_of net.old) states.old states.new }
        ensures along { (good : Network) → IsAlong good (network_of net.old) self.old.held self.old.good.items states.old self.old.differing.inside
            → IsStep good self.old.good.items (changed changes.now self.old.good.items)
            → IsAlong good (network_of net.new) self.old.held self.new.good.items states.new self.new.differing.inside }
        ensures held { self.new.held ≡ self.old.held }
        ensures replay { IsReplayFor net.new.nodes self.new }
        ensures net { network_of net.new ≡ network_of net.old }
    {
        self.look(net, states);
        self.take(net, changes, states);
    }

    // Takes the steps of both runs that are recorded of the one without the fault.
    fn take_steps(&mut self, net: &mut Net, steps: &[List<(u32, Level)>], states: &mut [Level])
        requires replay { IsReplayFor net.old.nodes self.old }
        requires states { length states.old ≡ net.old.nodes }
        requires steps { All (λ changes. All (λ change. change.0 < net.old.nodes) changes) steps.now }
        ensures steps { (good : Network) (t : List LevelOf)
            → IsAlong good (network_of net.old) self.old.held self.old.good.items states.old self.old.differing.inside
            → StepsBy good self.old.good.items steps.now t → Steps (network_of net.old) (length steps.now) states.old states.new }
        ensures along { (good : Network) (t : List LevelOf)
            → IsAlong good (network_of net.old) self.old.held self.old.good.items states.old self.old.differing.inside
            → StepsBy good self.old.good.items steps.now t
            → IsAlong good (network_of net.new) self.old.held t states.new self.new.differing.inside }
        ensures good { (good : Network) (t : List LevelOf) → StepsBy good self.old.good.items steps.now t → self.new.good.items ≡ t }
        ensures held { self.new.held ≡ self.old.held }
        ensures replay { IsReplayFor net.new.nodes self.new }
        ensures net { network_of net.new ≡ network_of net.old }
    {
        for changes in steps {
            self.take_step(net, changes.items(), states);
        }
    }

    // Takes steps of the run with the fault until it rests, up to so many, where the one without the fault rests. Whether it rests.
    fn settle_down(&mut self, net: &mut Net, states: &mut [Level], most: u32) -> bool
        requires replay { IsReplayFor net.old.nodes self.old }
        requires states { length states.old ≡ net.old.nodes }
        ensures settles { (good : Network) → IsAlong good (network_of net.old) self.old.held self.old.good.items states.old self.old.differing.inside
            → IsStep good self.old.good.items self.old.good.items → SettlesDown (network_of net.old) most states.old result states.new }
        ensures along { (good : Network) → IsAlong good (network_of net.old) self.old.held self.old.good.items states.old self.old.differing.inside
            → IsStep good self.old.good.items self.old.good.items
            → IsAlong good (network_of net.new) self.old.held self.old.good.items states.new self.new.differing.inside }
        ensures good { self.new.good.items ≡ self.old.good.items }
        ensures held { self.new.held ≡ self.old.held }
        ensures replay { IsReplayFor net.new.nodes self.new }
        ensures net { network_of net.new ≡ network_of net.old }
    {
        let mut taken = 0;
        'steps: loop {
            self.look(net, states);
            if !differ_at(net.work.marks.nodes(), states, &self.next) {
                return true;
            }
            if taken == most {
                return false;
            }
            self.take(net, &[], states);
            taken += 1;
        }
    }

    // Ends a phase by itself, within so many steps. Whether it settles.
    fn end_phase(&mut self, net: &mut Net, states: &mut [Level], most: u32) -> bool
        requires replay { IsReplayFor net.old.nodes self.old }
        requires states { length states.old ≡ net.old.nodes }
        ensures ends { EndsPhase (network_of net.old) most states.old result states.new }
        ensures told { (v : ℕ) → IsTold self.new.good.items states.new self.new.differing.inside v }
        ensures good { self.new.good.items ≡ self.old.good.items }
        ensures held { self.new.held ≡ self.old.held }
        ensures replay { IsReplayFor net.new.nodes self.new }
        ensures net { network_of net.new ≡ network_of net.old }
    {
        let settled = settle(net, states, most);
        tell_all(net.nodes, &self.good, states, &mut self.differing);
        settled.done
    }

    // Runs a phase of which the steps are recorded. Whether it settles.
    fn run_steps(
        &mut self,
        net: &mut Net,
        states: &mut [Level],
        steps: &[List<(u32, Level)>],
        budget: u32,
    ) -> bool
        requires replay { IsReplayFor net.old.nodes self.old }
        requires states { length states.old ≡ net.old.nodes }
        requires steps { All (λ changes. All (λ change. change.0 < net.old.nodes) changes) steps.now }
        requires few { length steps.now ≤ budget }
        ensures ends { (good : Network) (t : List LevelOf)
            → IsAlong good (network_of net.old) self.old.held self.old.good.items states.old self.old.differing.inside
            → StepsBy good self.old.good.items steps.now t → IsStep good t t → EndsPhase (network_of net.old) budget states.old result states.new }
        ensures along { (good : Network) (t : List LevelOf)
            → IsAlong good (network_of net.old) self.old.held self.old.good.items states.old self.old.differing.inside
            → StepsBy good self.old.good.items steps.now t → IsStep good t t
            → IsAlong good (network_of net.new) self.old.held t states.new self.new.differing.inside }
        ensures good { (good : Network) (t : List LevelOf) → StepsBy good self.old.good.items steps.now t → self.new.good.items ≡ t }
        ensures held { self.new.held ≡ self.old.held }
        ensures replay { IsReplayFor net.new.nodes self.new }
        ensures net { network_of net.new ≡ network_of net.old }
    {
        self.take_steps(net, steps, states);
        if self.settle_down(net, states, budget - steps.len() as u32) {
            return true;
        }
        self.end_phase(net, states, 0)
    }

    // Runs a phase of which the end is recorded. Whether it settles.
    fn run_jump(&mut self, net: &mut Net, states: &mut [Level], good: &[Level], budget: u32) -> bool
        requires replay { IsReplayFor net.old.nodes self.old }
        requires states { length states.old ≡ net.old.nodes }
        requires good { length good.now ≡ net.old.nodes }
        ensures ends { EndsPhase (network_of net.old) budget states.old result states.new }
        ensures told { (v : ℕ) → IsTold good.now states.new self.new.differing.inside v }
        ensures good { self.new.good.items ≡ good.now }
        ensures held { self.new.held ≡ self.old.held }
        ensures replay { IsReplayFor net.new.nodes self.new }
        ensures net { network_of net.new ≡ network_of net.old }
    {
        self.good.copy_from_slice(good);
        self.end_phase(net, states, budget)
    }

    /// Does what a line does to the run without the fault, which is no phase.
    pub fn follow(&mut self, line: &VecLine)
        requires fits { length self.old.differing.inside ≡ length self.old.good.items }
        requires held { self.old.held < length self.old.good.items }
        requires within { FitsNodes (length self.old.good.items) line.now }
        ensures good { self.new.good.items ≡ states_after line.now self.old.good.items }
        ensures grown { (v : ℕ) → IsInside self.old.differing.inside v → IsInside self.new.differing.inside v }
        ensures told { (level : LevelOf) → line.now ≡ Set self.old.held level → IsInside self.new.differing.inside self.old.held }
        ensures held { self.new.held ≡ self.old.held }
        ensures replay { (nodes : ℕ) → IsReplayFor nodes self.old → IsReplayFor nodes self.new }
    {
        if let VecLine::Set(node, level) = line {
            self.good[*node as usize] = *level;
            if *node == self.held {
                self.differing.add(*node);
            }
        }
    }

    /// Runs a phase of which this is recorded. Whether it settles.
    pub fn run_phase(
        &mut self,
        net: &mut Net,
        states: &mut [Level],
        phase: &PhaseRecord,
        budget: u32,
    ) -> bool
        requires replay { IsReplayFor net.old.nodes self.old }
        requires states { length states.old ≡ net.old.nodes }
        requires phase { FitsRecord net.old.nodes budget phase.now }
        ensures ends { (good : Network) (t : List LevelOf)
            → IsAlong good (network_of net.old) self.old.held self.old.good.items states.old self.old.differing.inside
            → IsRecorded good budget self.old.good.items phase.now t → EndsPhase (network_of net.old) budget states.old result states.new }
        ensures along { (good : Network) (t : List LevelOf)
            → IsAlong good (network_of net.old) self.old.held self.old.good.items states.old self.old.differing.inside
            → IsRecorded good budget self.old.good.items phase.now t
            → IsAlong good (network_of net.new) self.old.held t states.new self.new.differing.inside }
        ensures good { (good : Network) (t : List LevelOf) → IsRecorded good budget self.old.good.items phase.now t → self.new.good.items ≡ t }
        ensures held { self.new.held ≡ self.old.held }
        ensures replay { IsReplayFor net.new.nodes self.new }
        ensures net { network_of net.new ≡ network_of net.old }
    {
        match phase {
            PhaseRecord::Steps(steps) => self.run_steps(net, states, steps.items(), budget),
            PhaseRecord::Jump(good) => self.run_jump(net, states, good.items(), budget),
        }
    }

    /// Runs a phase of which this is recorded, over the states of a run. Whether it settles.
    pub fn run_recorded(
        &mut self,
        net: &mut Net,
        states: &mut Vec<Level>,
        phase: &PhaseRecord,
        budget: u32,
    ) -> bool
        requires replay { IsReplayFor net.old.nodes self.old }
        requires states { length states.old.items ≡ net.old.nodes }
        requires phase { FitsRecord net.old.nodes budget phase.now }
        ensures ends { (good : Network) (t : List LevelOf)
            → IsAlong good (network_of net.old) self.old.held self.old.good.items states.old.items self.old.differing.inside
            → IsRecorded good budget self.old.good.items phase.now t
            → EndsPhase (network_of net.old) budget states.old.items result states.new.items }
        ensures along { (good : Network) (t : List LevelOf)
            → IsAlong good (network_of net.old) self.old.held self.old.good.items states.old.items self.old.differing.inside
            → IsRecorded good budget self.old.good.items phase.now t
            → IsAlong good (network_of net.new) self.old.held t states.new.items self.new.differing.inside }
        ensures good { (good : Network) (t : List LevelOf) → IsRecorded good budget self.old.good.items phase.now t → self.new.good.items ≡ t }
        ensures states { length states.new.items ≡ length states.old.items }
        ensures held { self.new.held ≡ self.old.held }
        ensures replay { IsReplayFor net.new.nodes self.new }
        ensures net { network_of net.new ≡ network_of net.old }
    {
        self.run_phase(net, states, phase, budget)
    }
}
