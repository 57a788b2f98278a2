//! Runs with a fault that are replayed as far as a record of the run without it goes.

ghost use Rattle.std.specs.Prelude.{◌≡◌, ◌≢◌, ◌<◌, ◌≤◌, ◌+◌, ◌∷◌, ℕ, List, All, IfOk, Some, true, false, length};
ghost use Rattle.switch_net.specs.Net.{network_of};
ghost use Rattle.vector_files.specs.declared.files.VecLine.{VecLine as VecLineOf};
ghost use Rattle.vector_files.specs.declared.files.VecLine.TheVariants.{Phase};
ghost use Rattle.vector_runs.specs.Running.{FitsNodes, watched};
ghost use Rattle.vector_runs.specs.Watching.{LineIsTaken, begun_with, is_left_out};
ghost use Rattle.fault_replay.specs.Replays.{FitsRecord, Records};
ghost use Rattle.fault_replay.specs.Runs.{IsBeside, IsReady};

use crate::records::PhaseRecord;
use crate::replaying::Replay;
use std::alloc::{AllocError, Global};
use switch_net::{Level, Net};
use vector_files::VecLine;
use vector_runs::{StuckFault, WatchedRun};

/// A run with a fault under way, with what is to come of the record of the run without.
#[derive(Drop)]
pub struct ReplayedRun<'a> {
    pub run: WatchedRun,
    pub replay: Replay,
    pub phases: &'a [PhaseRecord],
    /// Whether it is known where the run without the fault stands.
    pub on: bool,
}

// The first phase that is recorded, and the later ones.
fn split_first(phases: &[PhaseRecord]) -> (&PhaseRecord, &[PhaseRecord])
    requires { 0 < length phases.now }
    ensures { phases.now ≡ result.0.now ∷ result.1.now }
{
    (&phases[0], &phases[1..])
}

impl<'a> ReplayedRun<'a> {
    /// Begins a run on the network from these states, beside the record of a run without the fault. The stuck node becomes an input.
    pub fn begin(
        alloc: Global,
        net: &mut Net,
        starts: &[Level],
        phases: &'a [PhaseRecord],
        fault: StuckFault,
        budget: u32,
    ) -> Result<ReplayedRun<'a>, AllocError>
        requires node { fault.node < net.old.nodes }
        requires states { length starts.now ≡ net.old.nodes }
        requires phases { All (FitsRecord net.old.nodes budget) phases.now }
        ensures begun { IfOk result (λ run. watched net.new run.run ≡ begun_with (Some fault) (network_of net.old) starts.now) }
        ensures stuck { IfOk result (λ run. run.run.stuck ≡ Some fault) }
        ensures ready { IfOk result (λ run. IsReady budget net.new run) }
        ensures beside { IfOk result (λ run. (lines : List (ℕ × VecLineOf)) → Records budget (network_of net.old) starts.now lines phases.now
            → IsBeside budget net.new run lines) }
        ensures nodes { net.new.nodes ≡ net.old.nodes }
        ensures switches { net.new.switches ≡ net.old.switches }
    {
        let replay = Replay::begin(alloc, starts, fault.node)?;
        let states = Vec::from_slice(alloc, starts)?;
        Ok(ReplayedRun {
            run: WatchedRun::begin_in(states, net, Some(fault)),
            replay,
            phases,
            on: true,
        })
    }

    /// Takes a line, but for one that would set the stuck node, free it or give it a size.
    pub fn take_line(&mut self, alloc: Global, net: &mut Net, line: &VecLine, budget: u32)
        requires ready { IsReady budget net.old self.old }
        requires room { (watched net.old self.old.run).at.phases < usize.MAX }
        requires within { FitsNodes net.old.nodes line.now }
        ensures left_out { is_left_out self.old.run.stuck line.now ≡ true → watched net.new self.new.run ≡ watched net.old self.old.run }
        ensures taken { (number : ℕ) (rest : List (ℕ × VecLineOf))
            → (self.old.on ≡ true → IsBeside budget net.old self.old ((number, line.now) ∷ rest)) → is_left_out self.old.run.stuck line.now ≡ false
            → LineIsTaken budget (watched net.old self.old.run) line.now (watched net.new self.new.run) }
        ensures beside { (number : ℕ) (rest : List (ℕ × VecLineOf))
            → (self.old.on ≡ true → IsBeside budget net.old self.old ((number, line.now) ∷ rest)) → self.new.on ≡ true
            → IsBeside budget net.new self.new rest }
        ensures ready { IsReady budget net.new self.new }
        ensures stuck { self.new.run.stuck ≡ self.old.run.stuck }
        ensures counted { (watched net.new self.new.run).at.phases ≤ (watched net.old self.old.run).at.phases + 1 }
        ensures nodes { net.new.nodes ≡ net.old.nodes }
        ensures switches { net.new.switches ≡ net.old.switches }
    {
        match line {
            VecLine::Phase => self.take_phase(alloc, net, line, budget),
            _ => self.take_other(alloc, net, line, budget),
        }
    }

    // Takes a line that is no phase.
    fn take_other(&mut self, alloc: Global, net: &mut Net, line: &VecLine, budget: u32)
        requires ready { IsReady budget net.old self.old }
        requires room { (watched net.old self.old.run).at.phases < usize.MAX }
        requires within { FitsNodes net.old.nodes line.now }
        requires other { line.now ≢ Phase }
        ensures left_out { is_left_out self.old.run.stuck line.now ≡ true → watched net.new self.new.run ≡ watched net.old self.old.run }
        ensures taken { is_left_out self.old.run.stuck line.now ≡ false
            → LineIsTaken budget (watched net.old self.old.run) line.now (watched net.new self.new.run) }
        ensures beside { (number : ℕ) (rest : List (ℕ × VecLineOf)) → IsBeside budget net.old self.old ((number, line.now) ∷ rest)
            → IsBeside budget net.new self.new rest }
        ensures on { self.new.on ≡ self.old.on }
        ensures ready { IsReady budget net.new self.new }
        ensures stuck { self.new.run.stuck ≡ self.old.run.stuck }
        ensures counted { (watched net.new self.new.run).at.phases ≤ (watched net.old self.old.run).at.phases + 1 }
        ensures nodes { net.new.nodes ≡ net.old.nodes }
        ensures switches { net.new.switches ≡ net.old.switches }
    {
        self.run.take_line(alloc, net, line, budget);
        self.replay.follow(line);
    }

    // Whether it is known what the run without the fault does in the next phase.
    fn can_replay(&self) -> bool
        ensures on { result ≡ true → self.now.on ≡ true }
        ensures some { result ≡ true → 0 < length self.now.phases.now }
    {
        self.on && !self.phases.is_empty()
    }

    // Takes a phase.
    fn take_phase(&mut self, alloc: Global, net: &mut Net, line: &VecLine, budget: u32)
        requires ready { IsReady budget net.old self.old }
        requires room { (watched net.old self.old.run).at.phases < usize.MAX }
        requires phase { line.now ≡ Phase }
        ensures taken { (number : ℕ) (rest : List (ℕ × VecLineOf)) → (self.old.on ≡ true → IsBeside budget net.old self.old ((number, line.now) ∷ rest))
            → LineIsTaken budget (watched net.old self.old.run) line.now (watched net.new self.new.run) }
        ensures beside { (number : ℕ) (rest : List (ℕ × VecLineOf))
            → (self.old.on ≡ true → IsBeside budget net.old self.old ((number, line.now) ∷ rest)) → self.new.on ≡ true
            → IsBeside budget net.new self.new rest }
        ensures ready { IsReady budget net.new self.new }
        ensures stuck { self.new.run.stuck ≡ self.old.run.stuck }
        ensures counted { (watched net.new self.new.run).at.phases ≤ (watched net.old self.old.run).at.phases + 1 }
        ensures nodes { net.new.nodes ≡ net.old.nodes }
        ensures switches { net.new.switches ≡ net.old.switches }
    {
        if self.can_replay() {
            self.replay_phase(net, budget);
        } else {
            self.on = false;
            self.run.take_line(alloc, net, line, budget);
        }
    }

    // Takes a phase that is recorded.
    fn replay_phase(&mut self, net: &mut Net, budget: u32)
        requires ready { IsReady budget net.old self.old }
        requires room { (watched net.old self.old.run).at.phases < usize.MAX }
        requires recorded { 0 < length self.old.phases.now }
        ensures taken { (number : ℕ) (rest : List (ℕ × VecLineOf)) → IsBeside budget net.old self.old ((number, Phase) ∷ rest)
            → LineIsTaken budget (watched net.old self.old.run) Phase (watched net.new self.new.run) }
        ensures beside { (number : ℕ) (rest : List (ℕ × VecLineOf)) → IsBeside budget net.old self.old ((number, Phase) ∷ rest)
            → IsBeside budget net.new self.new rest }
        ensures on { self.new.on ≡ self.old.on }
        ensures ready { IsReady budget net.new self.new }
        ensures stuck { self.new.run.stuck ≡ self.old.run.stuck }
        ensures counted { (watched net.new self.new.run).at.phases ≡ (watched net.old self.old.run).at.phases + 1 }
        ensures nodes { net.new.nodes ≡ net.old.nodes }
        ensures switches { net.new.switches ≡ net.old.switches }
    {
        let (phase, later) = split_first(self.phases);
        let states = &mut self.run.progress.states;
        let settled = self.replay.run_recorded(net, states, phase, budget);
        self.phases = later;
        self.run.settled = settled;
        self.run.progress.touched = None;
        self.run.progress.phases += 1;
    }
}
