//! The line that detects a fault.
ghost use Rattle.std.specs.Prelude.{◌≡◌, ◌≢◌, ◌<◌, true, All, Some, length, IfOk, MatchOption};
ghost use Rattle.std.specs.List.Sorted.{IsNonDecreasingBy};
ghost use Rattle.switch_net.specs.Net.{network_of};
ghost use Rattle.vector_files.specs.VectorFiles.{IsWithin};
ghost use Rattle.fault_replay.specs.VectorRuns.RailNodes.{AreBelow, AreRails};
ghost use Rattle.fault_replay.specs.VectorRuns.Running.{FitsNodes, watched};
ghost use Rattle.fault_replay.specs.VectorRuns.Runs.{IsFresh};
ghost use Rattle.fault_replay.specs.VectorRuns.Watching.{Watched as WatchedAt};
ghost use Rattle.fault_replay.specs.Replays.{FitsRecord, Records};
ghost use Rattle.fault_replay.specs.Runs.{IsBeside, IsReady};
ghost use Rattle.fault_grade.specs.steps.Comparing.{Finds, HasShown, IsGoodRun};
ghost use Rattle.fault_grade.specs.Grades.{IsDetectedAt, IsUndetected};

use crate::comparing::{asked_count, is_apart, least_of};
use fault_replay::vector_runs::{
    Rails, Seen, StuckFault, make_net_fresh, rails_of, start_states, watch,
};
use fault_replay::{PhaseRecord, ReplayedRun, record};
use std::alloc::{AllocError, Global};
use switch_net::{Level, NamedNet, Net};
use vector_files::{VecLine, Vectors};

/// The run of vectors without a fault: what it shows, whether the numbers of their lines rise, and what the runs with faults share with it:
/// power and ground, the states in which the network begins, and what is recorded of the phases.
#[derive(Drop)]
pub struct GoodRun {
    pub seen: Vec<Seen>,
    pub rises: bool,
    pub rails: Rails,
    pub starts: Vec<Level>,
    pub phases: Vec<PhaseRecord>,
}

// Whether no line has a lower number than one before it.
fn are_rising(lines: &[(u32, VecLine)]) -> bool
    ensures { result ≡ true → IsNonDecreasingBy (λ line. line.0) lines.now }
{
    let mut last = 0;
    for (number, _) in lines {
        if *number < last {
            return false;
        }
        last = *number;
    }
    true
}

// Records the run without a fault, but leaves the inputs and sizes as the run changed them.
fn record_from_start(
    alloc: Global,
    net: &mut Net,
    vectors: &Vectors,
    budget: u32,
    starts: &[Level],
) -> Result<Vec<PhaseRecord>, AllocError>
    requires within { All (λ line. FitsNodes net.old.nodes line.1) vectors.now.lines }
    requires starts { length starts.now ≡ net.old.nodes }
    ensures records { IfOk result (λ phases. Records budget (network_of net.old) starts.now vectors.now.lines phases.items) }
    ensures fits { IfOk result (λ phases. All (FitsRecord net.old.nodes budget) phases.items) }
    ensures nodes { net.new.nodes ≡ net.old.nodes }
    ensures switches { net.new.switches ≡ net.old.switches }
{
    let mut states = Vec::from_slice(alloc, starts)?;
    let phases = record(alloc, net, &mut states, vectors.lines.items(), budget)?;
    Ok(phases)
}

// Records the run without a fault, or nothing where there is no memory for it. The network is left with the inputs and sizes that it had.
fn record_run(
    alloc: Global,
    named: &mut NamedNet,
    vectors: &Vectors,
    budget: u32,
    starts: &[Level],
    rails: &Rails,
) -> Vec<PhaseRecord>
    requires fresh { IsFresh (network_of named.old.net) named.old.names }
    requires within { All (λ line. FitsNodes named.old.net.nodes line.1) vectors.now.lines }
    requires starts { length starts.now ≡ named.old.net.nodes }
    requires rails { AreRails named.old.names rails.now }
    requires below { AreBelow named.old.net.nodes rails.now }
    ensures records { Records budget (network_of named.old.net) starts.now vectors.now.lines result.items }
    ensures fits { All (FitsRecord named.old.net.nodes budget) result.items }
    ensures network { network_of named.new.net ≡ network_of named.old.net }
    ensures names { named.new.names ≡ named.old.names }
{
    let recorded = record_from_start(alloc, &mut named.net, vectors, budget, starts);
    make_net_fresh(&mut named.net, rails);
    match recorded {
        Ok(phases) => phases,
        Err(_) => Vec::new(alloc),
    }
}

impl GoodRun {
    /// Runs the vectors without a fault.
    pub fn of(
        alloc: Global,
        named: &mut NamedNet,
        vectors: &Vectors,
        budget: u32,
    ) -> Result<GoodRun, AllocError>
        requires fresh { IsFresh (network_of named.old.net) named.old.names }
        requires within { IsWithin named.old vectors.now }
        ensures good { IfOk result (λ good. IsGoodRun (network_of named.old.net) named.old.names budget vectors.now good) }
        ensures network { network_of named.new.net ≡ network_of named.old.net }
        ensures names { named.new.names ≡ named.old.names }
    {
        let seen = watch(alloc, named, vectors, budget, None)?;
        let rails = rails_of(named);
        let starts = start_states(alloc, named)?;
        let phases = record_run(alloc, named, vectors, budget, &starts, &rails);
        Ok(GoodRun {
            seen,
            rises: are_rising(vectors.lines.items()),
            rails,
            starts,
            phases,
        })
    }

    // Whether no later line is less than what was found.
    fn decides(&self, found: Option<u32>) -> bool
        ensures rises { result ≡ true → self.now.rises ≡ true }
        ensures some { result ≡ true → found ≢ None }
    {
        self.rises && found.is_some()
    }
}

// Takes lines from the beginning until one detects the fault, where their numbers rise, and else all of them. The least that detects it.
fn run_to_detection(
    alloc: Global,
    run: &mut ReplayedRun<'_>,
    net: &mut Net,
    lines: &[(u32, VecLine)],
    budget: u32,
    good: &GoodRun,
) -> Option<u32>
    requires ready { IsReady budget net.old run.old }
    requires beside { run.old.on ≡ true → IsBeside budget net.old run.old lines.now }
    requires begins { (watched net.old run.old.run).at.phases ≡ 0 }
    requires within { All (λ line. FitsNodes net.old.nodes line.1) lines.now }
    requires shown { (from : WatchedAt) × HasShown budget net.old.nodes from lines.now good.now.seen.items }
    requires rises { good.now.rises ≡ true → IsNonDecreasingBy (λ line. line.0) lines.now }
    ensures finds { (from : WatchedAt) → HasShown budget net.old.nodes from lines.now good.now.seen.items
        → Finds budget from (watched net.old run.old.run) run.old.run.stuck lines.now result }
    ensures nodes { net.new.nodes ≡ net.old.nodes }
    ensures switches { net.new.switches ≡ net.old.switches }
{
    let mut found = None;
    let mut seen = good.seen.as_slice();
    for (number, line) in lines {
        let (here, later) = seen.split_at(asked_count(line));
        found = least_of(found, is_apart(&run.run, line, here), *number);
        if good.decides(found) {
            return found;
        }
        seen = later;
        run.take_line(alloc, net, line, budget);
    }
    found
}

// Looks for the line as `detect` does, but leaves the inputs and sizes as the run changed them.
fn detect_from_start(
    alloc: Global,
    named: &mut NamedNet,
    vectors: &Vectors,
    budget: u32,
    good: &GoodRun,
    fault: StuckFault,
) -> Result<Option<u32>, AllocError>
    requires within { All (λ line. FitsNodes named.old.net.nodes line.1) vectors.now.lines }
    requires good { IsGoodRun (network_of named.old.net) named.old.names budget vectors.now good.now }
    requires node { fault.node < named.old.net.nodes }
    ensures line { IfOk result (λ line. MatchOption line (IsUndetected (network_of named.old.net) named.old.names budget vectors.now fault)
        (IsDetectedAt (network_of named.old.net) named.old.names budget vectors.now fault)) }
    ensures names { named.new.names ≡ named.old.names }
    ensures nodes { named.new.net.nodes ≡ named.old.net.nodes }
    ensures switches { named.new.net.switches ≡ named.old.net.switches }
{
    let net = &mut named.net;
    let mut run = ReplayedRun::begin(alloc, net, &good.starts, &good.phases, fault, budget)?;
    Ok(run_to_detection(alloc, &mut run, net, vectors.lines.items(), budget, good))
}

/// The line that detects a fault, if there is one. The network is left with the inputs and sizes that it had.
pub fn detect(
    alloc: Global,
    named: &mut NamedNet,
    vectors: &Vectors,
    budget: u32,
    good: &GoodRun,
    fault: StuckFault,
) -> Result<Option<u32>, AllocError>
    requires fresh { IsFresh (network_of named.old.net) named.old.names }
    requires within { All (λ line. FitsNodes named.old.net.nodes line.1) vectors.now.lines }
    requires good { IsGoodRun (network_of named.old.net) named.old.names budget vectors.now good.now }
    requires node { fault.node < named.old.net.nodes }
    ensures line { IfOk result (λ line. MatchOption line (IsUndetected (network_of named.old.net) named.old.names budget vectors.now fault)
        (IsDetectedAt (network_of named.old.net) named.old.names budget vectors.now fault)) }
    ensures network { network_of named.new.net ≡ network_of named.old.net }
    ensures names { named.new.names ≡ named.old.names }
{
    let line = detect_from_start(alloc, named, vectors, budget, good, fault);
    make_net_fresh(&mut named.net, &good.rails);
    line
}
