//! Grades.
ghost use Rattle.std.specs.Prelude.{◌≡◌, ◌↔◌, ◌<◌, ◌++◌, List, length, true, IfOk, OnOk, IsErrOf};
ghost use Rattle.std.specs.List.{AllZip};
ghost use Rattle.switch_net.specs.Net.{network_of};
ghost use Rattle.vector_files.specs.NodeLookup.{is_either_node};
ghost use Rattle.vector_files.specs.VectorFiles.{IsWithin};
ghost use Rattle.fault_replay.specs.VectorRuns.Runs.{IsFresh};
ghost use Rattle.fault_replay.specs.VectorRuns.declared.stuck_faults.StuckFault.{StuckFault as StuckFaultOf};
ghost use Rattle.fault_grade.specs.steps.Comparing.{IsGoodRun};
ghost use Rattle.fault_grade.specs.Grades.{AreGrades, IsGrade, faults_at as faults_of_node, faults_but, faults_of};

use crate::detecting::{GoodRun, detect};
use crate::faults::GradeFault;
use crate::limits::MOST_FAULTS;
use fault_replay::vector_runs::{Rails, StuckFault, rails_of};
use std::alloc::{AllocError, Global};
use switch_net::{Level, NamedNet};
use vector_files::Vectors;

/// The grade of a fault: its node, at what it is stuck, and the line that detects it, if there is one.
#[derive(Clone, Copy, Debug, PartialEq, Eq)]
pub struct Graded {
    pub node: u32,
    pub value: Level,
    pub line: Option<u32>,
}

/// The grades of the vectors on the network: for each of its nodes but power and ground, in the order of their numbers, stuck at 0 and then
/// at 1, the least line that detects the fault, if there is one. The network is left with the inputs and sizes that it had, after each
/// answer.
///
/// Beside two runs of the vectors, each fault costs what the run without it changed, and the vicinities of what differs from it, up to the
/// first line that detects the fault where the numbers of the lines rise, and else to the end. The memory is that of a few runs, of what
/// the run without a fault shows and changed, which is recorded up to a limit, and of the grades. Where a record ends, or there is no memory
/// for it, each fault costs a run.
///
/// # Errors
///
/// `TooManyFaults` where there are more than `MOST_FAULTS`, before memory is asked for, and `Memory`.
pub fn grade(
    alloc: Global,
    named: &mut NamedNet,
    vectors: &Vectors,
    budget: u32,
) -> Result<Vec<Graded>, GradeFault>
    requires fresh { IsFresh (network_of named.old.net) named.old.names }
    requires within { IsWithin named.old vectors.now }
    ensures graded { IfOk result (λ grades. AreGrades (network_of named.old.net) named.old.names budget vectors.now grades.items) }
    ensures many { IsErrOf result GradeFault.TooManyFaults ↔ (MOST_FAULTS < length (faults_of named.old.names named.old.net.nodes)) }
    ensures network { network_of named.new.net ≡ network_of named.old.net }
    ensures names { named.new.names ≡ named.old.names }
{
    if has_too_many_faults(named) {
        return Err(GradeFault::TooManyFaults);
    }
    Ok(grade_all(alloc, named, vectors, budget)?)
}

/// Whether a network has more faults than can be graded.
pub fn has_too_many_faults(named: &NamedNet) -> bool
    ensures { (result ≡ true) ↔ (MOST_FAULTS < length (faults_of named.now.names named.now.net.nodes)) }
{
    count_faults(named.net.nodes, &rails_of(named)) > MOST_FAULTS
}

// How many faults so many nodes have, of which these are power and ground.
fn count_faults(nodes: u32, rails: &Rails) -> usize
    ensures { result ≡ length (faults_but (is_either_node rails.now.power rails.now.ground) nodes) }
{
    let mut count = 0;
    for node in 0..nodes {
        if rails.has(node) {
            continue;
        }
        count += faults_at(node).len();
    }
    count
}

// A node stuck at 0, and stuck at 1.
fn faults_at(node: u32) -> [StuckFault; 2]
    ensures { result ≡ faults_of_node node }
{
    [
        StuckFault {
            node,
            value: Level::Zero,
        },
        StuckFault {
            node,
            value: Level::One,
        },
    ]
}

// The grades of all faults of the network.
fn grade_all(
    alloc: Global,
    named: &mut NamedNet,
    vectors: &Vectors,
    budget: u32,
) -> Result<Vec<Graded>, AllocError>
    requires fresh { IsFresh (network_of named.old.net) named.old.names }
    requires within { IsWithin named.old vectors.now }
    ensures graded { IfOk result (λ grades. AreGrades (network_of named.old.net) named.old.names budget vectors.now grades.items) }
    ensures network { network_of named.new.net ≡ network_of named.old.net }
    ensures names { named.new.names ≡ named.old.names }
{
    let rails = rails_of(named);
    let good = GoodRun::of(alloc, named, vectors, budget)?;
    let mut grades = Vec::new(alloc);
    for node in 0..named.net.nodes {
        if rails.has(node) {
            continue;
        }
        grade_node(alloc, named, vectors, budget, &good, node, &mut grades)?;
    }
    Ok(grades)
}

// Adds the grades of a node that is stuck at 0, and at 1.
fn grade_node(
    alloc: Global,
    named: &mut NamedNet,
    vectors: &Vectors,
    budget: u32,
    good: &GoodRun,
    node: u32,
    grades: &mut Vec<Graded>,
) -> Result<(), AllocError>
    requires fresh { IsFresh (network_of named.old.net) named.old.names }
    requires within { IsWithin named.old vectors.now }
    requires good { IsGoodRun (network_of named.old.net) named.old.names budget vectors.now good.now }
    requires node { node < named.old.net.nodes }
    ensures graded { OnOk result ((faults : List StuckFaultOf)
        → AllZip (IsGrade (network_of named.old.net) named.old.names budget vectors.now) faults grades.old.items
        → AllZip (IsGrade (network_of named.old.net) named.old.names budget vectors.now) (faults ++ faults_of_node node) grades.new.items) }
    ensures network { network_of named.new.net ≡ network_of named.old.net }
    ensures names { named.new.names ≡ named.old.names }
{
    let [low, high] = faults_at(node);
    grades.push(grade_fault(alloc, named, vectors, budget, good, low)?)?;
    grades.push(grade_fault(alloc, named, vectors, budget, good, high)?)?;
    Ok(())
}

// The grade of a fault.
fn grade_fault(
    alloc: Global,
    named: &mut NamedNet,
    vectors: &Vectors,
    budget: u32,
    good: &GoodRun,
    fault: StuckFault,
) -> Result<Graded, AllocError>
    requires fresh { IsFresh (network_of named.old.net) named.old.names }
    requires within { IsWithin named.old vectors.now }
    requires good { IsGoodRun (network_of named.old.net) named.old.names budget vectors.now good.now }
    requires node { fault.node < named.old.net.nodes }
    ensures graded { IfOk result (λ graded. IsGrade (network_of named.old.net) named.old.names budget vectors.now fault graded) }
    ensures network { network_of named.new.net ≡ network_of named.old.net }
    ensures names { named.new.names ≡ named.old.names }
{
    let line = detect(alloc, named, vectors, budget, good, fault)?;
    Ok(Graded {
        node: fault.node,
        value: fault.value,
        line,
    })
}
