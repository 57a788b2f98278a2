//! Runs the vectors of a stack.
ghost use Rattle.std.specs.Prelude.{◌≡◌, ◌∷◌, [], ℕ, Bool, true, false, None, IfOk, IfSome};
ghost use Rattle.std.specs.List.{count_by};
ghost use Rattle.switch_net.specs.Net.{network_of};
ghost use Rattle.vector_runs.specs.Runs.{IsFresh, phase_reply};
ghost use Rattle.stack_runs.specs.Outcomes.{IsOutcome, is_one, is_zero};

use crate::inputs::stack_vectors;
use std::alloc::{AllocError, Global};
use switch_net::{Level, NamedNet};
use vector_files::NodeNames;
use vector_runs::{VecReply, run_to_end};

/// What comes of the vectors of a stack: whether their phase settled, how many steps it took, and how many nodes it leaves at zero and at
/// one.
#[derive(Clone, Copy, Debug, PartialEq, Eq)]
pub struct Outcome {
    pub settled: bool,
    pub steps: u32,
    pub zeros: usize,
    pub ones: usize,
}

/// Sets each row of the stack to one and then each column to zero, of those that the network has, and runs one phase. The network is left
/// with the inputs and sizes that it had. It takes time linear in the names of the network on an average, beside that of the phase.
pub fn run_stack(
    alloc: Global,
    named: &mut NamedNet,
    n: u32,
    budget: u32,
) -> Result<Outcome, AllocError>
    requires { IsFresh (network_of named.old.net) named.old.names }
    ensures outcome { IfOk result (IsOutcome (network_of named.old.net) named.old.names budget n) }
    ensures network { network_of named.new.net ≡ network_of named.old.net }
    ensures names { named.new.names ≡ named.old.names }
{
    let names = NodeNames::of(alloc, named.names.items())?;
    let vectors = stack_vectors(alloc, &names, n)?;
    let mut replies = Vec::new(alloc);
    let states = run_to_end(alloc, named, &vectors, budget, &mut replies)?;
    Ok(outcome_of(&replies, &states, budget))
}

// What these replies and states tell of the run of one phase.
fn outcome_of(replies: &[VecReply], states: &[Level], budget: u32) -> Outcome
    ensures reply { (done : Bool) (steps : ℕ) → replies.now ≡ phase_reply 1 done steps ∷ []
        → replies.now ≡ phase_reply 1 result.settled result.steps ∷ [] }
    ensures unsettled { result.settled ≡ false → result.steps ≡ budget }
    ensures zeros { result.zeros ≡ count_by is_zero states.now }
    ensures ones { result.ones ≡ count_by is_one states.now }
{
    let zeros = count_zeros(states);
    let ones = count_ones(states);
    match settled_after(replies) {
        Some(steps) => Outcome {
            settled: true,
            steps,
            zeros,
            ones,
        },
        None => Outcome {
            settled: false,
            steps: budget,
            zeros,
            ones,
        },
    }
}

// How many steps the one phase took, where it settled.
fn settled_after(replies: &[VecReply]) -> Option<u32>
    ensures settled { IfSome result (λ steps. (done : Bool) (taken : ℕ) → replies.now ≡ phase_reply 1 done taken ∷ []
        → replies.now ≡ phase_reply 1 true steps ∷ []) }
    ensures unsettled { result ≡ None → (done : Bool) (steps : ℕ) → replies.now ≡ phase_reply 1 done steps ∷ []
        → replies.now ≡ phase_reply 1 false steps ∷ [] }
{
    match replies {
        [VecReply::Settled(_, steps)] => Some(*steps),
        _ => None,
    }
}

// How many nodes are at zero.
fn count_zeros(states: &[Level]) -> usize
    ensures { result ≡ count_by is_zero states.now }
{
    states.iter().filter(|level| is_zero(**level)).count()
}

// How many nodes are at one.
fn count_ones(states: &[Level]) -> usize
    ensures { result ≡ count_by is_one states.now }
{
    states.iter().filter(|level| is_one(**level)).count()
}

fn is_zero(level: Level) -> bool
    ensures { result ≡ is_zero level }
{
    match level {
        Level::Zero => true,
        Level::One | Level::X => false,
    }
}

fn is_one(level: Level) -> bool
    ensures { result ≡ is_one level }
{
    match level {
        Level::One => true,
        Level::Zero | Level::X => false,
    }
}
