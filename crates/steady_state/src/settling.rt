//! Steps and phases of a network.

ghost use Rattle.std.specs.Prelude.{◌≡◌, ◌<◌, ◌≤◌, ℕ, All, IfOk, IfSome, count_by, false, length, not};
ghost use Rattle.switch_net.specs.Arrays.{AreStrengthsFor};
ghost use Rattle.switch_net.specs.Net.{network_of};
ghost use Rattle.switch_net.specs.Path.{state_of};
ghost use Rattle.switch_net.specs.Steady.{IsStep, IsSteadyValue};
ghost use Rattle.switch_net.specs.Phase.{AreSteadyOrX, HasRounds, IsPhase};
ghost use Rattle.switch_net.specs.Vicinity.{IsReached};
ghost use Rattle.steady_state.specs.steps.Rounds.{DoStepsEnd};
ghost use Rattle.steady_state.specs.Levels.{AreReadyFor, AreSteady, KeepsOthers};
ghost use Rattle.steady_state.specs.Marked.{AreMarked, IsNear, IsQuiet, IsRestedBut, States};
ghost use Rattle.steady_state.specs.steps.Wired.{network_in};

use crate::changes::{changes, commit, mark_all_touched, mark_changed};
use crate::forcing::force_all;
use crate::stepping::{mark_afresh, step_all, step_marked, step_near_nodes, step_seeds};
use crate::wiring::Wiring;
use std::alloc::{AllocError, Global};
use switch_net::{Level, Net, NodeSet, Strengths};

/// How a phase ended: after how many steps, whether it had settled then, and how many rounds forced
/// nodes to X where it had not.
#[derive(Clone, Copy, Debug, PartialEq, Eq)]
pub struct Settled {
    pub steps: u32,
    pub done: bool,
    pub forced: u32,
}

/// The states after one step: each node that stores charge has its steady value, and the inputs are
/// as they were. It takes one state for each node.
pub fn step(alloc: Global, net: &Net, state: &[Level]) -> Result<Vec<Level>, AllocError>
    requires { length state.now ≡ net.now.nodes }
    ensures { IfOk result (λ next. IsStep (network_of net.now) state.now next.items) }
{
    let mut marks = NodeSet::build(alloc, state.len())?;
    let mut strengths = Strengths::build(alloc, state.len())?;
    let mut seeds = vec![in alloc; 0; state.len()]?;
    let mut next = Vec::from_slice(alloc, state)?;
    let wiring = Wiring {
        nodes: net.nodes,
        switches: net.switches.items(),
        sizes: net.sizes.items(),
        inputs: net.inputs.items(),
        adjacency: &net.work.adjacency,
    };
    step_all(
        &wiring,
        state,
        &mut marks,
        &mut seeds,
        &mut strengths,
        &mut next,
    );
    Ok(next)
}

/// Takes steps until a step changes nothing, at most as many as the budget. The states are then
/// those that it settled in. If it has not settled, rounds follow those steps until there is nothing
/// left to take: each takes the nodes that are not forced yet and that a step would change, makes
/// them X and forces them to stay X to the end of the phase. Then each node that stores charge is
/// steady, or X. It takes one state for each node, and no memory.
pub fn settle(net: &mut Net, state: &mut [Level], budget: u32) -> Settled
    requires { length state.old ≡ net.old.nodes }
    ensures phase { IsPhase (network_of net.old) budget state.old
        result.done result.steps state.new }
    ensures rounds { HasRounds (network_of net.old) budget state.old
        result.done result.forced state.new }
    ensures few { result.forced ≤ count_by not net.old.inputs }
    ensures steady { result.done ≡ false → AreSteadyOrX (network_of net.old) state.new }
    ensures net { network_of net.new ≡ network_of net.old }
{
    settle_from(net, state, None, budget)
}

/// Settles as `settle` does. Where some nodes are told, the network rests but for them: a step
/// changes nothing that switches at which they stand do not lead to. The phase then costs what its
/// changes cost, beside the copy of a byte for each node.
pub fn settle_from(
    net: &mut Net,
    state: &mut [Level],
    touched: Option<&[u32]>,
    budget: u32,
) -> Settled
    requires state { length state.old ≡ net.old.nodes }
    requires within { IfSome touched (λ nodes. All (λ v. v < net.old.nodes) nodes.now) }
    requires rested { IfSome touched (λ nodes. IsRestedBut (network_of net.old) state.old nodes.now) }
    ensures phase { IsPhase (network_of net.old) budget state.old
        result.done result.steps state.new }
    ensures rounds { HasRounds (network_of net.old) budget state.old
        result.done result.forced state.new }
    ensures few { result.forced ≤ count_by not net.old.inputs }
    ensures steady { result.done ≡ false → AreSteadyOrX (network_of net.old) state.new }
    ensures net { network_of net.new ≡ network_of net.old }
{
    let wiring = Wiring {
        nodes: net.nodes,
        switches: net.switches.items(),
        sizes: net.sizes.items(),
        inputs: net.inputs.items(),
        adjacency: &net.work.adjacency,
    };
    let marks = &mut net.work.marks;
    let strengths = &mut net.work.strengths;
    let next = net.work.next.items_mut();
    let changed = net.work.changed.items_mut();
    mark_first(&wiring, touched, marks);
    match take_steps(&wiring, state, budget, marks, strengths, next, changed) {
        Some(steps) => Settled {
            steps,
            done: true,
            forced: 0,
        },
        None => Settled {
            steps: budget,
            done: false,
            forced: force_all(
                &wiring,
                state,
                &mut net.work.forced,
                marks,
                strengths,
                next,
                changed,
            ),
        },
    }
}

/// Gives each node in the vicinity of a seed, by the old states, its steady value for these in the
/// new states, and leaves every other new state. It takes one state for each node in both, and no
/// memory.
pub fn step_within(net: &mut Net, old: &[Level], new: &mut [Level], seeds: &[u32])
    requires old { length old.now ≡ net.old.nodes }
    requires new { length new.old ≡ net.old.nodes }
    requires seeds { All (λ v. v < net.old.nodes) seeds.now }
    ensures steady { (v : ℕ) → IsReached (network_of net.old) old.now seeds.now v
        → IsSteadyValue (network_of net.old) old.now v (state_of new.new v) }
    ensures kept { (v : ℕ) → ¬ (IsReached (network_of net.old) old.now seeds.now v)
        → state_of new.new v ≡ state_of new.old v }
    ensures net { network_of net.new ≡ network_of net.old }
{
    let wiring = Wiring {
        nodes: net.nodes,
        switches: net.switches.items(),
        sizes: net.sizes.items(),
        inputs: net.inputs.items(),
        adjacency: &net.work.adjacency,
    };
    step_seeds(
        &wiring,
        old,
        seeds,
        &mut net.work.marks,
        net.work.changed.items_mut(),
        &mut net.work.strengths,
        new,
    );
}

/// Marks the vicinities, by the old states, of these nodes, of the ends of the switches that they gate, and of the ends of the switches
/// that have the held node at an end, if there is one; and gives each marked node its steady value for the old states in the new ones, and
/// leaves every other new state. It takes one state for each node in both, and no memory.
pub fn step_near(net: &mut Net, old: &[Level], new: &mut [Level], nodes: &[u32], held: Option<u32>)
    requires old { length old.now ≡ net.old.nodes }
    requires new { length new.old ≡ net.old.nodes }
    requires nodes { All (λ v. v < net.old.nodes) nodes.now }
    requires held { IfSome held (λ v. v < net.old.nodes) }
    ensures near { IsNear (network_of net.old) old.now nodes.now held net.new.work.marks.inside }
    ensures steady { AreSteady (network_of net.old) old.now net.new.work.marks.inside new.new }
    ensures kept { KeepsOthers net.new.work.marks.inside new.old new.new }
    ensures net { network_of net.new ≡ network_of net.old }
{
    let wiring = Wiring {
        nodes: net.nodes,
        switches: net.switches.items(),
        sizes: net.sizes.items(),
        inputs: net.inputs.items(),
        adjacency: &net.work.adjacency,
    };
    step_near_nodes(
        &wiring,
        old,
        nodes,
        held,
        &mut net.work.marks,
        net.work.changed.items_mut(),
        &mut net.work.strengths,
        new,
    );
}

/// Marks what may change in the first step: every node, or what these lead to.
fn mark_first(net: &Wiring<'_>, touched: Option<&[u32]>, marks: &mut NodeSet)
    requires fits { length marks.old.inside ≡ net.now.nodes }
    requires within { IfSome touched (λ nodes. All (λ v. v < net.now.nodes) nodes.now) }
    ensures marks { AreMarked (network_in net.now) marks.new }
    ensures quiet { (s : States) → IfSome touched.entry (λ nodes. IsRestedBut (network_in net.now) s nodes.now)
        → IsQuiet (network_in net.now) s marks.new.inside }
{
    match touched {
        None => mark_afresh(net, marks),
        Some(nodes) => {
            marks.clear();
            mark_all_touched(net, nodes, marks);
        }
    }
}

/// Takes steps until a step changes nothing, at most as many as the budget, whatever the other
/// arrays hold. Each step works on the vicinities alone in which something may change. Says after how
/// many steps the network has settled, if it has. If not, one step more is worked out, and not made.
fn take_steps(
    net: &Wiring<'_>,
    state: &mut [Level],
    budget: u32,
    marks: &mut NodeSet,
    strengths: &mut Strengths,
    next: &mut [Level],
    changed: &mut [u32],
) -> Option<u32>
    requires state { length state.old ≡ net.now.nodes }
    requires marks { AreMarked (network_in net.now) marks.old }
    requires quiet { IsQuiet (network_in net.now) state.old marks.old.inside }
    requires strengths { AreStrengthsFor net.now.nodes strengths.old }
    requires next { length next.old ≡ net.now.nodes }
    requires changed { length changed.old ≡ net.now.nodes }
    ensures ends { DoStepsEnd (network_in net.now) budget state.old
        result state.new next.new marks.new.inside }
    ensures marks { AreMarked (network_in net.now) marks.new }
    ensures strengths { AreReadyFor net.now.nodes strengths.new }
{
    strengths.waiting.clear();
    next.copy_from_slice(state);
    let mut steps = 0;
    'steps: loop {
        step_marked(net, state, marks, changed, strengths, next);
        let moved = changes(marks.nodes(), state, next, changed);
        if moved == 0 {
            return Some(steps);
        }
        if steps == budget {
            return None;
        }
        commit(&changed[..moved], next, state);
        marks.clear();
        mark_changed(net, &changed[..moved], marks);
        steps += 1;
    }
}
