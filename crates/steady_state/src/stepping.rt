//! One step of the vicinities of nodes.

ghost use Rattle.std.specs.Prelude.{◌≡◌, ◌<◌, ◌≤◌, ℕ, List, All, IfSome, length, slice_index};
ghost use Rattle.switch_net.specs.Arrays.{AreStrengthsFor};
ghost use Rattle.switch_net.specs.Path.{state_of};
ghost use Rattle.switch_net.specs.Steady.{IsStep, IsSteadyValue};
ghost use Rattle.switch_net.specs.Vicinity.{IsInVicinity, IsReached, IsStorage};
ghost use Rattle.steady_state.specs.Levels.{AreReadyFor, AreSteady, KeepsOthers};
ghost use Rattle.steady_state.specs.Levels.{IsLevelOf, IsWritten};
ghost use Rattle.steady_state.specs.steps.Gathering.{AreGatheredAt};
ghost use Rattle.switch_net.specs.Sets.{IsInside};
ghost use Rattle.steady_state.specs.Marked.{AreClosed, AreMarked, AreReached, IsNear, IsQuiet, States};
ghost use Rattle.steady_state.specs.steps.Parts.{IsInPart, IsPartOf};
ghost use Rattle.steady_state.specs.steps.Wired.{network_in};

use crate::changes::{mark_beside, mark_changed};
use crate::exploring::explore;
use crate::finding::{find_definite, find_from_other};
use crate::marking::{mark_all, mark_seeds, marked_behind};
use crate::part::Part;
use crate::wiring::Wiring;
use switch_net::{Level, NodeSet, Strengths};

/// The level of a node, by the strengths of the strongest unblocked paths from roots other than one
/// and other than zero.
#[inline(always)]
fn level_of(other_than_one: u8, other_than_zero: u8) -> Level
    ensures { IsLevelOf other_than_one other_than_zero result }
{
    if other_than_one == 0 {
        Level::One
    } else if other_than_zero == 0 {
        Level::Zero
    } else {
        Level::X
    }
}

/// Writes the levels of the nodes that are listed.
#[inline(always)]
fn write_levels(order: &[u32], one: &[u8], zero: &[u8], next: &mut [Level])
    requires order { All (λ v. v < length next.old) order.now }
    requires one { length one.now ≡ length next.old }
    requires zero { length zero.now ≡ length next.old }
    ensures { IsWritten one.now zero.now order.now (length order.now) next.old next.new }
{
    for node in order {
        let at = *node as usize;
        next[at] = level_of(one[at], zero[at]);
    }
}

/// Finds the levels of the nodes of a part, where the arrays hold what paths begin with at these.
fn step_over(
    net: &Wiring<'_>,
    part: &Part<'_>,
    definite: &mut [u8],
    one: &mut [u8],
    zero: &mut [u8],
    waiting: &mut NodeSet,
    next: &mut [Level],
)
    requires part { IsPartOf (network_in net.now) part.now }
    requires definite { length definite.old ≡ net.now.nodes }
    requires one { length one.old ≡ net.now.nodes }
    requires zero { length zero.old ≡ net.now.nodes }
    requires gathered { (v : ℕ) → IsInPart part.now v
        → AreGatheredAt (network_in net.now) part.now.state.now v definite.old one.old zero.old }
    requires next { length next.old ≡ net.now.nodes }
    requires fits { length waiting.old.inside ≡ net.now.nodes }
    requires idle { waiting.old.count ≡ 0 }
    ensures steady { (v : ℕ) → IsInPart part.now v
        → IsSteadyValue (network_in net.now) part.now.state.now v (state_of next.new v) }
    ensures kept { (v : ℕ) → ¬ (IsInPart part.now v) → state_of next.new v ≡ state_of next.old v }
    ensures fits { length waiting.new.inside ≡ net.now.nodes }
    ensures idle { waiting.new.count ≡ 0 }
{
    find_definite(net, part, definite, waiting);
    find_from_other(net, part, Level::One, definite, one, waiting);
    find_from_other(net, part, Level::Zero, definite, zero, waiting);
    write_levels(part.order, one, zero, next);
}

/// Finds the levels of the nodes in the vicinity of a seed that is not marked yet, and marks them.
fn step_vicinity(
    net: &Wiring<'_>,
    state: &[Level],
    seed: u32,
    marks: &mut NodeSet,
    strengths: &mut Strengths,
    next: &mut [Level],
)
    requires state { length state.now ≡ net.now.nodes }
    requires seed { seed < net.now.nodes }
    requires marks { AreMarked (network_in net.now) marks.old }
    requires closed { AreClosed (network_in net.now) state.now marks.old.inside }
    requires strengths { AreReadyFor net.now.nodes strengths.old }
    requires next { length next.old ≡ net.now.nodes }
    ensures marks { AreMarked (network_in net.now) marks.new }
    ensures grown { (v : ℕ) → IsInside marks.old.inside v → IsInside marks.new.inside v }
    ensures reached { (seeds : List ℕ)
        → AreReached (network_in net.now) state.now seeds marks.old.inside
        → IsReached (network_in net.now) state.now seeds seed
        → AreReached (network_in net.now) state.now seeds marks.new.inside }
    ensures marked { IsStorage (network_in net.now) seed → IsInside marks.new.inside seed }
    ensures closed { AreClosed (network_in net.now) state.now marks.new.inside }
    ensures steady { (v : ℕ) → IsInside marks.new.inside v → ¬ (IsInside marks.old.inside v)
        → IsSteadyValue (network_in net.now) state.now v (state_of next.new v) }
    ensures kept { (v : ℕ) → (IsInside marks.new.inside v → IsInside marks.old.inside v)
        → state_of next.new v ≡ state_of next.old v }
    ensures strengths { AreReadyFor net.now.nodes strengths.new }
{
    let before = marks.count;
    let definite = strengths.definite.items_mut();
    let one = strengths.other_than_one.items_mut();
    let zero = strengths.other_than_zero.items_mut();
    explore(net, state, seed, marks, definite, one, zero);
    let part = Part {
        state,
        order: marked_behind(marks, before),
    };
    let waiting = &mut strengths.waiting;
    step_over(net, &part, definite, one, zero, waiting, next);
}

/// Copies a list of nodes.
fn copy_nodes(nodes: &[u32], list: &mut [u32])
    requires { length nodes.now ≤ length list.old }
    ensures { (i : ℕ) → i < length nodes.now → slice_index list.new i ≡ slice_index nodes.now i }
{
    'nodes: for place in 0..nodes.len() {
        list[place] = nodes[place];
    }
}

/// Finds the levels of the nodes in the vicinities of the marked nodes, and marks all these. The seeds
/// are worked with. Each vicinity is done with before the next is looked at, so that what is read of it
/// is at hand.
fn step_vicinities(
    net: &Wiring<'_>,
    state: &[Level],
    marks: &mut NodeSet,
    seeds: &mut [u32],
    strengths: &mut Strengths,
    next: &mut [Level],
)
    requires state { length state.now ≡ net.now.nodes }
    requires marks { AreMarked (network_in net.now) marks.old }
    requires seeds { length seeds.old ≡ net.now.nodes }
    requires strengths { AreReadyFor net.now.nodes strengths.old }
    requires next { length next.old ≡ net.now.nodes }
    ensures marks { AreMarked (network_in net.now) marks.new }
    ensures grown { (v : ℕ) → IsInside marks.old.inside v → IsInside marks.new.inside v }
    ensures reached { (roots : List ℕ)
        → AreReached (network_in net.now) state.now roots marks.old.inside
        → AreReached (network_in net.now) state.now roots marks.new.inside }
    ensures closed { AreClosed (network_in net.now) state.now marks.new.inside }
    ensures steady { AreSteady (network_in net.now) state.now marks.new.inside next.new }
    ensures kept { KeepsOthers marks.new.inside next.old next.new }
    ensures strengths { AreReadyFor net.now.nodes strengths.new }
{
    let count = marks.count;
    copy_nodes(marks.nodes(), seeds);
    marks.clear();
    'seeds: for place in 0..count {
        let seed = seeds[place];
        if !marks.has(seed) {
            step_vicinity(net, state, seed, marks, strengths, next);
        }
    }
}

/// A step of the vicinities of the marked nodes, in which all others keep their states. It is a step
/// of the network where those are quiet.
pub(crate) fn step_marked(
    net: &Wiring<'_>,
    state: &[Level],
    marks: &mut NodeSet,
    seeds: &mut [u32],
    strengths: &mut Strengths,
    next: &mut [Level],
)
    requires state { length state.now ≡ net.now.nodes }
    requires same { next.old ≡ state.now }
    requires marks { AreMarked (network_in net.now) marks.old }
    requires seeds { length seeds.old ≡ net.now.nodes }
    requires strengths { AreReadyFor net.now.nodes strengths.old }
    ensures step { IsQuiet (network_in net.now) state.now marks.old.inside
        → IsStep (network_in net.now) state.now next.new }
    ensures marks { AreMarked (network_in net.now) marks.new }
    ensures joined { (m v : ℕ) → IsInside marks.old.inside m
        → IsInVicinity (network_in net.now) state.now m v → IsInside marks.new.inside v }
    ensures steady { AreSteady (network_in net.now) state.now marks.new.inside next.new }
    ensures kept { KeepsOthers marks.new.inside state.now next.new }
    ensures strengths { AreReadyFor net.now.nodes strengths.new }
{
    step_vicinities(net, state, marks, seeds, strengths, next);
}

/// Marks every node that stores charge, and no other, whatever was marked before.
pub(crate) fn mark_afresh(net: &Wiring<'_>, marks: &mut NodeSet)
    requires { length marks.old.inside ≡ net.now.nodes }
    ensures marks { AreMarked (network_in net.now) marks.new }
    ensures quiet { (s : States) → IsQuiet (network_in net.now) s marks.new.inside }
{
    marks.clear();
    mark_all(net, marks);
}

/// A step of the whole network, whatever the arrays hold.
pub(crate) fn step_all(
    net: &Wiring<'_>,
    state: &[Level],
    marks: &mut NodeSet,
    seeds: &mut [u32],
    strengths: &mut Strengths,
    next: &mut [Level],
)
    requires state { length state.now ≡ net.now.nodes }
    requires same { next.old ≡ state.now }
    requires marks { length marks.old.inside ≡ net.now.nodes }
    requires seeds { length seeds.old ≡ net.now.nodes }
    requires strengths { AreStrengthsFor net.now.nodes strengths.old }
    ensures { IsStep (network_in net.now) state.now next.new }
{
    strengths.waiting.clear();
    mark_afresh(net, marks);
    step_marked(net, state, marks, seeds, strengths, next);
}

/// A step of the vicinities of these nodes, whatever the arrays hold.
pub(crate) fn step_seeds(
    net: &Wiring<'_>,
    state: &[Level],
    nodes: &[u32],
    marks: &mut NodeSet,
    seeds: &mut [u32],
    strengths: &mut Strengths,
    next: &mut [Level],
)
    requires state { length state.now ≡ net.now.nodes }
    requires nodes { All (λ v. v < net.now.nodes) nodes.now }
    requires marks { length marks.old.inside ≡ net.now.nodes }
    requires seeds { length seeds.old ≡ net.now.nodes }
    requires strengths { AreStrengthsFor net.now.nodes strengths.old }
    requires next { length next.old ≡ net.now.nodes }
    ensures marks { length marks.new.inside ≡ net.now.nodes }
    ensures strengths { AreStrengthsFor net.now.nodes strengths.new }
    ensures steady { (v : ℕ) → IsReached (network_in net.now) state.now nodes.now v
        → IsSteadyValue (network_in net.now) state.now v (state_of next.new v) }
    ensures kept { (v : ℕ) → ¬ (IsReached (network_in net.now) state.now nodes.now v)
        → state_of next.new v ≡ state_of next.old v }
{
    strengths.waiting.clear();
    marks.clear();
    mark_seeds(net, nodes, marks);
    step_vicinities(net, state, marks, seeds, strengths, next);
}

/// A step of what is near these nodes and the held one, whatever the arrays hold.
pub(crate) fn step_near_nodes(
    net: &Wiring<'_>,
    state: &[Level],
    nodes: &[u32],
    held: Option<u32>,
    marks: &mut NodeSet,
    seeds: &mut [u32],
    strengths: &mut Strengths,
    next: &mut [Level],
)
    requires state { length state.now ≡ net.now.nodes }
    requires nodes { All (λ v. v < net.now.nodes) nodes.now }
    requires held { IfSome held (λ v. v < net.now.nodes) }
    requires marks { length marks.old.inside ≡ net.now.nodes }
    requires seeds { length seeds.old ≡ net.now.nodes }
    requires strengths { AreStrengthsFor net.now.nodes strengths.old }
    requires next { length next.old ≡ net.now.nodes }
    ensures marks { length marks.new.inside ≡ net.now.nodes }
    ensures near { IsNear (network_in net.now) state.now nodes.now held marks.new.inside }
    ensures strengths { AreStrengthsFor net.now.nodes strengths.new }
    ensures steady { AreSteady (network_in net.now) state.now marks.new.inside next.new }
    ensures kept { KeepsOthers marks.new.inside next.old next.new }
{
    strengths.waiting.clear();
    marks.clear();
    mark_changed(net, nodes, marks);
    mark_beside(net, held, marks);
    step_vicinities(net, state, marks, seeds, strengths, next);
}
