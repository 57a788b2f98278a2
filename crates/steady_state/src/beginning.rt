//! What paths begin with at a node: its own strength, or what an input brings through a switch.

ghost use Rattle.std.specs.Prelude.{◌≡◌, ◌<◌, ◌≤◌, ℕ, List, [], length, true};
ghost use Rattle.switch_net.specs.Path.{is_input};
ghost use Rattle.switch_net.specs.Terminals.{near_end, far_end};
ghost use Rattle.switch_net.specs.Vicinity.{IsReached};
ghost use Rattle.steady_state.specs.steps.Gathering.{IsGathering, AreGathering, AreGathered, AreMore};
ghost use Rattle.steady_state.specs.steps.Gathering.{ArePulled, BringAtMost};
ghost use Rattle.steady_state.specs.Marked.{AddsMarks, AreMarked, AreReached, IsCovered, LeadsInside};
ghost use Rattle.steady_state.specs.steps.Spreading.{BringsAtMost};
ghost use Rattle.steady_state.specs.steps.Wired.{network_in, IsSwitchOf};

use crate::adjacent::{strength_at, switches_at};
use crate::kinds::{PathKind, begins_at, may_conduct, passes, strength_of};
use crate::marking::mark;
use crate::wiring::Wiring;
use switch_net::{Level, NodeSet, Side, Switch, Terminal};

/// The greatest strengths that paths begin with at a node, or 0: definite paths, paths from roots in
/// another state than one, and paths from roots in another state than zero.
#[derive(Clone, Copy)]
pub(crate) struct Begun {
    pub definite: u8,
    pub other_than_one: u8,
    pub other_than_zero: u8,
}

/// What paths of a kind from the node itself begin with.
#[inline(always)]
fn own_one(net: &Wiring<'_>, kind: PathKind, state: &[Level], node: usize) -> u8
    requires state { length state.now ≡ net.now.nodes }
    requires node { node < net.now.nodes }
    ensures { IsGathering (network_in net.now) state.now kind node result }
{
    if begins_at(kind, state, node) {
        strength_at(net, node)
    } else {
        0
    }
}

/// What paths from the node itself begin with.
#[inline(always)]
fn own(net: &Wiring<'_>, state: &[Level], node: usize) -> Begun
    requires state { length state.now ≡ net.now.nodes }
    requires node { node < net.now.nodes }
    ensures { AreGathering (network_in net.now) state.now node result }
{
    Begun {
        definite: own_one(net, PathKind::Definite, state, node),
        other_than_one: own_one(net, PathKind::FromOther(Level::One), state, node),
        other_than_zero: own_one(net, PathKind::FromOther(Level::Zero), state, node),
    }
}

/// What paths of a kind begin with at the near end of a switch with an input at its far end, where
/// this is the greatest so far.
#[inline(always)]
fn bring_one(
    net: &Wiring<'_>,
    kind: PathKind,
    state: &[Level],
    side: Side,
    switch: &Switch,
    so_far: u8,
) -> u8
    requires state { length state.now ≡ net.now.nodes }
    requires switch { IsSwitchOf (network_in net.now) switch.now }
    requires input { is_input (network_in net.now) (far_end side switch.now) ≡ true }
    requires gathering { IsGathering (network_in net.now) state.now kind (near_end side switch.now) so_far }
    ensures gathering { IsGathering (network_in net.now) state.now kind (near_end side switch.now) result }
    ensures more { so_far ≤ result }
    ensures brings { BringsAtMost (network_in net.now) state.now kind [] side result switch.now }
{
    let strength = strength_of(switch.kind);
    if so_far < strength
        && begins_at(kind, state, switch.far(side) as usize)
        && passes(kind, state, switch)
    {
        strength
    } else {
        so_far
    }
}

/// The same for each kind.
#[inline(always)]
fn bring(net: &Wiring<'_>, state: &[Level], side: Side, switch: &Switch, begun: Begun) -> Begun
    requires state { length state.now ≡ net.now.nodes }
    requires switch { IsSwitchOf (network_in net.now) switch.now }
    requires input { is_input (network_in net.now) (far_end side switch.now) ≡ true }
    requires gathering { AreGathering (network_in net.now) state.now (near_end side switch.now) begun }
    ensures gathering { AreGathering (network_in net.now) state.now (near_end side switch.now) result }
    ensures more { AreMore begun result }
    ensures bring { BringAtMost (network_in net.now) state.now side switch.now result }
{
    let not_one = PathKind::FromOther(Level::One);
    let not_zero = PathKind::FromOther(Level::Zero);
    Begun {
        definite: bring_one(net, PathKind::Definite, state, side, switch, begun.definite),
        other_than_one: bring_one(net, not_one, state, side, switch, begun.other_than_one),
        other_than_zero: bring_one(net, not_zero, state, side, switch, begun.other_than_zero),
    }
}

/// Looks at a switch from its near end: where it may conduct, an input at its far end brings
/// something, and another node there is marked.
#[inline(always)]
fn look(
    net: &Wiring<'_>,
    state: &[Level],
    side: Side,
    switch: &Switch,
    begun: Begun,
    marks: &mut NodeSet,
) -> Begun
    requires state { length state.now ≡ net.now.nodes }
    requires switch { IsSwitchOf (network_in net.now) switch.now }
    requires gathering { AreGathering (network_in net.now) state.now (near_end side switch.now) begun }
    requires marks { AreMarked (network_in net.now) marks.old }
    ensures gathering { AreGathering (network_in net.now) state.now (near_end side switch.now) result }
    ensures more { AreMore begun result }
    ensures bring { BringAtMost (network_in net.now) state.now side switch.now result }
    ensures marks { AreMarked (network_in net.now) marks.new }
    ensures adds { AddsMarks marks.old marks.new }
    ensures reached { (seeds : List ℕ)
        → AreReached (network_in net.now) state.now seeds marks.old.inside
        → IsReached (network_in net.now) state.now seeds (near_end side switch.now)
        → AreReached (network_in net.now) state.now seeds marks.new.inside }
    ensures marked { LeadsInside (network_in net.now) state.now side marks.new.inside switch.now }
{
    if !may_conduct(state, switch) {
        return begun;
    }
    let far = switch.far(side);
    if net.inputs[far as usize] {
        return bring(net, state, side, switch, begun);
    }
    mark(net, far, marks);
    begun
}

/// Looks at the switches that a node has on this side.
#[inline(always)]
fn look_all(
    net: &Wiring<'_>,
    state: &[Level],
    side: Side,
    node: u32,
    before: Begun,
    marks: &mut NodeSet,
) -> Begun
    requires state { length state.now ≡ net.now.nodes }
    requires node { node < net.now.nodes }
    requires gathering { AreGathering (network_in net.now) state.now node before }
    requires marks { AreMarked (network_in net.now) marks.old }
    ensures gathering { AreGathering (network_in net.now) state.now node result }
    ensures more { AreMore before result }
    ensures pulled { ArePulled (network_in net.now) state.now side node result }
    ensures marks { AreMarked (network_in net.now) marks.new }
    ensures adds { AddsMarks marks.old marks.new }
    ensures reached { (seeds : List ℕ)
        → AreReached (network_in net.now) state.now seeds marks.old.inside
        → IsReached (network_in net.now) state.now seeds node
        → AreReached (network_in net.now) state.now seeds marks.new.inside }
    ensures covered { IsCovered (network_in net.now) state.now side marks.new.inside node }
{
    let mut begun = before;
    let places = switches_at(net, Terminal::End(side), node as usize);
    'switches: for place in places {
        let switch = net.switches[*place as usize];
        begun = look(net, state, side, &switch, begun, marks);
    }
    begun
}

/// What paths begin with at a node. Marks the nodes to which closed or unknown switches lead from it.
#[inline(always)]
pub(crate) fn gather(net: &Wiring<'_>, state: &[Level], node: u32, marks: &mut NodeSet) -> Begun
    requires state { length state.now ≡ net.now.nodes }
    requires node { node < net.now.nodes }
    requires marks { AreMarked (network_in net.now) marks.old }
    ensures gathered { AreGathered (network_in net.now) state.now node result }
    ensures marks { AreMarked (network_in net.now) marks.new }
    ensures adds { AddsMarks marks.old marks.new }
    ensures reached { (seeds : List ℕ)
        → AreReached (network_in net.now) state.now seeds marks.old.inside
        → IsReached (network_in net.now) state.now seeds node
        → AreReached (network_in net.now) state.now seeds marks.new.inside }
    ensures left { IsCovered (network_in net.now) state.now Side.Left marks.new.inside node }
    ensures right { IsCovered (network_in net.now) state.now Side.Right marks.new.inside node }
{
    let own = own(net, state, node as usize);
    let left = look_all(net, state, Side::Left, node, own, marks);
    look_all(net, state, Side::Right, node, left, marks)
}
