//! Strengths spread from node to node, until no switch brings more.

ghost use Rattle.std.specs.Prelude.{◌≡◌, ◌<◌, ◌≤◌, ◌↔◌, ℕ, [], ◌∷◌, IfSome, IsTrue, length, slice_index};
ghost use Rattle.switch_net.specs.Terminals.{near_end};
ghost use Rattle.steady_state.specs.steps.Wired.{network_in, IsSwitchOf};
ghost use Rattle.steady_state.specs.steps.Parts.{IsPassOver, floors_in};
ghost use Rattle.steady_state.specs.steps.Passing.{IsOver, IsSpreading, BringsNoMore, BringsNoMoreFrom};
ghost use Rattle.steady_state.specs.steps.Spreading.{IsLift, IsRaised};

use crate::adjacent::switches_at;
use crate::kinds::{passes, strength_of};
use crate::part::Pass;
use crate::wiring::Wiring;
use switch_net::{NodeSet, Side, Switch, Terminal};

/// Whether a strength is no less than the floor of a node.
#[inline(always)]
fn is_high(floor: Option<&[u8]>, node: u32, strength: u8) -> bool
    requires { IfSome floor (λ floors. node < length floors.now) }
    ensures { IsTrue result ↔ (slice_index (floors_in floor.entry) node ≤ strength) }
{
    match floor {
        None => true,
        Some(floors) => floors[node as usize] <= strength,
    }
}

/// Raises the entry of `to` to what a switch of this strength brings from `from`, where that is
/// more and no less than the floor. Says whether it rose.
#[inline(always)]
fn lift(from: u32, to: u32, strength: u8, floor: Option<&[u8]>, best: &mut [u8]) -> bool
    requires from { from < length best.old }
    requires to { to < length best.old }
    requires floor { IfSome floor (λ floors. to < length floors.now) }
    ensures { IsLift (floors_in floor.entry) best.old best.new from to strength result }
{
    let brought = best[from as usize].min(strength);
    if best[to as usize] < brought && is_high(floor, to, brought) {
        best[to as usize] = brought;
        true
    } else {
        false
    }
}

/// Lifts the node at the far end of a switch. It waits then, if it rose.
#[inline(always)]
fn relax(
    net: &Wiring<'_>,
    pass: &Pass<'_>,
    side: Side,
    switch: &Switch,
    best: &mut [u8],
    waiting: &mut NodeSet,
)
    requires pass { IsPassOver (network_in net.now) pass.now }
    requires switch { IsSwitchOf (network_in net.now) switch.now }
    requires best { length best.old ≡ net.now.nodes }
    requires fits { length waiting.old.inside ≡ net.now.nodes }
    requires near { IsOver pass.now (near_end side switch.now) }
    ensures fits { length waiting.new.inside ≡ net.now.nodes }
    ensures working { IsSpreading (network_in net.now) pass.now best.old waiting.old.inside
        (near_end side switch.now ∷ [])
        → IsSpreading (network_in net.now) pass.now best.new waiting.new.inside
        (near_end side switch.now ∷ []) }
    ensures relaxed { BringsNoMore pass.now best.new side switch.now }
    ensures raised { IsRaised best.old best.new waiting.old.count waiting.new.count }
    ensures same { slice_index best.new (near_end side switch.now)
        ≡ slice_index best.old (near_end side switch.now) }
{
    let to = switch.far(side);
    if passes(pass.kind, pass.part.state, switch)
        && !net.inputs[to as usize]
        && lift(
            switch.near(side),
            to,
            strength_of(switch.kind),
            pass.floor,
            best,
        )
    {
        waiting.add(to);
    }
}

/// Lifts the nodes at the far ends of the switches that a node has on this side. Those that rose
/// wait then.
#[inline(always)]
fn visit(
    net: &Wiring<'_>,
    pass: &Pass<'_>,
    side: Side,
    node: u32,
    best: &mut [u8],
    waiting: &mut NodeSet,
)
    requires pass { IsPassOver (network_in net.now) pass.now }
    requires best { length best.old ≡ net.now.nodes }
    requires fits { length waiting.old.inside ≡ net.now.nodes }
    requires node { IsOver pass.now node }
    requires working { IsSpreading (network_in net.now) pass.now best.old waiting.old.inside
        (node ∷ []) }
    ensures fits { length waiting.new.inside ≡ net.now.nodes }
    ensures working { IsSpreading (network_in net.now) pass.now best.new waiting.new.inside
        (node ∷ []) }
    ensures relaxed { BringsNoMoreFrom (network_in net.now) pass.now best.new side node }
    ensures raised { IsRaised best.old best.new waiting.old.count waiting.new.count }
    ensures same { slice_index best.new node ≡ slice_index best.old node }
{
    let places = switches_at(net, Terminal::End(side), node as usize);
    'switches: for place in places {
        let switch = net.switches[*place as usize];
        relax(net, pass, side, &switch, best, waiting);
    }
}

/// Takes the nodes that wait in turn, until none does.
pub(crate) fn drain(net: &Wiring<'_>, pass: &Pass<'_>, best: &mut [u8], waiting: &mut NodeSet)
    requires pass { IsPassOver (network_in net.now) pass.now }
    requires best { length best.old ≡ net.now.nodes }
    requires fits { length waiting.old.inside ≡ net.now.nodes }
    requires working { IsSpreading (network_in net.now) pass.now best.old waiting.old.inside [] }
    ensures fits { length waiting.new.inside ≡ net.now.nodes }
    ensures working { IsSpreading (network_in net.now) pass.now best.new waiting.new.inside [] }
    ensures idle { waiting.new.count ≡ 0 }
    ensures above { (v : ℕ) → slice_index best.old v ≤ slice_index best.new v }
{
    'nodes: while waiting.count > 0 {
        let node = waiting.take_last();
        visit(net, pass, Side::Left, node, best, waiting);
        visit(net, pass, Side::Right, node, best, waiting);
    }
}
