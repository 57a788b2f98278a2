//! What a step changed, and what may change in the next, or in the first step after inputs were set.

ghost use Rattle.std.specs.Prelude.{◌≡◌, ◌≢◌, ◌<◌, ◌≤◌, ℕ, All, IfSome, length, slice_index};
ghost use Rattle.switch_net.specs.Path.{state_of};
ghost use Rattle.switch_net.specs.Vicinity.{IsStorage};
ghost use Rattle.steady_state.specs.steps.Wired.{network_in, IsSwitchOf};
ghost use Rattle.switch_net.specs.Sets.{IsInside, IsAmong};
ghost use Rattle.steady_state.specs.Marked.{AreEndsMarked, AreMarked, AreMarkedAt, EndsInside, IsGated, IsTouched};

use crate::adjacent::switches_at;
use crate::marking::mark;
use crate::wiring::Wiring;
use switch_net::{Level, NodeSet, Side, Switch, Terminal};

/// Lists the nodes of the list whose states differ, and says how many those are.
pub(crate) fn changes(order: &[u32], state: &[Level], next: &[Level], changed: &mut [u32]) -> usize
    requires order { All (λ v. v < length state.now) order.now }
    requires next { length next.now ≡ length state.now }
    requires changed { length order.now ≤ length changed.old }
    ensures few { result ≤ length changed.new }
    ensures found { (i : ℕ) → i < length order.now
        → state_of state.now (slice_index order.now i) ≢ state_of next.now (slice_index order.now i)
        → IsAmong changed.new result (slice_index order.now i) }
    ensures below { (i : ℕ) → i < result → slice_index changed.new i < length state.now }
    ensures differ { (i : ℕ) → i < result
        → state_of state.now (slice_index changed.new i)
        ≢ state_of next.now (slice_index changed.new i) }
{
    let mut count = 0;
    for node in order {
        if state[*node as usize] != next[*node as usize] {
            changed[count] = *node;
            count += 1;
        }
    }
    count
}

/// Copies the states of the nodes that are listed, which are all that differ.
pub(crate) fn commit(changed: &[u32], next: &[Level], state: &mut [Level])
    requires changed { All (λ v. v < length state.old) changed.now }
    requires next { length next.now ≡ length state.old }
    requires found { (v : ℕ) → state_of state.old v ≢ state_of next.now v
        → IsAmong changed.now (length changed.now) v }
    ensures { state.new ≡ next.now }
{
    for node in changed {
        state[*node as usize] = next[*node as usize];
    }
}

/// Marks both ends of a switch.
fn mark_ends(net: &Wiring<'_>, switch: &Switch, marks: &mut NodeSet)
    requires switch { IsSwitchOf (network_in net.now) switch.now }
    requires marks { AreMarked (network_in net.now) marks.old }
    ensures marks { AreMarked (network_in net.now) marks.new }
    ensures grown { (v : ℕ) → IsInside marks.old.inside v → IsInside marks.new.inside v }
    ensures ends { EndsInside (network_in net.now) marks.new.inside switch.now }
{
    mark(net, switch.left, marks);
    mark(net, switch.right, marks);
}

/// Marks the ends of the switches that have a node at a terminal.
fn mark_at(net: &Wiring<'_>, terminal: Terminal, node: usize, marks: &mut NodeSet)
    requires node { node < net.now.nodes }
    requires marks { AreMarked (network_in net.now) marks.old }
    ensures marks { AreMarked (network_in net.now) marks.new }
    ensures grown { (v : ℕ) → IsInside marks.old.inside v → IsInside marks.new.inside v }
    ensures ends { AreMarkedAt (network_in net.now) marks.new.inside terminal node }
{
    let places = switches_at(net, terminal, node);
    'switches: for place in places {
        let switch = net.switches[*place as usize];
        mark_ends(net, &switch, marks);
    }
}

/// Marks the nodes that changed and the ends of the switches that they gate.
pub(crate) fn mark_changed(net: &Wiring<'_>, changed: &[u32], marks: &mut NodeSet)
    requires changed { All (λ v. v < net.now.nodes) changed.now }
    requires marks { AreMarked (network_in net.now) marks.old }
    ensures marks { AreMarked (network_in net.now) marks.new }
    ensures changed { (i : ℕ) → i < length changed.now
        → IsStorage (network_in net.now) (slice_index changed.now i)
        → IsInside marks.new.inside (slice_index changed.now i) }
    ensures gated { (i : ℕ) → i < length changed.now
        → IsGated (network_in net.now) marks.new.inside (slice_index changed.now i) }
{
    'changed: for node in changed {
        mark(net, *node, marks);
        mark_at(net, Terminal::Gate, *node as usize, marks);
    }
}

/// Marks the ends of all switches that have a node somewhere.
fn mark_touched(net: &Wiring<'_>, node: usize, marks: &mut NodeSet)
    requires node { node < net.now.nodes }
    requires marks { AreMarked (network_in net.now) marks.old }
    ensures marks { AreMarked (network_in net.now) marks.new }
    ensures grown { (v : ℕ) → IsInside marks.old.inside v → IsInside marks.new.inside v }
    ensures touched { IsTouched (network_in net.now) marks.new.inside node }
{
    mark_at(net, Terminal::Gate, node, marks);
    mark_at(net, Terminal::End(Side::Left), node, marks);
    mark_at(net, Terminal::End(Side::Right), node, marks);
}

/// Marks what may change first where a network rests but for these nodes.
pub(crate) fn mark_all_touched(net: &Wiring<'_>, nodes: &[u32], marks: &mut NodeSet)
    requires nodes { All (λ v. v < net.now.nodes) nodes.now }
    requires marks { AreMarked (network_in net.now) marks.old }
    ensures marks { AreMarked (network_in net.now) marks.new }
    ensures touched { (i : ℕ) → i < length nodes.now
        → IsTouched (network_in net.now) marks.new.inside (slice_index nodes.now i) }
{
    'nodes: for node in nodes {
        mark_touched(net, *node as usize, marks);
    }
}

/// Marks the ends of the switches that have a node at an end, if there is one.
pub(crate) fn mark_beside(net: &Wiring<'_>, node: Option<u32>, marks: &mut NodeSet)
    requires node { IfSome node (λ v. v < net.now.nodes) }
    requires marks { AreMarked (network_in net.now) marks.old }
    ensures marks { AreMarked (network_in net.now) marks.new }
    ensures grown { (v : ℕ) → IsInside marks.old.inside v → IsInside marks.new.inside v }
    ensures beside { IfSome node (AreEndsMarked (network_in net.now) marks.new.inside) }
{
    if let Some(node) = node {
        mark_at(net, Terminal::End(Side::Left), node as usize, marks);
        mark_at(net, Terminal::End(Side::Right), node as usize, marks);
    }
}
