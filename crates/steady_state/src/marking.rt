//! Nodes that store charge, marked and listed.

ghost use Rattle.std.specs.Prelude.{◌≡◌, ◌<◌, ◌≤◌, ◌↔◌, ℕ, List, All, Contains, IsTrue, length};
ghost use Rattle.switch_net.specs.Sets.{IsAmong, IsInside};
ghost use Rattle.switch_net.specs.Vicinity.{IsStorage, IsReached};
ghost use Rattle.steady_state.specs.steps.Wired.{network_in};
ghost use Rattle.steady_state.specs.Marked.{IsLate, States};
ghost use Rattle.steady_state.specs.Marked.{AreMarked, AddsMarks, AreReached};

use crate::wiring::Wiring;
use switch_net::NodeSet;

/// Whether a node stores charge.
#[inline(always)]
fn stores_charge(net: &Wiring<'_>, node: u32) -> bool
    requires { node < net.now.nodes }
    ensures { IsTrue result ↔ IsStorage (network_in net.now) node }
{
    !net.inputs[node as usize]
}

/// Marks a node that stores charge.
#[inline(always)]
pub(crate) fn mark(net: &Wiring<'_>, node: u32, marks: &mut NodeSet)
    requires node { node < net.now.nodes }
    requires marks { AreMarked (network_in net.now) marks.old }
    ensures marks { AreMarked (network_in net.now) marks.new }
    ensures adds { AddsMarks marks.old marks.new }
    ensures reached { (s : States) (seeds : List ℕ)
        → AreReached (network_in net.now) s seeds marks.old.inside
        → (IsStorage (network_in net.now) node → IsReached (network_in net.now) s seeds node)
        → AreReached (network_in net.now) s seeds marks.new.inside }
    ensures marked { IsStorage (network_in net.now) node → IsInside marks.new.inside node }
{
    if stores_charge(net, node) {
        marks.add(node);
    }
}

/// Marks the seeds that store charge, where no node is marked yet.
pub(crate) fn mark_seeds(net: &Wiring<'_>, seeds: &[u32], marks: &mut NodeSet)
    requires seeds { All (λ v. v < net.now.nodes) seeds.now }
    requires marks { AreMarked (network_in net.now) marks.old }
    requires none { marks.old.count ≡ 0 }
    ensures marks { AreMarked (network_in net.now) marks.new }
    ensures reached { (s : States) → AreReached (network_in net.now) s seeds.now marks.new.inside }
    ensures seeds { (v : ℕ) → Contains seeds.now v
        → IsStorage (network_in net.now) v → IsInside marks.new.inside v }
{
    'seeds: for seed in seeds {
        mark(net, *seed, marks);
    }
}

/// The marked nodes behind so many others.
pub(crate) fn marked_behind(marks: &NodeSet, before: usize) -> &[u32]
    requires { before ≤ marks.now.count }
    ensures late { (v : ℕ) → IsAmong result.now (length result.now) v → IsLate marks.now before v }
    ensures all { (v : ℕ) → IsLate marks.now before v → IsAmong result.now (length result.now) v }
{
    &marks.nodes()[before..]
}

/// Marks every node that stores charge.
pub(crate) fn mark_all(net: &Wiring<'_>, marks: &mut NodeSet)
    requires { AreMarked (network_in net.now) marks.old }
    ensures marks { AreMarked (network_in net.now) marks.new }
    ensures every { (v : ℕ) → IsStorage (network_in net.now) v → IsInside marks.new.inside v }
{
    'every: for node in 0..net.nodes {
        mark(net, node, marks);
    }
}
