//! The vicinity of a node, marked and listed, with what paths begin with at its nodes.

ghost use Rattle.std.specs.Prelude.{◌≡◌, ◌<◌, ◌≤◌, ℕ, List, length, slice_index};
ghost use Rattle.switch_net.specs.Sets.{IsInside};
ghost use Rattle.switch_net.specs.Vicinity.{IsStorage, IsReached};
ghost use Rattle.steady_state.specs.steps.Gathering.{AreGatheredAt};
ghost use Rattle.steady_state.specs.Marked.{AddsMarks, AreMarked, AreReached, IsCovered};
ghost use Rattle.steady_state.specs.steps.Wired.{network_in};

use crate::beginning::gather;
use crate::marking::mark;
use crate::wiring::Wiring;
use switch_net::{Level, NodeSet, Side};

/// Marks the vicinity of a seed that is not marked yet, and writes down what paths begin with at
/// each node of it.
pub(crate) fn explore(
    net: &Wiring<'_>,
    state: &[Level],
    seed: u32,
    marks: &mut NodeSet,
    definite: &mut [u8],
    one: &mut [u8],
    zero: &mut [u8],
)
    requires state { length state.now ≡ net.now.nodes }
    requires seed { seed < net.now.nodes }
    requires marks { AreMarked (network_in net.now) marks.old }
    requires definite { length definite.old ≡ net.now.nodes }
    requires one { length one.old ≡ net.now.nodes }
    requires zero { length zero.old ≡ net.now.nodes }
    ensures marks { AreMarked (network_in net.now) marks.new }
    ensures adds { AddsMarks marks.old marks.new }
    ensures reached { (seeds : List ℕ)
        → AreReached (network_in net.now) state.now seeds marks.old.inside
        → IsReached (network_in net.now) state.now seeds seed
        → AreReached (network_in net.now) state.now seeds marks.new.inside }
    ensures marked { IsStorage (network_in net.now) seed → IsInside marks.new.inside seed }
    ensures left { (i : ℕ) → marks.old.count ≤ i → i < marks.new.count
        → IsCovered (network_in net.now) state.now Side.Left marks.new.inside (slice_index marks.new.order i) }
    ensures right { (i : ℕ) → marks.old.count ≤ i → i < marks.new.count
        → IsCovered (network_in net.now) state.now Side.Right marks.new.inside (slice_index marks.new.order i) }
    ensures gathered { (i : ℕ) → marks.old.count ≤ i → i < marks.new.count
        → AreGatheredAt (network_in net.now) state.now (slice_index marks.new.order i) definite.new one.new zero.new }
{
    let mut scanned = marks.count;
    mark(net, seed, marks);
    'nodes: while scanned < marks.count {
        let node = marks.order.items()[scanned];
        let begun = gather(net, state, node, marks);
        definite[node as usize] = begun.definite;
        one[node as usize] = begun.other_than_one;
        zero[node as usize] = begun.other_than_zero;
        scanned += 1;
    }
}
