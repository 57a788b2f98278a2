//! The switches at a node.

ghost use Rattle.std.specs.Prelude.{◌≡◌, ◌≤◌, ◌<◌, ◌+◌, length, slice_index, slice_range};
ghost use Rattle.switch_net.specs.Path.{root_strength};
ghost use Rattle.steady_state.specs.steps.Wired.{network_in, sorted_at, AreSwitchesAt};

use crate::wiring::Wiring;
use switch_net::{Side, SortedSwitches, Terminal};

/// The run of a node in the sorted switches.
#[inline(always)]
fn run_of(sorted: &SortedSwitches, node: usize) -> &[u32]
    requires node { node + 1 < length sorted.now.starts }
    requires rising { slice_index sorted.now.starts node ≤ slice_index sorted.now.starts (node + 1) }
    requires within { slice_index sorted.now.starts (node + 1) ≤ length sorted.now.places }
    ensures { result.now ≡ slice_range sorted.now.places
        (slice_index sorted.now.starts node) (slice_index sorted.now.starts (node + 1)) }
{
    let start = sorted.starts.items()[node] as usize;
    let end = sorted.starts.items()[node + 1] as usize;
    &sorted.places.items()[start..end]
}

/// The switches sorted at a terminal.
#[inline(always)]
fn sorted<'a>(net: &'a Wiring<'_>, terminal: Terminal) -> &'a SortedSwitches
    ensures { result.now ≡ sorted_at terminal net.now }
{
    match terminal {
        Terminal::Gate => &net.adjacency.gate,
        Terminal::End(Side::Left) => &net.adjacency.left,
        Terminal::End(Side::Right) => &net.adjacency.right,
    }
}

/// The places of the switches that have a node at a terminal.
#[inline(always)]
pub(crate) fn switches_at<'a>(net: &'a Wiring<'_>, terminal: Terminal, node: usize) -> &'a [u32]
    requires { node < net.now.nodes }
    ensures { AreSwitchesAt net.now.switches.now terminal node result.now }
{
    run_of(sorted(net, terminal), node)
}

/// The strength of a node as a root.
pub(crate) fn strength_at(net: &Wiring<'_>, node: usize) -> u8
    requires { node < net.now.nodes }
    ensures value { result ≡ root_strength (network_in net.now) node }
    ensures low { result ≤ 6 }
{
    if net.inputs[node] { 6 } else { net.sizes[node] }
}
