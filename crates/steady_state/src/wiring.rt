//! A network as the functions of a step see it: without the arrays that they change, and with its
//! switches sorted by their nodes.

ghost use Rattle.std.specs.Prelude.{◌≡◌, ◌≤◌, ◌<◌, All, length};
ghost use Rattle.std.proofs.Props.{props};
ghost use Rattle.switch_net.specs.declared.limits.TheConstants.{MOST_SWITCHES};
ghost use Rattle.switch_net.specs.Network.{IsWithin, IsSize};
ghost use Rattle.switch_net.specs.Sorted.{AreAllSorted};

use switch_net::{Adjacency, Switch};

/// A network, and its switches sorted by their nodes.
#[derive(Clone, Copy)]
pub(crate) struct Wiring<'a> {
    pub nodes: u32,
    pub switches: &'a [Switch],
    pub sizes: &'a [u8],
    pub inputs: &'a [bool],
    pub adjacency: &'a Adjacency,
    pub ghost few_switches: { length switches.now ≤ MOST_SWITCHES },
    pub ghost switches_within: { All (IsWithin nodes) switches.now } by { Prim.hlevel props },
    pub ghost one_size: { length sizes.now ≡ nodes },
    pub ghost one_input: { length inputs.now ≡ nodes },
    pub ghost sizes_in_range: { All IsSize sizes.now } by { Prim.hlevel props },
    pub ghost sorted: { AreAllSorted nodes switches.now adjacency.now } by { Prim.hlevel props },
}
