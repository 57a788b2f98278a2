//! A network, and a network whose nodes have names.

ghost use Rattle.std.specs.Prelude.{◌≡◌, ◌≤◌, ◌<◌, All, length};
ghost use Rattle.std.proofs.Props.{props};
ghost use Rattle.switch_net.specs.declared.limits.TheConstants.{MOST_NODES, MOST_SWITCHES};
ghost use Rattle.switch_net.specs.Network.{IsWithin, IsSize};
ghost use Rattle.switch_net.specs.Names.{NameNodesBelow, NameOneNodeEach};
ghost use Rattle.switch_net.specs.Arrays.{IsWorkFor};

use crate::arrays::Work;
use crate::switches::Switch;
use names_lists::{List, Name};
use std::alloc::{AllocError, Global};

/// Nodes, numbered from 0, and the switches between them. Each node has a size, from 1 to 3, and is
/// an input or stores charge.
#[derive(Debug, Drop)]
pub struct Net {
    pub nodes: u32,
    pub switches: List<Switch>,
    pub sizes: List<u8>,
    pub inputs: List<bool>,
    pub work: Work,
    pub ghost few_nodes: { nodes ≤ MOST_NODES },
    pub ghost few_switches: { length switches ≤ MOST_SWITCHES },
    pub ghost switches_within: { All (IsWithin nodes) switches } by { Prim.hlevel props },
    pub ghost one_size: { length sizes ≡ nodes },
    pub ghost one_input: { length inputs ≡ nodes },
    pub ghost sizes_in_range: { All IsSize sizes } by { Prim.hlevel props },
    pub ghost work_fits: { IsWorkFor nodes switches work } by { Prim.hlevel props },
}

/// A network with the names of its nodes. A node may have several names, and a name has one node.
#[derive(Debug, Drop)]
pub struct NamedNet {
    pub net: Net,
    pub names: List<(Name, u32)>,
    pub ghost named_within: { NameNodesBelow net.nodes names } by { Prim.hlevel props },
    pub ghost one_node: { NameOneNodeEach names } by { Prim.hlevel props },
}

impl Net {
    ghost use Rattle.std.specs.Prelude.{IfOk, true, false, slice_set};
    ghost use Rattle.switch_net.specs.Net.{network_of};

    /// The network of these switches, in their order, in which every node stores charge and has
    /// size 1.
    pub fn build(alloc: Global, nodes: u32, switches: &[Switch]) -> Result<Net, AllocError>
        requires few_nodes { nodes ≤ MOST_NODES }
        requires few_switches { length switches.now ≤ MOST_SWITCHES }
        requires switches_within { All (IsWithin nodes) switches.now }
        ensures nodes { IfOk result (λ net. net.nodes ≡ nodes) }
        ensures switches { IfOk result (λ net. net.switches ≡ switches.now) }
        ensures sizes { IfOk result (λ net. All (λ size. size ≡ 1) net.sizes) }
        ensures inputs { IfOk result (λ net. All (λ input. input ≡ false) net.inputs) }
    {
        let count = nodes as usize;
        Ok(Net {
            nodes,
            switches: List::of(Vec::from_slice(alloc, switches)?),
            sizes: List::of(vec![in alloc; 1; count]?),
            inputs: List::of(vec![in alloc; false; count]?),
            work: Work::build(alloc, nodes, switches)?,
        })
    }

    /// Makes a node an input.
    pub fn set_input(&mut self, node: u32)
        requires { node < self.old.nodes }
        ensures { network_of self.new
            ≡ record (network_of self.old) { inputs = slice_set self.old.inputs node true } }
    {
        self.inputs.items_mut()[node as usize] = true;
    }

    /// Makes a node store charge.
    pub fn set_storage(&mut self, node: u32)
        requires { node < self.old.nodes }
        ensures { network_of self.new
            ≡ record (network_of self.old) { inputs = slice_set self.old.inputs node false } }
    {
        self.inputs.items_mut()[node as usize] = false;
    }

    /// Gives a node this size, from 1 to 3. It counts while the node stores charge.
    pub fn set_size(&mut self, node: u32, size: u8)
        requires node { node < self.old.nodes }
        requires size { IsSize size }
        ensures { network_of self.new
            ≡ record (network_of self.old) { sizes = slice_set self.old.sizes node size } }
    {
        self.sizes.items_mut()[node as usize] = size;
    }
}
