//! Power and ground of a network: the states in which it begins, and the inputs that it is made with.
ghost use Rattle.std.specs.Prelude.{◌≡◌, ◌≢◌, ◌<◌, ◌↔◌, ℕ, List, All, Some, false, length, IfOk};
ghost use Rattle.switch_net.specs.declared.switches.Level.TheVariants.{Zero, One};
ghost use Rattle.switch_net.specs.Names.{HasName, NameOneNodeEach};
ghost use Rattle.switch_net.specs.Net.{network_of};
ghost use Rattle.switch_net.specs.SimRecords.{AreStarts};
ghost use Rattle.vector_files.specs.LineForms.{is_rail};
ghost use Rattle.vector_files.specs.NodeLookup.{is_either_node, is_node as is_node_at};
ghost use Rattle.vector_runs.specs.RailNodes.{AreBelow, AreRails, with_rail, with_state};
ghost use Rattle.vector_runs.specs.Runs.{IsFresh};

use names_lists::Name;
use std::alloc::{AllocError, Global};
use switch_net::{Level, NamedNet, Net};

/// The nodes of power and of ground, where the network has them.
#[derive(Clone, Copy, Debug, PartialEq, Eq)]
pub struct Rails {
    pub power: Option<u32>,
    pub ground: Option<u32>,
}

impl Rails {
    /// Whether the node is power or ground.
    pub fn has(&self, node: u32) -> bool
        ensures { result ≡ is_either_node self.now.power self.now.ground node }
    {
        is_node(self.power, node) || is_node(self.ground, node)
    }
}

fn is_node(rail: Option<u32>, node: u32) -> bool
    ensures { result ≡ is_node_at rail node }
{
    match rail {
        Some(other) => other == node,
        None => false,
    }
}

/// The states in which the network begins: one for power, zero for ground, and X for any other node, as for one that is both.
pub fn start_states(alloc: Global, named: &NamedNet) -> Result<Vec<Level>, AllocError>
    ensures { IfOk result (λ states. AreStarts (network_of named.now.net) named.now.names states.items) }
{
    let rails = rails_of(named);
    let mut states = vec![in alloc; Level::X; named.net.nodes as usize]?;
    set_states(&mut states, &rails);
    Ok(states)
}

/// Gives the network the sizes and inputs that it is made with: each node has size 1, and power and ground alone are inputs.
pub fn make_fresh(named: &mut NamedNet)
    ensures fresh { IsFresh (network_of named.new.net) named.old.names }
    ensures names { named.new.names ≡ named.old.names }
    ensures nodes { named.new.net.nodes ≡ named.old.net.nodes }
    ensures switches { named.new.net.switches ≡ named.old.net.switches }
{
    let rails = rails_of(named);
    make_net_fresh(&mut named.net, &rails);
}

/// Power and ground of a network.
pub fn rails_of(named: &NamedNet) -> Rails
    ensures are { AreRails named.now.names result }
    ensures known { (v : ℕ) → is_rail named.now.names v ≡ is_either_node result.power result.ground v }
    ensures below { AreBelow named.now.net.nodes result }
{
    let names = named.names.items();
    Rails {
        power: node_named(names, b"Vdd!"),
        ground: node_named(names, b"GND!"),
    }
}

fn node_named(names: &[(Name, u32)], name: &[u8]) -> Option<u32>
    requires { NameOneNodeEach names.now }
    ensures { (v : ℕ) → (result ≡ Some v) ↔ HasName names.now v name.now }
{
    for (known, node) in names {
        if known.bytes() == name {
            return Some(*node);
        }
    }
    None
}

// Puts power at one and ground at zero, where they are two nodes.
fn set_states(states: &mut [Level], rails: &Rails)
    requires { AreBelow (length states.old) rails.now }
    ensures same { rails.now.power ≡ rails.now.ground → states.new ≡ states.old }
    ensures apart { rails.now.power ≢ rails.now.ground
        → states.new ≡ with_state (with_state states.old rails.now.power One) rails.now.ground Zero }
{
    if rails.power != rails.ground {
        set_state(states, rails.power, Level::One);
        set_state(states, rails.ground, Level::Zero);
    }
}

fn set_state(states: &mut [Level], rail: Option<u32>, level: Level)
    requires { (v : ℕ) → rail ≡ Some v → v < length states.old }
    ensures { states.new ≡ with_state states.old rail level }
{
    if let Some(node) = rail {
        states[node as usize] = level;
    }
}

/// Gives each node size 1, and makes power and ground alone inputs, which are these.
pub fn make_net_fresh(net: &mut Net, rails: &Rails)
    requires { AreBelow net.old.nodes rails.now }
    ensures fresh { (names : List (List ℕ × ℕ)) → AreRails names rails.now → IsFresh (network_of net.new) names }
    ensures nodes { net.new.nodes ≡ net.old.nodes }
    ensures switches { net.new.switches ≡ net.old.switches }
{
    clear(net);
    set_input(net, rails.power);
    set_input(net, rails.ground);
}

fn set_input(net: &mut Net, rail: Option<u32>)
    requires { (v : ℕ) → rail ≡ Some v → v < net.old.nodes }
    ensures network { network_of net.new ≡ with_rail (network_of net.old) rail }
    ensures nodes { net.new.nodes ≡ net.old.nodes }
    ensures switches { net.new.switches ≡ net.old.switches }
{
    if let Some(node) = rail {
        net.set_input(node);
    }
}

// Gives each node size 1, and makes it store charge.
fn clear(net: &mut Net)
    ensures nodes { net.new.nodes ≡ net.old.nodes }
    ensures switches { net.new.switches ≡ net.old.switches }
    ensures sizes { All (λ size. size ≡ 1) net.new.sizes }
    ensures inputs { All (λ input. input ≡ false) net.new.inputs }
{
    for node in 0..net.nodes {
        net.set_size(node, 1);
        net.set_storage(node);
    }
}
