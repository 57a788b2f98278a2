//! The network of a sim file.
ghost use Rattle.std.specs.Prelude.{◌≡◌, ◌≢◌, ◌⊎◌, ◌≤◌, false, All, IfOk, IfErr, OnOk, length, map};
ghost use Rattle.sim_text.specs.declared.faults.SimFault.TheVariants.{Memory as OutOfMemory};
ghost use Rattle.switch_net.specs.declared.limits.TheConstants.{MOST_NODES, MOST_SWITCHES as MOST_OF_NET};
ghost use Rattle.switch_net.specs.Net.{network_of};
ghost use Rattle.switch_net.specs.SimRecords.{AreTransistors, IsNetworkOf};
ghost use Rattle.sim_networks.specs.SimNetworks.{HasLetter, HasMoreNodesThan, HasTooManyNodes, HasTooManySwitches, IsNumberedByCaps};
ghost use Rattle.sim_networks.specs.SimNetworks.{records_of, transistor_of};
ghost use Rattle.sim_networks.specs.steps.Numbering.{IsTable, IsTableOf, MarksInput, names_with_nodes};

use crate::nodes::NodeTable;
use crate::switches::switches_of;
use sim_text::{SimFault, SimFile, SimLimit};
use std::alloc::{AllocError, Global};
use switch_net::{MOST_NODES, MOST_SWITCHES, NamedNet, Net};

/// The name of power, whose node is an input.
const POWER: &[u8] = b"Vdd!";

/// The name of ground, whose node is an input.
const GROUND: &[u8] = b"GND!";

// Refuses more nodes and more switches than a network may have.
fn check_limits(table: &NodeTable, sim: &SimFile) -> Result<(), SimFault>
    requires { IsTableOf (records_of sim.now) table.now }
    ensures nodes { OnOk result (table.now.count ≤ MOST_NODES) }
    ensures few_nodes { OnOk result (¬ (HasMoreNodesThan MOST_NODES (records_of sim.now))) }
    ensures few_switches { OnOk result (length sim.now.fets ≤ MOST_OF_NET) }
    ensures refused { IfErr result (λ fault. HasTooManyNodes fault sim.now ⊎ HasTooManySwitches fault sim.now) }
{
    if table.count > MOST_NODES as usize {
        return Err(SimFault::TooMany(SimLimit::Nodes));
    }
    if sim.fets.items().len() > MOST_SWITCHES {
        return Err(SimFault::TooMany(SimLimit::Switches));
    }
    Ok(())
}

// Makes the node with this name an input, if there is one.
fn mark_input(net: &mut Net, table: &NodeTable, name: &[u8])
    requires table { IsTable table.now }
    requires count { table.now.count ≡ net.old.nodes }
    requires few { table.now.count ≤ MOST_NODES }
    ensures { MarksInput (names_with_nodes table.now) name.now (network_of net.old) (network_of net.new) }
{
    if let Some(node) = table.node(name) {
        net.set_input(node);
    }
}

// The switches, and the nodes of which none is an input.
fn built(alloc: Global, table: &NodeTable, sim: &SimFile) -> Result<Net, AllocError>
    requires table { IsTableOf (records_of sim.now) table.now }
    requires letters { All HasLetter sim.now.fets }
    requires few_nodes { table.now.count ≤ MOST_NODES }
    requires few_switches { length sim.now.fets ≤ MOST_OF_NET }
    ensures nodes { IfOk result (λ net. net.nodes ≡ table.now.count) }
    ensures switches { IfOk result (λ net. AreTransistors (names_with_nodes table.now) (map transistor_of sim.now.fets) net.switches) }
    ensures sizes { IfOk result (λ net. All (λ size. size ≡ 1) net.sizes) }
    ensures inputs { IfOk result (λ net. All (λ input. input ≡ false) net.inputs) }
{
    let switches = switches_of(alloc, table, sim.fets.items())?;
    Net::build(alloc, table.count as u32, switches.as_slice())
}

// The network of which power and ground are inputs.
fn powered(alloc: Global, table: &NodeTable, sim: &SimFile) -> Result<Net, AllocError>
    requires table { IsTableOf (records_of sim.now) table.now }
    requires letters { All HasLetter sim.now.fets }
    requires few_nodes { table.now.count ≤ MOST_NODES }
    requires few_switches { length sim.now.fets ≤ MOST_OF_NET }
    ensures { IfOk result (λ net. IsNetworkOf (records_of sim.now) (network_of net) (names_with_nodes table.now)) }
{
    let mut net = built(alloc, table, sim)?;
    mark_input(&mut net, table, POWER);
    mark_input(&mut net, table, GROUND);
    Ok(net)
}

// The network with the names of the table.
fn named_net(alloc: Global, table: &NodeTable, sim: &SimFile) -> Result<NamedNet, SimFault>
    requires table { IsTableOf (records_of sim.now) table.now }
    requires letters { All HasLetter sim.now.fets }
    requires few_nodes { table.now.count ≤ MOST_NODES }
    requires few_switches { length sim.now.fets ≤ MOST_OF_NET }
    ensures network { IfOk result (λ named. IsNetworkOf (records_of sim.now) (network_of named.net) named.names) }
    ensures names { IfOk result (λ named. named.names ≡ names_with_nodes table.now) }
    ensures refused { IfErr result (λ fault. fault ≡ OutOfMemory) }
{
    let net = powered(alloc, table, sim)?;
    let names = table.all_names(alloc)?;
    Ok(NamedNet { net, names })
}

/// The network of a sim file: a node for each class of names that alias lines join, a switch for each transistor, in order. `Vdd!` and
/// `GND!` are inputs. Nodes are numbered in the order of their first capacitances, and those without one come after these.
///
/// # Errors
///
/// `TooMany(Nodes)` where there are more than 2^20 nodes, else `TooMany(Switches)` where there are more than 2^20 transistors, and
/// `Memory`.
pub fn net_of(alloc: Global, sim: &SimFile) -> Result<NamedNet, SimFault>
    requires letters { All HasLetter sim.now.fets }
    ensures network { IfOk result (λ named. IsNetworkOf (records_of sim.now) (network_of named.net) named.names) }
    ensures order { IfOk result (λ named. IsNumberedByCaps (records_of sim.now) named.names) }
    ensures few_nodes { IfOk result (λ _. ¬ (HasMoreNodesThan MOST_NODES (records_of sim.now))) }
    ensures few_switches { IfOk result (λ _. length sim.now.fets ≤ MOST_OF_NET) }
    ensures refused { IfErr result (λ fault. fault ≢ OutOfMemory → HasTooManyNodes fault sim.now ⊎ HasTooManySwitches fault sim.now) }
{
    let table = NodeTable::of(alloc, sim)?;
    check_limits(&table, sim)?;
    named_net(alloc, &table, sim)
}
