//! Networks made from tables.

ghost use Rattle.std.specs.Prelude.{IsTrue};
ghost use Rattle.switch_net.specs.Network.{IsWithin};

use std::alloc::{AllocError, Global};
use switch_net::{LARGEST_SIZE, Level, MOST_NODES, MOST_SWITCHES, Net, Switch, SwitchKind};

/// The node of ground.
pub const GROUND: u32 = 0;

/// The node of power.
pub const POWER: u32 = 1;

/// A part of a network.
#[derive(Clone, Copy)]
pub enum Part {
    /// An inverter from its input to its output.
    Inverter(u32, u32),
    /// A switch: its kind, its gate and its two ends.
    Switch(SwitchKind, u32, u32, u32),
}

/// A network: its parts, the nodes that are inputs, and the sizes that are not 1.
#[derive(Clone, Copy)]
pub struct Circuit {
    pub parts: &'static [Part],
    pub inputs: &'static [u32],
    pub sizes: &'static [(u32, u8)],
}

fn switch(kind: SwitchKind, gate: u32, left: u32, right: u32) -> Switch {
    Switch {
        kind,
        gate,
        left,
        right,
    }
}

/// An inverter: the switch that pulls its output down, and the load that pulls it up.
pub fn inverter(input: u32, output: u32) -> [Switch; 2] {
    [
        switch(SwitchKind::N, input, GROUND, output),
        switch(SwitchKind::D, output, POWER, output),
    ]
}

fn is_within(nodes: u32, switch: &Switch) -> bool
    ensures { IsTrue result → IsWithin nodes switch.now }
{
    switch.gate < nodes && switch.left < nodes && switch.right < nodes
}

/// The network of so many nodes and these switches, or none where a switch names a node too many.
pub fn build(alloc: Global, count: usize, switches: &[Switch]) -> Result<Option<Net>, AllocError> {
    if count > MOST_NODES as usize {
        return Ok(None);
    }
    let nodes = count as u32;
    if switches.len() > MOST_SWITCHES || !switches.iter().all(|switch| is_within(nodes, switch)) {
        return Ok(None);
    }
    Ok(Some(Net::build(alloc, nodes, switches)?))
}

fn add_inputs(net: &mut Net, inputs: &[u32]) {
    for &node in inputs {
        if node < net.nodes {
            net.set_input(node);
        }
    }
}

fn add_sizes(net: &mut Net, sizes: &[(u32, u8)]) {
    for &(node, size) in sizes {
        if node < net.nodes && (1..=LARGEST_SIZE).contains(&size) {
            net.set_size(node, size);
        }
    }
}

fn switches_of(alloc: Global, parts: &[Part]) -> Result<Vec<Switch>, AllocError> {
    let mut switches = Vec::with_capacity(alloc, parts.len())?;
    for part in parts {
        match *part {
            Part::Inverter(input, output) => {
                let [down, up] = inverter(input, output);
                switches.push(down)?;
                switches.push(up)?;
            }
            Part::Switch(kind, gate, left, right) => switches.push(switch(
                kind, gate, left, right,
            ))?,
        }
    }
    Ok(switches)
}

/// The network of a circuit, or none where a switch of it names a node too many.
pub fn network(alloc: Global, nodes: usize, circuit: Circuit) -> Result<Option<Net>, AllocError> {
    let switches = switches_of(alloc, circuit.parts)?;
    let Some(mut net) = build(alloc, nodes, &switches)? else {
        return Ok(None);
    };
    add_inputs(&mut net, circuit.inputs);
    add_sizes(&mut net, circuit.sizes);
    Ok(Some(net))
}

/// States of so many nodes: these of the first ones, and X of the others.
pub fn states(alloc: Global, nodes: usize, first: &[Level]) -> Result<Vec<Level>, AllocError> {
    let mut states = Vec::from_slice(alloc, first)?;
    states.resize(nodes, Level::X)?;
    Ok(states)
}
