//! Phases of large networks, which take the time that their changes take.

ghost use Rattle.std.specs.Prelude.{◌≤◌};
ghost use Rattle.switch_net.specs.declared.limits.TheConstants.{MOST_NODES};

use crate::circuits::{GROUND, POWER, build, inverter, states};
use std::alloc::{AllocError, Global};
use std::test::Fail;
use steady_state::{Settled, settle};
use switch_net::Level::{One, X, Zero};
use switch_net::{Level, Switch};

/// The budget of long phases, and the count of the inverters in a long chain.
const MANY: u32 = 200_000;

/// The count of the nodes of the ring and of the idle nodes beside it.
const NODES_WITH_IDLE: usize = 1_000_005;

/// The count of the rings in one network.
const RINGS: u32 = 50_000;

/// How a phase of a network of these switches ends, which begins in these states of the first
/// nodes and X of the others, and its states then. Nothing where the network is none.
fn run(
    alloc: Global,
    nodes: usize,
    switches: &[Switch],
    inputs: &[u32],
    first: &[Level],
    budget: u32,
) -> Result<Option<(Settled, Vec<Level>)>, AllocError> {
    let mut state = states(alloc, nodes, first)?;
    let Some(mut net) = build(alloc, nodes, switches)? else {
        return Ok(None);
    };
    for &input in inputs {
        if input < net.nodes {
            net.set_input(input);
        }
    }
    if state.len() != net.nodes as usize {
        return Ok(None);
    }
    let settled = settle(&mut net, &mut state, budget);
    Ok(Some((settled, state)))
}

/// A ring of three inverters, the first at this node.
fn ring(first: u32) -> [Switch; 6]
    requires { first ≤ MOST_NODES }
{
    let [down_1, load_1] = inverter(first + 2, first);
    let [down_2, load_2] = inverter(first, first + 1);
    let [down_3, load_3] = inverter(first + 1, first + 2);
    [down_1, load_1, down_2, load_2, down_3, load_3]
}

fn ring_oscillates(alloc: Global) -> Result<bool, AllocError> {
    let first = [Zero, One, Zero, Zero, Zero];
    let rails = [GROUND, POWER];
    let unsettled = Settled {
        steps: MANY,
        done: false,
        forced: 1,
    };
    Ok(run(alloc, NODES_WITH_IDLE, &ring(2), &rails, &first, MANY)?.is_some_and(|(settled, state)| {
        settled == unsettled && state.iter().skip(2).all(|level| *level == X)
    }))
}

// The ring beside a million nodes without a switch: a step costs what the ring costs, and so does
// a round.
#[test]
fn oscillates_beside_idle_nodes(rt: HostRuntime) -> Result<(), Fail> {
    assert!(rt; ring_oscillates(rt.alloc())?);
    Ok(())
}

fn rings_oscillate(alloc: Global) -> Result<bool, AllocError> {
    let mut switches = Vec::new(alloc);
    for place in 0..RINGS {
        switches.extend_from_slice(&ring(3 * place + 2))?;
    }
    let nodes = 3 * RINGS as usize + 2;
    let mut first = Vec::from_slice(alloc, &[Zero, One])?;
    first.resize(nodes, Zero)?;
    let rails = [GROUND, POWER];
    let unsettled = Settled {
        steps: 2,
        done: false,
        forced: 1,
    };
    Ok(run(alloc, nodes, &switches, &rails, &first, 2)?.is_some_and(|(settled, state)| {
        settled == unsettled && state.iter().skip(2).all(|level| *level == X)
    }))
}

// As many rings that oscillate together are forced in one round.
#[test]
fn forces_many_rings(rt: HostRuntime) -> Result<(), Fail> {
    assert!(rt; rings_oscillate(rt.alloc())?);
    Ok(())
}

/// A chain of so many inverters, the first at node 2.
fn inverters(alloc: Global, count: u32) -> Result<Vec<Switch>, AllocError> {
    let mut switches = Vec::new(alloc);
    for place in 0..count.min(MANY) {
        switches.extend_from_slice(&inverter(place + 2, place + 3))?;
    }
    Ok(switches)
}

fn chain_settles(alloc: Global) -> Result<bool, AllocError> {
    let switches = inverters(alloc, MANY)?;
    let driven = [GROUND, POWER, 2];
    let settled = Settled {
        steps: MANY,
        done: true,
        forced: 0,
    };
    Ok(run(
        alloc,
        MANY as usize + 3,
        &switches,
        &driven,
        &[Zero, One, Zero],
        MANY,
    )?
    .is_some_and(|(end, state)| end == settled && state.last() == Some(&Zero)))
}

// A chain of 200,000 inverters from all X: each step settles one output more.
#[test]
fn settles_a_long_chain(rt: HostRuntime) -> Result<(), Fail> {
    assert!(rt; chain_settles(rt.alloc())?);
    Ok(())
}

/// The states of a chain at rest whose input was at one, just after it has turned to zero.
fn turned(alloc: Global) -> Result<Vec<Level>, AllocError> {
    let mut state = Vec::from_slice(alloc, &[Zero, One, Zero])?;
    for place in 0..MANY {
        state.push(if place % 2 == 0 { Zero } else { One })?;
    }
    Ok(state)
}

fn chain_is_forced(alloc: Global) -> Result<bool, AllocError> {
    let switches = inverters(alloc, MANY)?;
    let driven = [GROUND, POWER, 2];
    let unsettled = Settled {
        steps: 2,
        done: false,
        forced: MANY - 2,
    };
    Ok(run(
        alloc,
        MANY as usize + 3,
        &switches,
        &driven,
        &turned(alloc)?,
        2,
    )?
    .is_some_and(|(end, state)| end == unsettled && state.last() == Some(&X)))
}

// Its input turns over, and two steps are too few: each round forces one output more, and looks at
// that one alone.
#[test]
fn forces_a_long_chain(rt: HostRuntime) -> Result<(), Fail> {
    assert!(rt; chain_is_forced(rt.alloc())?);
    Ok(())
}
