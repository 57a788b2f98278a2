//! Small networks, and what becomes of their states.

use crate::circuits::Part::{Inverter, Switch};
use crate::circuits::{Circuit, GROUND, POWER, Part, network};
use std::alloc::{AllocError, Global};
use std::test::Fail;
use steady_state::{Settled, settle, step, step_within};
use switch_net::Level::{One, X, Zero};
use switch_net::SwitchKind::{D, N, P};
use switch_net::{Level, Net};

/// The budget of the phases that settle.
const BUDGET: u32 = 5;

/// What is done with a network.
#[derive(Clone, Copy)]
enum Asked {
    /// A phase, which settles after so many steps.
    Settles(u32),
    /// A phase that is unsettled when this budget is used up, and then takes so many rounds.
    Forces(u32, u32),
    /// One step.
    Step,
    /// A step of the vicinities of these nodes alone.
    StepWithin(&'static [u32]),
}

/// A network, what is done with it, and its states before and after.
#[derive(Clone, Copy)]
struct Row {
    circuit: Circuit,
    before: &'static [Level],
    asked: Asked,
    after: &'static [Level],
}

/// An inverter from node 2 to node 3.
const INVERTER: &[Part] = &[Inverter(2, 3)];

/// Inverters from node 2 to node 3 and from node 4 to node 5.
const TWO_INVERTERS: &[Part] = &[Inverter(2, 3), Inverter(4, 5)];

/// A ring of three inverters.
const RING: &[Part] = &[Inverter(4, 2), Inverter(2, 3), Inverter(3, 4)];

/// That ring, and an inverter from its node 4 to node 5.
const RING_AND_INVERTER: &[Part] = &[
    Inverter(4, 2),
    Inverter(2, 3),
    Inverter(3, 4),
    Inverter(4, 5),
];

/// That ring, and a nand of its node 2 and of node 7: its output is node 5, and node 6 stands between its switches.
const RING_AND_NAND: &[Part] = &[
    Inverter(4, 2),
    Inverter(2, 3),
    Inverter(3, 4),
    Switch(D, 5, POWER, 5),
    Switch(N, 2, 6, 5),
    Switch(N, 7, GROUND, 6),
];

/// That ring, and one of nodes 5, 6 and 7.
const TWO_RINGS: &[Part] = &[
    Inverter(4, 2),
    Inverter(2, 3),
    Inverter(3, 4),
    Inverter(7, 5),
    Inverter(5, 6),
    Inverter(6, 7),
];

/// A ring of three inverters that is closed by a switch of node 6 between nodes 4 and 5.
const RING_WITH_SWITCH: &[Part] = &[
    Inverter(5, 2),
    Inverter(2, 3),
    Inverter(3, 4),
    Switch(N, 6, 4, 5),
];

/// An inverter whose output is its input.
const OWN_INVERTER: &[Part] = &[Inverter(2, 2)];

/// The same of an n and a p device.
const OWN_PAIR: &[Part] = &[Switch(N, 2, GROUND, 2), Switch(P, 2, POWER, 2)];

/// Two inverters, of nodes 2 and 3, each of which has the other's output.
const LATCH: &[Part] = &[Inverter(2, 3), Inverter(3, 2)];

/// Five inverters in a row, from node 2 to node 7.
const INVERTERS: &[Part] = &[
    Inverter(2, 3),
    Inverter(3, 4),
    Inverter(4, 5),
    Inverter(5, 6),
    Inverter(6, 7),
];

/// Two inverters in a row, of n and p devices, from node 2 to node 4.
const PAIRS: &[Part] = &[
    Switch(N, 2, GROUND, 3),
    Switch(P, 2, POWER, 3),
    Switch(N, 3, GROUND, 4),
    Switch(P, 3, POWER, 4),
];

/// A switch of node 2 that joins nodes 3 and 4.
const JOINED: &[Part] = &[Switch(N, 2, 3, 4)];

/// Nodes 2, 3 and 4 in a row.
const ROW: &[Part] = &[Switch(D, 0, 2, 3), Switch(D, 0, 3, 4)];

/// A p device from power to node 3.
const PULL_UP: &[Part] = &[Switch(P, 2, POWER, 3)];

/// A chain of pass transistors from power, the second one's gate being node 2.
const CHAIN: &[Part] = &[
    Switch(N, POWER, POWER, 3),
    Switch(N, 2, 3, 4),
    Switch(N, POWER, 4, 5),
];

/// A switch of node 0 that joins nodes 1 and 2.
const PAIR: &[Part] = &[Switch(N, 0, 1, 2)];

/// A switch whose two ends are one node.
const LOOP: &[Part] = &[Switch(N, 0, 1, 1)];

const RAILS: &[u32] = &[GROUND, POWER];

const DRIVEN: &[u32] = &[GROUND, POWER, 2];

const ROWS: &[Row] = &[
    // Two nodes that are joined share their charge: equal ones that disagree are X, and the larger wins.
    Row {
        circuit: Circuit {
            parts: JOINED,
            inputs: DRIVEN,
            sizes: &[],
        },
        before: &[Zero, One, One, One, Zero],
        asked: Asked::Settles(1),
        after: &[Zero, One, One, X, X],
    },
    Row {
        circuit: Circuit {
            parts: JOINED,
            inputs: DRIVEN,
            sizes: &[(3, 2)],
        },
        before: &[Zero, One, One, One, Zero],
        asked: Asked::Settles(1),
        after: &[Zero, One, One, One, One],
    },
    // Nodes of sizes 1, 2 and 3 in a row: the largest wins over both others together.
    Row {
        circuit: Circuit {
            parts: ROW,
            inputs: RAILS,
            sizes: &[(3, 2), (4, 3)],
        },
        before: &[Zero, One, One, One, Zero],
        asked: Asked::Settles(1),
        after: &[Zero, One, Zero, Zero, Zero],
    },
    Row {
        circuit: Circuit {
            parts: ROW,
            inputs: RAILS,
            sizes: &[(3, 2), (4, 3)],
        },
        before: &[Zero, One, One, One, X],
        asked: Asked::Settles(1),
        after: &[Zero, One, X, X, X],
    },
    // The pull-down of an inverter is stronger than its load, and blocks it only where it is closed.
    Row {
        circuit: Circuit {
            parts: INVERTER,
            inputs: DRIVEN,
            sizes: &[],
        },
        before: &[Zero, One, Zero, X],
        asked: Asked::Settles(1),
        after: &[Zero, One, Zero, One],
    },
    Row {
        circuit: Circuit {
            parts: INVERTER,
            inputs: DRIVEN,
            sizes: &[],
        },
        before: &[Zero, One, One, X],
        asked: Asked::Settles(1),
        after: &[Zero, One, One, Zero],
    },
    Row {
        circuit: Circuit {
            parts: INVERTER,
            inputs: DRIVEN,
            sizes: &[],
        },
        before: &[Zero, One, X, X],
        asked: Asked::Settles(0),
        after: &[Zero, One, X, X],
    },
    // A p device conducts while its gate is low. Where it may conduct, a node that it would change is X.
    Row {
        circuit: Circuit {
            parts: PULL_UP,
            inputs: DRIVEN,
            sizes: &[],
        },
        before: &[Zero, One, Zero, Zero],
        asked: Asked::Settles(1),
        after: &[Zero, One, Zero, One],
    },
    Row {
        circuit: Circuit {
            parts: PULL_UP,
            inputs: DRIVEN,
            sizes: &[],
        },
        before: &[Zero, One, One, Zero],
        asked: Asked::Settles(0),
        after: &[Zero, One, One, Zero],
    },
    Row {
        circuit: Circuit {
            parts: PULL_UP,
            inputs: DRIVEN,
            sizes: &[],
        },
        before: &[Zero, One, X, Zero],
        asked: Asked::Settles(1),
        after: &[Zero, One, X, X],
    },
    // Behind a gate that is X nodes are X, but where they were at one.
    Row {
        circuit: Circuit {
            parts: CHAIN,
            inputs: DRIVEN,
            sizes: &[],
        },
        before: &[Zero, One, X, Zero, Zero, Zero],
        asked: Asked::Settles(1),
        after: &[Zero, One, X, One, X, X],
    },
    Row {
        circuit: Circuit {
            parts: CHAIN,
            inputs: DRIVEN,
            sizes: &[],
        },
        before: &[Zero, One, X, Zero, One, One],
        asked: Asked::Settles(1),
        after: &[Zero, One, X, One, One, One],
    },
    // A ring of three inverters whose nodes are all low goes up and down with each step. All of them would change in the step past the budget.
    Row {
        circuit: Circuit {
            parts: RING,
            inputs: RAILS,
            sizes: &[],
        },
        before: &[Zero, One, Zero, Zero, Zero],
        asked: Asked::Forces(100, 1),
        after: &[Zero, One, X, X, X],
    },
    Row {
        circuit: Circuit {
            parts: RING,
            inputs: RAILS,
            sizes: &[],
        },
        before: &[Zero, One, Zero, Zero, Zero],
        asked: Asked::Forces(7, 1),
        after: &[Zero, One, X, X, X],
    },
    Row {
        circuit: Circuit {
            parts: RING,
            inputs: RAILS,
            sizes: &[],
        },
        before: &[Zero, One, Zero, Zero, Zero],
        asked: Asked::Forces(0, 1),
        after: &[Zero, One, X, X, X],
    },
    // Where its states differ one node would change, and then each behind a node that is X.
    Row {
        circuit: Circuit {
            parts: RING,
            inputs: RAILS,
            sizes: &[],
        },
        before: &[Zero, One, Zero, Zero, One],
        asked: Asked::Forces(0, 3),
        after: &[Zero, One, X, X, X],
    },
    // From X it rests.
    Row {
        circuit: Circuit {
            parts: RING,
            inputs: RAILS,
            sizes: &[],
        },
        before: &[Zero, One, X, X, X],
        asked: Asked::Settles(0),
        after: &[Zero, One, X, X, X],
    },
    // What hangs on the ring is forced with it, but not where it is held by something else.
    Row {
        circuit: Circuit {
            parts: RING_AND_INVERTER,
            inputs: RAILS,
            sizes: &[],
        },
        before: &[Zero, One, Zero, Zero, Zero, One],
        asked: Asked::Forces(100, 1),
        after: &[Zero, One, X, X, X, X],
    },
    Row {
        circuit: Circuit {
            parts: RING_AND_NAND,
            inputs: &[GROUND, POWER, 7],
            sizes: &[],
        },
        before: &[Zero, One, Zero, Zero, Zero, One, X, Zero],
        asked: Asked::Forces(100, 1),
        after: &[Zero, One, X, X, X, One, One, Zero],
    },
    Row {
        circuit: Circuit {
            parts: TWO_RINGS,
            inputs: &[GROUND, POWER, 5],
            sizes: &[],
        },
        before: &[Zero, One, Zero, Zero, Zero, Zero, One, Zero],
        asked: Asked::Forces(100, 1),
        after: &[Zero, One, X, X, X, Zero, One, Zero],
    },
    // A ring that is X stays so when it is cut.
    Row {
        circuit: Circuit {
            parts: RING_WITH_SWITCH,
            inputs: &[GROUND, POWER, 6],
            sizes: &[],
        },
        before: &[Zero, One, Zero, Zero, Zero, Zero, One],
        asked: Asked::Forces(100, 1),
        after: &[Zero, One, X, X, X, X, One],
    },
    Row {
        circuit: Circuit {
            parts: RING_WITH_SWITCH,
            inputs: &[GROUND, POWER, 6],
            sizes: &[],
        },
        before: &[Zero, One, X, X, X, X, Zero],
        asked: Asked::Settles(0),
        after: &[Zero, One, X, X, X, X, Zero],
    },
    // Inverters into themselves.
    Row {
        circuit: Circuit {
            parts: OWN_INVERTER,
            inputs: RAILS,
            sizes: &[],
        },
        before: &[Zero, One, Zero],
        asked: Asked::Forces(100, 1),
        after: &[Zero, One, X],
    },
    Row {
        circuit: Circuit {
            parts: OWN_PAIR,
            inputs: RAILS,
            sizes: &[],
        },
        before: &[Zero, One, One],
        asked: Asked::Forces(100, 1),
        after: &[Zero, One, X],
    },
    // A latch whose nodes are equal, and one that holds.
    Row {
        circuit: Circuit {
            parts: LATCH,
            inputs: RAILS,
            sizes: &[],
        },
        before: &[Zero, One, One, One],
        asked: Asked::Forces(100, 1),
        after: &[Zero, One, X, X],
    },
    Row {
        circuit: Circuit {
            parts: LATCH,
            inputs: RAILS,
            sizes: &[],
        },
        before: &[Zero, One, One, Zero],
        asked: Asked::Settles(0),
        after: &[Zero, One, One, Zero],
    },
    // A chain from X, with a budget for two of its inverters: the third would become 0, and is X already. The next phase goes on, and the third ends.
    Row {
        circuit: Circuit {
            parts: INVERTERS,
            inputs: DRIVEN,
            sizes: &[],
        },
        before: &[Zero, One, One, X, X, X, X, X],
        asked: Asked::Forces(2, 1),
        after: &[Zero, One, One, Zero, One, X, X, X],
    },
    Row {
        circuit: Circuit {
            parts: INVERTERS,
            inputs: DRIVEN,
            sizes: &[],
        },
        before: &[Zero, One, One, Zero, One, X, X, X],
        asked: Asked::Forces(2, 1),
        after: &[Zero, One, One, Zero, One, Zero, One, X],
    },
    Row {
        circuit: Circuit {
            parts: INVERTERS,
            inputs: DRIVEN,
            sizes: &[],
        },
        before: &[Zero, One, One, Zero, One, Zero, One, X],
        asked: Asked::Settles(1),
        after: &[Zero, One, One, Zero, One, Zero, One, Zero],
    },
    // The same chain at rest, whose input turns over: behind the node that is taken each becomes X in a round of its own.
    Row {
        circuit: Circuit {
            parts: INVERTERS,
            inputs: DRIVEN,
            sizes: &[],
        },
        before: &[Zero, One, One, One, Zero, One, Zero, One],
        asked: Asked::Forces(2, 3),
        after: &[Zero, One, One, Zero, One, X, X, X],
    },
    // Two inverters of n and p devices whose input turns over: the second comes one step late, and settles in the next phase.
    Row {
        circuit: Circuit {
            parts: PAIRS,
            inputs: DRIVEN,
            sizes: &[],
        },
        before: &[Zero, One, Zero, Zero, One],
        asked: Asked::Forces(1, 1),
        after: &[Zero, One, Zero, One, X],
    },
    Row {
        circuit: Circuit {
            parts: PAIRS,
            inputs: DRIVEN,
            sizes: &[],
        },
        before: &[Zero, One, Zero, One, X],
        asked: Asked::Settles(1),
        after: &[Zero, One, Zero, One, Zero],
    },
    // One step of two nodes that are joined: one of size 2 at 1 wins over one of size 1 at 0, and equal ones are X.
    Row {
        circuit: Circuit {
            parts: PAIR,
            inputs: &[0],
            sizes: &[(1, 2)],
        },
        before: &[One, One, Zero],
        asked: Asked::Step,
        after: &[One, One, One],
    },
    Row {
        circuit: Circuit {
            parts: PAIR,
            inputs: &[0],
            sizes: &[(1, 1)],
        },
        before: &[One, One, Zero],
        asked: Asked::Step,
        after: &[One, X, X],
    },
    // Two inverters that share only the rails: a step within the vicinity of the first output leaves the second output as it was.
    Row {
        circuit: Circuit {
            parts: TWO_INVERTERS,
            inputs: RAILS,
            sizes: &[],
        },
        before: &[Zero, One, Zero, Zero, Zero, Zero],
        asked: Asked::StepWithin(&[3]),
        after: &[Zero, One, Zero, One, Zero, Zero],
    },
    // A seed that stands twice counts once, and an input has no vicinity.
    Row {
        circuit: Circuit {
            parts: TWO_INVERTERS,
            inputs: DRIVEN,
            sizes: &[],
        },
        before: &[Zero, One, Zero, Zero, Zero, Zero],
        asked: Asked::StepWithin(&[5, 2, 5]),
        after: &[Zero, One, Zero, Zero, Zero, One],
    },
    // Without a seed nothing changes.
    Row {
        circuit: Circuit {
            parts: TWO_INVERTERS,
            inputs: RAILS,
            sizes: &[],
        },
        before: &[Zero, One, Zero, Zero, Zero, Zero],
        asked: Asked::StepWithin(&[]),
        after: &[Zero, One, Zero, Zero, Zero, Zero],
    },
    // A switch from a node to itself brings it nothing.
    Row {
        circuit: Circuit {
            parts: LOOP,
            inputs: &[0],
            sizes: &[],
        },
        before: &[One, Zero],
        asked: Asked::Settles(0),
        after: &[One, Zero],
    },
    // A network without a node is settled.
    Row {
        circuit: Circuit {
            parts: &[],
            inputs: &[],
            sizes: &[],
        },
        before: &[],
        asked: Asked::Settles(0),
        after: &[],
    },
];

/// Whether a phase of the network ends in this way, in these states.
fn ends(
    alloc: Global,
    mut net: Net,
    row: Row,
    budget: u32,
    want: Settled,
) -> Result<bool, AllocError> {
    let mut state = Vec::from_slice(alloc, row.before)?;
    if state.len() != net.nodes as usize {
        return Ok(false);
    }
    Ok(settle(&mut net, &mut state, budget) == want && state.as_slice() == row.after)
}

/// Whether one step of the network leads to the states of the row.
fn steps(alloc: Global, net: &Net, row: Row) -> Result<bool, AllocError> {
    if row.before.len() != net.nodes as usize {
        return Ok(false);
    }
    Ok(step(alloc, net, row.before)?.as_slice() == row.after)
}

/// Whether a step of the vicinities of these nodes leads to the states of the row.
fn steps_within(alloc: Global, mut net: Net, row: Row, seeds: &[u32]) -> Result<bool, AllocError> {
    let mut state = Vec::from_slice(alloc, row.before)?;
    if state.len() != net.nodes as usize || !seeds.iter().all(|seed| *seed < net.nodes) {
        return Ok(false);
    }
    step_within(&mut net, row.before, &mut state, seeds);
    Ok(state.as_slice() == row.after)
}

fn holds(alloc: Global, row: Row) -> Result<bool, AllocError> {
    let Some(net) = network(alloc, row.before.len(), row.circuit)? else {
        return Ok(false);
    };
    match row.asked {
        Asked::Settles(steps) => ends(
            alloc,
            net,
            row,
            BUDGET,
            Settled {
                steps,
                done: true,
                forced: 0,
            },
        ),
        Asked::Forces(steps, forced) => ends(
            alloc,
            net,
            row,
            steps,
            Settled {
                steps,
                done: false,
                forced,
            },
        ),
        Asked::Step => steps(alloc, &net, row),
        Asked::StepWithin(seeds) => steps_within(alloc, net, row, seeds),
    }
}

#[test]
fn rows_hold(rt: HostRuntime) -> Result<(), Fail> {
    for row in ROWS {
        assert!(rt; holds(rt.alloc(), *row)?);
    }
    Ok(())
}
