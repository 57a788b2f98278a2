//! Which faults of small networks vectors detect, and what runs show in which a node is stuck.

ghost use Rattle.std.specs.Prelude.{◌≡◌, All, IfSome, true};
ghost use Rattle.sim_networks.specs.SimNetworks.{HasLetter};
ghost use Rattle.switch_net.specs.Net.{network_of as network_in};
ghost use Rattle.vector_files.specs.VectorFiles.{IsChangeable, IsWithin};
ghost use Rattle.vector_runs.specs.Runs.{IsFresh};

use fault_grade::{GradeFault, Graded, MOST_FAULTS, grade};
use sim_networks::{net_of, read_records_have_letters};
use sim_text::{SimFile, read_sim};
use std::alloc::{AllocError, Global};
use std::test::Fail;
use switch_net::Level::{One, X, Zero};
use switch_net::{Level, NamedNet};
use text_scan::append_decimal;
use vector_files::{Vectors, read_vectors};
use vector_runs::{Seen, StuckFault, rails_of, watch};

/// The budget of the phases.
const BUDGET: u32 = 20;

/// A network by its sim text, vectors on it, and its faults that these detect, each with its line. It detects no others.
#[derive(Clone, Copy)]
struct Row {
    circuit: &'static [u8],
    vectors: &'static [u8],
    grades: &'static [(u32, Level, Option<u32>)],
}

/// An inverter from `in`, node 0, to `out`, node 1. `other` is a name of `in` too.
const INVERTER: &[u8] = b"| units: 1 tech: nm format: MIT\n\
e in GND! out 2 2 0 0\n\
d out out Vdd! 8 2 0 4\n\
C in GND! 1\n\
C out GND! 1\n\
= in other\n";

/// Node `a` pulls itself down through `m` where `k` is 1. Power and ground are nodes 1 and 3, beside `a`, `m` and `k`.
const OWN_PULL_DOWN: &[u8] = b"| units: 1 tech: nm format: MIT\n\
e a m a 2 2 0 0\n\
e k GND! m 2 2 0 4\n\
d a a Vdd! 8 2 0 8\n\
C a GND! 1\n\
C Vdd! GND! 1\n\
C m GND! 1\n\
C GND! GND! 1\n\
C k GND! 1\n";

const ROWS: &[Row] = &[
    // Both states of both nodes.
    Row {
        circuit: INVERTER,
        vectors: b"set in 1\nphase\nshow out\nset in 0\nphase\nshow out\n",
        grades: &[
            (0, Zero, Some(3)),
            (0, One, Some(6)),
            (1, Zero, Some(6)),
            (1, One, Some(3)),
        ],
    },
    // A line that sets a stuck node under another name does nothing.
    Row {
        circuit: INVERTER,
        vectors: b"# in\n\nset other 1\nphase\nshow out\nset other 0\nphase\nshow out\n",
        grades: &[
            (0, Zero, Some(5)),
            (0, One, Some(8)),
            (1, Zero, Some(8)),
            (1, One, Some(5)),
        ],
    },
    // One state alone.
    Row {
        circuit: INVERTER,
        vectors: b"set in 1\nphase\nshow out\n",
        grades: &[
            (0, Zero, Some(3)),
            (0, One, None),
            (1, Zero, None),
            (1, One, Some(3)),
        ],
    },
    // Nothing is shown.
    Row {
        circuit: INVERTER,
        vectors: b"set in 1\nphase\n",
        grades: UNDETECTED,
    },
    // Nothing is run before.
    Row {
        circuit: INVERTER,
        vectors: b"set in 1\nshow in\nphase\n",
        grades: UNDETECTED,
    },
    // X tells nothing apart, nor does what is told apart from X.
    Row {
        circuit: INVERTER,
        vectors: b"set in X\nphase\nshow in out\n",
        grades: UNDETECTED,
    },
    // What is set after the phase counts too.
    Row {
        circuit: INVERTER,
        vectors: b"set in 1\nphase\nset in 0\nshow in out\n",
        grades: &[
            (0, Zero, Some(4)),
            (0, One, Some(4)),
            (1, Zero, None),
            (1, One, Some(4)),
        ],
    },
    // A line that frees a stuck node does nothing, nor one that gives it a size.
    Row {
        circuit: INVERTER,
        vectors: b"set in 1\nphase\nfree in\nset in 0\nsize in 3\nphase\nshow in out\n",
        grades: &[
            (0, Zero, None),
            (0, One, Some(7)),
            (1, Zero, Some(7)),
            (1, One, None),
        ],
    },
    // The first of two lines is told.
    Row {
        circuit: INVERTER,
        vectors: b"set in 0\nphase\nshow out\nset in 1\nphase\nshow out\nshow out\n",
        grades: &[
            (0, Zero, Some(6)),
            (0, One, Some(3)),
            (1, Zero, Some(3)),
            (1, One, Some(6)),
        ],
    },
    // Where `k` is stuck at 1, `a` is X at rest.
    Row {
        circuit: OWN_PULL_DOWN,
        vectors: b"set k 0\nphase\nshow a\n",
        grades: &[
            (0, Zero, Some(3)),
            (0, One, None),
            (2, Zero, None),
            (2, One, None),
            (4, Zero, None),
            (4, One, None),
        ],
    },
    // What is shown of a stuck node itself counts.
    Row {
        circuit: OWN_PULL_DOWN,
        vectors: b"set k 0\nphase\nshow a k\n",
        grades: &[
            (0, Zero, Some(3)),
            (0, One, None),
            (2, Zero, None),
            (2, One, None),
            (4, Zero, None),
            (4, One, Some(3)),
        ],
    },
    // An earlier phase doesn't help where the last one did not settle: without a fault `a` oscillates in the second phase. Stuck at 1,
    // `k` leaves `a` at rest in X, so it's told apart at the end alone.
    Row {
        circuit: OWN_PULL_DOWN,
        vectors: b"set k 0\nphase\nset k 1\nphase\nshow k\nset k 0\nphase\nshow k\n",
        grades: &[
            (0, Zero, None),
            (0, One, None),
            (2, Zero, None),
            (2, One, None),
            (4, Zero, None),
            (4, One, Some(8)),
        ],
    },
];

/// No fault of the inverter is detected.
const UNDETECTED: &[(u32, Level, Option<u32>)] = &[
    (0, Zero, None),
    (0, One, None),
    (1, Zero, None),
    (1, One, None),
];

/// The network of sim records, as it is made, where it has one.
fn network_of(alloc: Global, sim: &SimFile) -> Option<NamedNet>
    requires { All HasLetter sim.now.fets }
    ensures { IfSome result (λ named. IsFresh (network_in named.net) named.names) }
{
    net_of(alloc, sim).ok()
}

/// The network of a sim text, as it is made, where it has one.
fn network(alloc: Global, text: &[u8]) -> Option<NamedNet>
    ensures { IfSome result (λ named. IsFresh (network_in named.net) named.names) }
{
    read_records_have_letters();
    let sim = read_sim(alloc, text).ok()?;
    network_of(alloc, &sim)
}

/// The vectors of a text, where there are any, on a network.
fn vectors(alloc: Global, text: &[u8], named: &NamedNet) -> Option<Vectors>
    ensures { IfSome result (IsWithin named.now) }
{
    read_vectors(alloc, text, named).ok()
}

/// The header of a sim text.
const HEADER: &[u8] = b"| units: 1 tech: nm format: MIT\n";

/// What vectors show where a node is stuck: the line, the name, the state, and whether the last phase settled.
const SEEN: &[(u32, &[u8], Level, bool)] = &[
    (2, b"in", Zero, false),
    (2, b"out", X, false),
    (4, b"out", One, true),
    (4, b"other", Zero, true),
    (6, b"in", Zero, true),
];

fn are_graded(grades: &[Graded], want: &[(u32, Level, Option<u32>)]) -> bool {
    if grades.len() != want.len() {
        return false;
    }
    for (graded, (node, value, line)) in grades.iter().zip(want) {
        if graded.node != *node || graded.value != *value || graded.line != *line {
            return false;
        }
    }
    true
}

fn holds(alloc: Global, row: Row) -> Option<bool> {
    let mut named = network(alloc, row.circuit)?;
    let vectors = vectors(alloc, row.vectors, &named)?;
    let grades = grade(alloc, &mut named, &vectors, BUDGET).ok()?;
    Some(are_graded(&grades, row.grades))
}

#[test]
fn rows_hold(rt: HostRuntime) -> Result<(), Fail> {
    for row in ROWS {
        let held = holds(rt.alloc(), *row).unwrap_or(false);
        assert!(rt; held);
    }
    Ok(())
}

/// A text of so many nodes without a transistor.
fn text_of_nodes(alloc: Global, count: usize) -> Result<Vec<u8>, AllocError> {
    let mut text = Vec::from_slice(alloc, HEADER)?;
    for node in 0..count {
        text.extend_from_slice(b"C n")?;
        append_decimal(&mut text, node as i128)?;
        text.extend_from_slice(b" GND! 0\n")?;
    }
    Ok(text)
}

/// Whether a network of so many nodes has too many faults.
fn is_refused(alloc: Global, count: usize) -> Option<bool> {
    let text = text_of_nodes(alloc, count).ok()?;
    let mut named = network(alloc, &text)?;
    let vectors = vectors(alloc, b"phase\n", &named)?;
    Some(matches!(
        grade(alloc, &mut named, &vectors, BUDGET),
        Err(GradeFault::TooManyFaults)
    ))
}

#[test]
fn too_many_faults_are_refused(rt: HostRuntime) -> Result<(), Fail> {
    let refused = is_refused(rt.alloc(), MOST_FAULTS / 2 + 1).unwrap_or(false);
    assert!(rt; refused);
    Ok(())
}

/// Whether a node may be stuck.
fn may_be_stuck(named: &NamedNet, node: u32) -> bool
    ensures { result ≡ true → IsChangeable named.now.names named.now.net.nodes node }
{
    node < named.net.nodes && !rails_of(named).has(node)
}

fn is_seen(seen: &Seen, line: u32, name: &[u8], value: Level, settled: bool) -> bool {
    seen.line == line && seen.name.bytes() == name && seen.value == value && seen.settled == settled
}

fn are_seen(seen: &[Seen], want: &[(u32, &[u8], Level, bool)]) -> bool {
    if seen.len() != want.len() {
        return false;
    }
    for (one, (line, name, value, settled)) in seen.iter().zip(want) {
        if !is_seen(one, *line, name, *value, *settled) {
            return false;
        }
    }
    true
}

/// What vectors on the inverter show where its node `in` is stuck at 0, if they can be run.
fn seen_of(alloc: Global, text: &[u8]) -> Option<Vec<Seen>> {
    let mut named = network(alloc, INVERTER)?;
    let vectors = vectors(alloc, text, &named)?;
    if !may_be_stuck(&named, 0) {
        return None;
    }
    let fault = StuckFault {
        node: 0,
        value: Zero,
    };
    watch(alloc, &mut named, &vectors, BUDGET, Some(fault)).ok()
}

#[test]
fn a_stuck_node_is_an_input_from_the_start(rt: HostRuntime) -> Result<(), Fail> {
    let vectors = b"set in 1\nshow in out\nphase\nshow out other\nfree in\nshow in\n";
    let seen = match seen_of(rt.alloc(), vectors) {
        Some(seen) => are_seen(&seen, SEEN),
        None => false,
    };
    assert!(rt; seen);
    Ok(())
}
