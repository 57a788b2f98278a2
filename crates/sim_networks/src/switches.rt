//! The switches of the transistors of a sim file.
ghost use Rattle.std.specs.Prelude.{◌≡◌, ◌≢◌, ◌≤◌, true, map, All, IfOk};
ghost use Rattle.finite_sets.specs.Lists.{In};
ghost use Rattle.sim_text.specs.Parts.{is_letter};
ghost use Rattle.switch_net.specs.declared.limits.TheConstants.{MOST_NODES};
ghost use Rattle.switch_net.specs.Names.{HasName};
ghost use Rattle.switch_net.specs.SimRecords.{AreTransistors, IsLetterOf, IsTransistor};
ghost use Rattle.sim_networks.specs.SimNetworks.{HasLetter, transistor_of};
ghost use Rattle.sim_networks.specs.steps.Numbering.{HasTerminals, IsTable, names_with_nodes};

use crate::adding::put;
use crate::nodes::NodeTable;
use names_lists::Name;
use sim_text::SimFet;
use std::alloc::{AllocError, Global};
use switch_net::{Switch, SwitchKind};

// The kind of the switch of a transistor with this letter.
fn kind_of(letter: u8) -> SwitchKind
    requires { is_letter letter ≡ true }
    ensures { IsLetterOf letter result }
{
    match letter {
        b'p' => SwitchKind::P,
        b'd' => SwitchKind::D,
        _ => SwitchKind::N,
    }
}

// The node with a name of the table.
fn known_node(table: &NodeTable, name: &Name) -> u32
    requires table { IsTable table.now }
    requires few { table.now.count ≤ MOST_NODES }
    requires known { In name.now table.now.names.index }
    ensures { HasName (names_with_nodes table.now) result name.now }
{
    table.node(name.bytes()).unwrap_or(0)
}

// The switch of a transistor.
fn switch_of(table: &NodeTable, fet: &SimFet) -> Switch
    requires table { IsTable table.now }
    requires few { table.now.count ≤ MOST_NODES }
    requires letter { HasLetter fet.now }
    requires terminals { HasTerminals table.now.names.index (transistor_of fet.now) }
    ensures { IsTransistor (names_with_nodes table.now) (transistor_of fet.now) result }
{
    Switch {
        kind: kind_of(fet.letter),
        gate: known_node(table, &fet.gate),
        left: known_node(table, &fet.source),
        right: known_node(table, &fet.drain),
    }
}

/// A switch for each transistor, in order. The names of their terminals are in the table. Want of memory alone refuses.
pub fn switches_of(
    alloc: Global,
    table: &NodeTable,
    fets: &[SimFet],
) -> Result<Vec<Switch>, AllocError>
    requires table { IsTable table.now }
    requires few { table.now.count ≤ MOST_NODES }
    requires letters { All HasLetter fets.now }
    requires terminals { All (λ fet. HasTerminals table.now.names.index (transistor_of fet)) fets.now }
    ensures { IfOk result (λ switches. AreTransistors (names_with_nodes table.now) (map transistor_of fets.now) switches.items) }
{
    let mut switches = Vec::with_capacity(alloc, fets.len())?;
    for fet in fets {
        put(&mut switches, switch_of(table, fet))?;
    }
    Ok(switches)
}
