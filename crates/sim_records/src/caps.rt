//! The capacitances and aliases of nodes.
ghost use Rattle.std.specs.Prelude.{◌≡◌, ◌++◌, map, IfOk, OnOk};
ghost use Rattle.std.specs.List.{flat_map};
ghost use Rattle.sim_records.specs.SimRecords.{cap_of, aliases_of};

use crate::adding::add;
use crate::limits::ATTOFARADS_IN_A_UNIT;
use ext_model::NodeRec;
use names_lists::Name;
use std::alloc::{AllocError, Global};

/// The capacitance of a node, in units of a sim file.
pub fn cap_of(node: &NodeRec) -> i128
    ensures { result ≡ (cap_of node.now).1 }
{
    node.cap.div_euclid(ATTOFARADS_IN_A_UNIT)
}

/// The capacitance of each node, in units of a sim file.
pub fn caps_of(alloc: Global, nodes: &[NodeRec]) -> Result<Vec<(Name, i128)>, AllocError>
    ensures { IfOk result (λ caps. caps.items ≡ map cap_of nodes.now) }
{
    let mut caps = Vec::new(alloc);
    for node in nodes {
        add(&mut caps, (node.name.copy(alloc)?, cap_of(node)))?;
    }
    Ok(caps)
}

// Adds the aliases of a node, with its preferred name before each.
fn add_aliases(
    alloc: Global,
    aliases: &mut Vec<(Name, Name)>,
    node: &NodeRec,
) -> Result<(), AllocError>
    ensures { OnOk result (aliases.new.items ≡ aliases.old.items ++ aliases_of node.now) }
{
    for alias in node.aliases.items() {
        let pair = (node.name.copy(alloc)?, alias.copy(alloc)?);
        add(aliases, pair)?;
    }
    Ok(())
}

/// The aliases of each node, with its preferred name before each.
pub fn all_aliases(alloc: Global, nodes: &[NodeRec]) -> Result<Vec<(Name, Name)>, AllocError>
    ensures { IfOk result (λ aliases. aliases.items ≡ flat_map aliases_of nodes.now) }
{
    let mut aliases = Vec::new(alloc);
    for node in nodes {
        add_aliases(alloc, &mut aliases, node)?;
    }
    Ok(aliases)
}
