//! The nodes of the names of a sim file.
ghost use Rattle.std.specs.Prelude.{◌≡◌, ◌≢◌, ◌≤◌, ◌<◌, length, map, All, IfOk, MatchOption};
ghost use Rattle.finite_sets.specs.Lists.{In};
ghost use Rattle.partition.specs.Divides.{Divides, IsPair};
ghost use Rattle.partition.specs.Marks.{IsNumbered};
ghost use Rattle.switch_net.specs.declared.limits.TheConstants.{MOST_NODES};
ghost use Rattle.switch_net.specs.Names.{HasName};
ghost use Rattle.sim_networks.specs.SimNetworks.{records_of};
ghost use Rattle.sim_networks.specs.steps.Numbering.{AreKnown, IsTable, IsTableOf, names_with_nodes, number_in, numbers_in};

use crate::adding::put;
use crate::names::NodeNames;
use name_index::NameIndex;
use names_lists::{List, Name};
use partition::{Labelling, Partition};
use sim_text::SimFile;
use std::alloc::{AllocError, Global};

/// Names with their nodes.
#[derive(Drop)]
pub struct NodeTable {
    pub names: NodeNames,
    /// At the number of each name, its node.
    pub labels: Vec<usize>,
    /// How many nodes there are.
    pub count: usize,
}

// The number of a name that is known.
fn number(index: &NameIndex, name: &Name) -> usize
    ensures { result ≡ number_in index.now name.now }
{
    index.find(name.bytes()).unwrap_or(0)
}

// The labels of the names: those that aliases join have one.
fn joined(
    alloc: Global,
    index: &NameIndex,
    aliases: &[(Name, Name)],
) -> Result<Labelling, AllocError>
    requires { All (AreKnown index.now) aliases.now }
    ensures long { IfOk result (λ made. length made.labels.items ≡ length index.now) }
    ensures numbered { IfOk result (λ made. IsNumbered made.labels.items made.count) }
    ensures divides { IfOk result (λ made. Divides made.labels.items (IsPair (map (numbers_in index.now) aliases.now))) }
{
    let mut partition = Partition::new(alloc, index.len())?;
    for pair in aliases {
        partition.join(number(index, &pair.0), number(index, &pair.1));
    }
    Ok(partition.into_labels())
}

impl NodeTable {
    /// The nodes of a sim file: one for each class of names that its aliases join.
    pub fn of(alloc: Global, sim: &SimFile) -> Result<NodeTable, AllocError>
        ensures { IfOk result (IsTableOf (records_of sim.now)) }
    {
        let names = NodeNames::of(alloc, sim)?;
        let Labelling { labels, count } = joined(alloc, &names.index, sim.aliases.items())?;
        Ok(NodeTable {
            names,
            labels,
            count,
        })
    }

    /// The node with a name, if the name is in the table.
    pub fn node(&self, name: &[u8]) -> Option<u32>
        requires table { IsTable self.now }
        requires few { self.now.count ≤ MOST_NODES }
        ensures { MatchOption result (¬ (In name.now self.now.names.index)) (λ v. HasName (names_with_nodes self.now) v name.now) }
    {
        let number = self.names.index.find(name)?;
        Some(self.labels[number] as u32)
    }

    // The names, each with its node.
    fn listed(&self, alloc: Global) -> Result<Vec<(Name, u32)>, AllocError>
        requires table { IsTable self.now }
        requires few { self.now.count ≤ MOST_NODES }
        ensures { IfOk result (λ listed. listed.items ≡ names_with_nodes self.now) }
    {
        let mut listed = Vec::with_capacity(alloc, self.labels.len())?;
        for (number, label) in self.labels.iter().enumerate() {
            let name = self.names.names[number].copy(alloc)?;
            put(&mut listed, (name, *label as u32))?;
        }
        Ok(listed)
    }

    /// The names, each with its node, in the order in which they were met.
    pub fn all_names(&self, alloc: Global) -> Result<List<(Name, u32)>, AllocError>
        requires table { IsTable self.now }
        requires few { self.now.count ≤ MOST_NODES }
        ensures { IfOk result (λ names. names ≡ names_with_nodes self.now) }
    {
        Ok(List::of(self.listed(alloc)?))
    }
}
