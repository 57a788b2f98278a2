//! The names of a sim file, each once.
ghost use Rattle.std.specs.Prelude.{◌≡◌, [], ◌∷◌, map, IfOk, OnOk};
ghost use Rattle.switch_net.specs.SimRecords.{names_of_aliases, names_of_transistors};
ghost use Rattle.sim_networks.specs.SimNetworks.{transistor_of};
ghost use Rattle.sim_networks.specs.steps.Numbering.{AddsNames, AreIndexed, AreNamesOf};

use crate::adding::put;
use name_index::NameIndex;
use names_lists::Name;
use sim_text::{SimFet, SimFile};
use std::alloc::{AllocError, Global};

/// Names in the order in which they were met, each once. The index finds the number of a name, and the list has the name of a number.
#[derive(Drop)]
pub struct NodeNames {
    pub index: NameIndex,
    pub names: Vec<Name>,
}

impl NodeNames {
    // Adds a name where it is new.
    fn add(&mut self, alloc: Global, name: &Name) -> Result<(), AllocError>
        requires { AreIndexed self.old }
        ensures { OnOk result (AddsNames (name.now ∷ []) self.old self.new) }
    {
        if self.index.insert(name.bytes())? {
            put(&mut self.names, name.copy(alloc)?)?;
        }
        Ok(())
    }

    // Adds the names of the nodes of capacitances.
    fn add_caps(&mut self, alloc: Global, caps: &[(Name, i128)]) -> Result<(), AllocError>
        requires { AreIndexed self.old }
        ensures { OnOk result (AddsNames (map (λ cap. cap.0) caps.now) self.old self.new) }
    {
        for cap in caps {
            self.add(alloc, &cap.0)?;
        }
        Ok(())
    }

    // Adds the names at the gate, the source and the drain of a transistor.
    fn add_terminals(&mut self, alloc: Global, fet: &SimFet) -> Result<(), AllocError>
        requires { AreIndexed self.old }
        ensures { OnOk result (AddsNames (fet.now.gate ∷ fet.now.source ∷ fet.now.drain ∷ []) self.old self.new) }
    {
        self.add(alloc, &fet.gate)?;
        self.add(alloc, &fet.source)?;
        self.add(alloc, &fet.drain)?;
        Ok(())
    }

    // Adds the names at the terminals of each transistor.
    fn add_fets(&mut self, alloc: Global, fets: &[SimFet]) -> Result<(), AllocError>
        requires { AreIndexed self.old }
        ensures { OnOk result (AddsNames (names_of_transistors (map transistor_of fets.now)) self.old self.new) }
    {
        for fet in fets {
            self.add_terminals(alloc, fet)?;
        }
        Ok(())
    }

    // Adds the two names of an alias.
    fn add_pair(&mut self, alloc: Global, pair: &(Name, Name)) -> Result<(), AllocError>
        requires { AreIndexed self.old }
        ensures { OnOk result (AddsNames (pair.now.0 ∷ pair.now.1 ∷ []) self.old self.new) }
    {
        self.add(alloc, &pair.0)?;
        self.add(alloc, &pair.1)?;
        Ok(())
    }

    // Adds the names of each alias.
    fn add_aliases(&mut self, alloc: Global, aliases: &[(Name, Name)]) -> Result<(), AllocError>
        requires { AreIndexed self.old }
        ensures { OnOk result (AddsNames (names_of_aliases aliases.now) self.old self.new) }
    {
        for pair in aliases {
            self.add_pair(alloc, pair)?;
        }
        Ok(())
    }

    // No names. It takes no memory.
    fn empty(alloc: Global) -> NodeNames
        ensures indexed { AreIndexed result }
        ensures index { result.index ≡ [] }
    {
        NodeNames {
            index: NameIndex::new(alloc),
            names: Vec::new(alloc),
        }
    }

    /// The names of a sim file: those of capacitances, then those of transistors, and then those of aliases.
    pub fn of(alloc: Global, sim: &SimFile) -> Result<NodeNames, AllocError>
        ensures { IfOk result (AreNamesOf sim.now) }
    {
        let mut names = NodeNames::empty(alloc);
        names.add_caps(alloc, sim.caps.items())?;
        names.add_fets(alloc, sim.fets.items())?;
        names.add_aliases(alloc, sim.aliases.items())?;
        Ok(names)
    }
}
