//! The laws that a flat circuit can be simulated: its network has no more nodes than there may be, each of its transistors has a letter that
//! makes a switch, and the nodes of the network are those of the circuit. The functions here do nothing; their contracts are the laws.
//!
//! # How the proof goes
//!
//! A switch has the letter and the gate of its transistor, and leads between two of its terminals (`FetSwitches`). Gates and terminals
//! of a flat transistor are named by nodes of the circuit, since those of a lawful record's are nodes of the record, and each full name
//! is some flat node's; so each name in the sim records is a name of a node of the circuit (`FlatNames`). That node's preferred name is
//! given by a node record of some element. Two names for which it is the same record are of nodes that share a full name, so alias lines
//! join them: names of different nodes come from different records, and there are no more of these than a tree may have (`FewNodes`,
//! `LawfulElements`).
//!
//! Names that alias lines join are of one flat node, and the preferred name of a node is its least; so no two preferred names are joined, and
//! each node of the network has one of them. Nodes are numbered by the first places of their names, which are those of the preferred names
//! (`FlatNumbers`).
//!
//! The kind of a transistor of a flat layout is a name that the technology gives, whose first letter its rules bound (`FlatLetters`).

ghost use Rattle.circuit_laws.specs.NetworkLaws.{FlatCircuitsHaveLetters, FlatNetworksFit, FlatNetworksHaveTheNodes};

use tech_model::Tech;

/// The network of the flat circuit of lawful records has no more nodes than a network may have.
pub fn flat_networks_fit()
    ensures { FlatNetworksFit }
{}

/// Each transistor of the circuit of a flat layout of this technology has a letter that makes a switch.
pub fn flat_circuits_have_letters(tech: &Tech)
    ensures { FlatCircuitsHaveLetters tech.now }
{
    let _ = tech.raw();
}

/// The nodes of the network of the flat circuit of lawful records are those of the circuit, in the same order.
pub fn flat_networks_have_the_nodes()
    ensures { FlatNetworksHaveTheNodes }
{}
