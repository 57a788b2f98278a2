//! The laws that circuits and their files are held to: records that are reached alike mean one circuit, a tree of circuit files is read to
//! one end, and `ext2sim` does one thing. The functions here do nothing; their contracts are the laws.
//!
//! # How the proof goes
//!
//! The elements of a tree are found by going from the root through the uses, so they rest on the records of the cells that are reached, and
//! not on where these stand in a list or on what else does (`ReachedElements`). The rest is the law of circuits. The same holds of the fault
//! of records (`ReachedFaults`): the walk is bounded by how many records there are, but the cells that are open differ and have records, so
//! it ends before the bound, and chains without a fault do.
//!
//! A tree of files is read to one end by the law of such trees: to a file that is refused, or to all records. The cell that stands below
//! itself is the least that does, and it is one whose record was read, since no other uses anything (`CircuitTrees`). What is written of a
//! circuit is told apart by the limits that it passes (`WrittenCircuits`), and the cases of `ext2sim` are gone through side by side
//! (`Ext2simEffects`).

ghost use Rattle.uniqueness.specs.CircuitTrees.{CircuitTreesAreUnique, ReadTreesAreNotRefused, RefusedTreesAreUnique};
ghost use Rattle.uniqueness.specs.Ext2simEffects.{Ext2simMeansOneEffect, WrittenCircuitsAreUnique};
ghost use Rattle.uniqueness.specs.FlatCircuits.{FaultyRecordsHaveNoCircuit, FlatCircuitsAreUnique, FlatCircuitsHaveNoFault};
ghost use Rattle.uniqueness.specs.FlatCircuits.{FlatFaultsAreUnique};

use circuit_commands::circuit_laws::circuits_are_unique;
use circuit_commands::ext_loading::ExtLoadFault;
use ext_model::ArrayExt;
use session_model::reading_is_one;

/// The records that uses lead to from a root mean one circuit there, or have one fault, whatever else is listed with them.
pub fn flat_circuits_are_unique()
    ensures circuits { FlatCircuitsAreUnique }
    ensures faults { FlatFaultsAreUnique }
    ensures either { FlatCircuitsHaveNoFault }
    ensures other_way { FaultyRecordsHaveNoCircuit }
{
    circuits_are_unique();
}

/// The circuit files of a tree give one list of records, or are refused for one fault.
pub fn circuit_trees_are_unique()
    ensures records { CircuitTreesAreUnique }
    ensures faults { RefusedTreesAreUnique }
    ensures either { ReadTreesAreNotRefused }
{
    reading_is_one::<ArrayExt, ExtLoadFault>();
}

/// One thing is written of a circuit into a file of each kind.
pub fn written_circuits_are_unique()
    ensures { WrittenCircuitsAreUnique }
{}

/// `ext2sim` has one effect for each number of its line, and each of its cells and files.
pub fn ext2sim_means_one_effect()
    ensures { Ext2simMeansOneEffect }
{
    flat_circuits_are_unique();
    reading_is_one::<ArrayExt, ExtLoadFault>();
}
