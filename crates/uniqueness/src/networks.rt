//! The laws that the networks of sim records are held to: there is one network of given records, and a text of vectors replies one thing
//! on it. The functions here do nothing; their contracts are the laws.
//!
//! # How the proof goes
//!
//! Two networks of the same records, with their names, are laid side by side: a node of the one and a node of the other share a name or
//! not, and each node shares names with exactly one. Nodes that share a name are first met at one place of the records, so of two nodes
//! that share names with two others the lesser does so with the lesser: the numbering of the one network rises strictly into that of the
//! other, and the other into it. So no number is greater than the one beside it, a name has one node in both, and all else of a network
//! follows node by node and switch by switch (`SameNetworks`). That there is a least place is needed only against what would contradict
//! it, so it is shown in that form.
//!
//! The order in which names are listed is not fixed by what a network of records is, nor how often a name is listed. What a line of a
//! vector file says is found by names that have one node each, so it is the same for both lists (`AlikeNames`); and so are the states in
//! which a network begins (`SameReplies`), and which nodes are power and ground, so that a line detects a fault for both or for neither
//! (`SameGrades`). The rest are the laws of runs and of grades.
//!
//! Names that are pairwise of different nodes have as many different nodes, and each node has a name (`CountedNodes`).

ghost use Rattle.uniqueness.specs.Networks.{NetworksAreUnique, NodesAreCounted};
ghost use Rattle.uniqueness.specs.VectorRuns.{FaultsAreUnique, GradesAreUnique, RepliesAreUnique, VectorFilesAreUnique};

use network_commands::fault_grade::grades_are_unique;
use vector_runs::runs_are_unique;

/// Sim records have one network, whose nodes are numbered in their order. The lists of its names have the same elements.
pub fn networks_are_unique()
    ensures { NetworksAreUnique }
{}

/// Sim records that have a network have more nodes than so many exactly where the network has.
pub fn nodes_are_counted()
    ensures { NodesAreCounted }
{}

/// A text is read as one list of vectors, or has one first fault, whichever list of the names it is read with.
pub fn vector_files_are_unique()
    ensures { VectorFilesAreUnique }
{}

/// Vectors that are read have one list of replies on the network of sim records.
pub fn replies_are_unique()
    ensures { RepliesAreUnique }
{
    runs_are_unique();
}

/// The network of sim records has one list of faults, and vectors that are read have one list of grades on it.
pub fn fault_grades_are_unique()
    ensures faults { FaultsAreUnique }
    ensures grades { GradesAreUnique }
{
    grades_are_unique();
}
