//! The laws that runs of vectors are held to: what is told of them, and what `simrun` does, is one. The functions here do nothing; their
//! contracts are the laws.
//!
//! # How the proof goes
//!
//! A sim file has one network by the law of networks. That there are too many nodes, or too many switches and no more nodes than there may
//! be, or neither, rules each of the others out (`SimLimits`). What answers vectors is told of their replies, which are one list by the law
//! of replies, or of the first fault (`VectorAnswers`). The vectors of a stack set nodes by their names, which are the same for both lists; they
//! fit the network as if its nodes had no names, so that their run has one end, and with the counts of its states one outcome
//! (`StackOutcomes`). A network has one list of faults, and vectors one list of grades (`CircuitAnswers`). What a file gives is one thing, so the cases of `simrun` are gone through side by
//! side (`SimrunEffects`).

ghost use Rattle.uniqueness.specs.Simulations.{CircuitAnswersAreUnique, NetworkAnswersAreUnique, NetworksPassNoLimit};
ghost use Rattle.uniqueness.specs.Simulations.{PassedLimitsAreUnique, SimNetworksAreUnique, SimrunMeansOneEffect, VectorAnswersAreUnique};

use crate::networks::{
    fault_grades_are_unique, networks_are_unique, replies_are_unique, vector_files_are_unique,
};

/// A sim file has one network, or its network would pass one limit.
pub fn sim_networks_are_unique()
    ensures networks { SimNetworksAreUnique }
    ensures limits { PassedLimitsAreUnique }
    ensures either { NetworksPassNoLimit }
{
    networks_are_unique();
}

/// What answers a text of vectors on the network of a sim file is one list of lines.
pub fn vector_answers_are_unique()
    ensures { VectorAnswersAreUnique }
{
    vector_files_are_unique();
    replies_are_unique();
}

/// The same, whichever network it is.
pub fn network_answers_are_unique()
    ensures { NetworkAnswersAreUnique }
{
    vector_answers_are_unique();
}

/// What answers a run on the network of a circuit is one list of lines.
pub fn circuit_answers_are_unique()
    ensures { CircuitAnswersAreUnique }
{
    networks_are_unique();
    vector_files_are_unique();
    fault_grades_are_unique();
    network_answers_are_unique();
}

/// `simrun` has one effect for each number of its line, each budget, and each of its files.
pub fn simrun_means_one_effect()
    ensures { SimrunMeansOneEffect }
{
    vector_answers_are_unique();
}
