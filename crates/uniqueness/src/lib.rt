//! What is said of a thing determines it: each law says that what a definition holds of is one value. The functions here do nothing; their
//! contracts are the laws, and each module tells how its proofs go.
//!
//! From the bottom up: the record of a cell's own paint and labels, the records of a clean cell and of all below it, the same for a cell of a
//! library, what edits of a library and its cells are held to, what `load` gives, the circuits that records mean and `ext2sim`, the networks
//! of sim records, and runs of vectors with `simrun`.
#![tactic(auto)]

mod circuits;
mod libraries;
mod library_records;
mod loads;
mod networks;
mod own_records;
mod records;
mod simulations;

pub use cell_loading;
pub use circuit_commands;
pub use circuits::{
    circuit_trees_are_unique, ext2sim_means_one_effect, flat_circuits_are_unique,
    written_circuits_are_unique,
};
pub use edit_script;
pub use libraries::{
    cell_texts_are_unique, command_outcomes_are_unique, hulls_are_unique,
    library_faults_are_unique, offending_squares_are_unique, unclean_cells_are_unique,
};
pub use library_records::record_is_unique;
pub use loads::loads_are_unique;
pub use network_commands;
pub use networks::{
    fault_grades_are_unique, networks_are_unique, nodes_are_counted, replies_are_unique,
    vector_files_are_unique,
};
pub use own_records::{
    fet_records_are_unique, node_records_are_unique, own_records_are_unique,
    unattached_texts_are_unique,
};
pub use records::{group_merges_are_unique, records_of_trees_are_unique, tree_records_are_unique};
pub use simulations::{
    circuit_answers_are_unique, network_answers_are_unique, sim_networks_are_unique,
    simrun_means_one_effect, vector_answers_are_unique,
};
