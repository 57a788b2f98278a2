//! The command that runs vectors on the network of a sim file: `simrun`.
#![tactic(auto)]

mod command_simrun;
mod refusals;

pub use command_simrun::simrun;
pub use network_runs::fault_grade;
