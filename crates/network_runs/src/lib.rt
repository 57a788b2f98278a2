//! What runs on a network of switches: vectors on the network of sim records or of a circuit, their grades by stuck faults, and the nodes of
//! a stack.
#![tactic(auto)]

mod grading;
mod laws;
mod network_runs;
mod refusals;
mod simulations;

pub use fault_grade;
pub use laws::shown_lines_tell_steady_values;
pub use network_runs::{NetworkRun, run_circuit};
pub use refusals::{limit_passed, sim_limit_word};
pub use simulations::{MadeNet, make_network, vector_lines};
