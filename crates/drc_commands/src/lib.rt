//! The command `drc`, once there is the cell: it tells where the cell violates the design rules of a file, and leaves the library as it is.
#![tactic(auto)]

mod command_drc;
mod laws;
mod refusals;
mod violation_lines;

pub use command_drc::drc;
pub use laws::drc_means_one_effect;
