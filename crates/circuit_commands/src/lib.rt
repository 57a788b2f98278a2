//! `ext2sim`, and the files of circuits that it, `flat` and `sim` write.
#![tactic(auto)]

mod circuits;
mod command_ext2sim;
mod given;
mod limits;
mod refusals;

pub use circuit_laws;
pub use circuits::{CircuitFile, Written, write_flat_file, written_alone};
pub use command_ext2sim::ext2sim;
pub use ext_loading;
pub use given::{SimFets, write_given};
pub use limits::{Limit, circuit_limit_word};
