//! The sim records of a circuit: its switches, capacitances and aliases.
#![tactic(auto)]

mod adding;
mod caps;
mod drafts;
mod laws;
mod limits;
mod records;
mod switches;

pub use drafts::{SimDraft, SimText};
pub use laws::sim_records_are_read_back;
pub use limits::MOST_SWITCHES;
pub use records::sim_of;
