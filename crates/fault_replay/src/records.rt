//! What is kept of a run.

use names_lists::List;
use switch_net::Level;

/// What is kept of a phase: the changes of each step, where it settled, and else the states in which it ended.
#[derive(Debug, Drop)]
pub enum PhaseRecord {
    Steps(List<List<(u32, Level)>>),
    Jump(List<Level>),
}
