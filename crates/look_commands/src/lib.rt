//! Commands that look at a cell of the library and leave the session as it is: `nodes`, `save` and `squares`.
#![tactic(auto)]

mod command_nodes;
mod command_save;
mod command_squares;
mod looks;

pub use library_answers::undo_log;
pub use looks::{Look, tell};
