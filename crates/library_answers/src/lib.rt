//! What answers the commands that read and change the library: their replies, why they are refused, and the lines that tell which squares of a
//! cell offend, for the commands that look for them and for those that are refused because of them.
#![tactic(auto)]

mod fault_codes;
mod offending;
mod refusals;
mod replies;

pub use cell_loading::mag_text;
pub use hier_merge;
pub use offending::offending_lines;
pub use refusals::{
    refuse_edit, refuse_generate, refuse_load, refuse_tech, refuse_tech_again, refuse_undo,
};
pub use replies::{loaded, ok, tech_reply};
pub use undo_log;
