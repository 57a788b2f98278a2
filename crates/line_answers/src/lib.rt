//! What answers a line of a script: replies, refusals, and the texts that several commands share.
//!
//! A `Refusal` is the text that refuses a line, with what that comes from. Each command makes those of its own faults; those of the session,
//! of its cells and of its files stand here.
#![tactic(auto)]

mod refusals;
mod replies;
mod texts;

pub use refusals::{
    Refusal, at_line, cell_exists, cycle, file_refusal, named, no_cell, no_layer, out_of_range,
    too_many, two_named, worded,
};
pub use replies::{
    file_name, joined, one_line, one_store, refuse, refuse_file, refuse_no_cell, refuse_no_tech,
    refuse_too_many, refused_line, reply, told,
};
pub use texts::{append_bounds, append_count, append_two, append_with_name};
