//! The top call of `magex`: a script, line by line, over a technology, a library of cells, files and a report.
//!
//! # How the proof goes
//!
//! What a command answers stands in the crates below, each with its definition. `RunSession` is a `Session` by them, so that `session_model` runs
//! the script; `RunLaws` has what is left for `run`: the words, the script that is too long, and the status. `RestLaws`: what each command does rests
//! on the files alone that it fetches. `OneLine`: each line has one effect, by the laws of the commands.
#![tactic(auto)]

mod laws;
mod session;
mod status;
mod top_call;

pub use laws::{lines_have_one_effect, sessions_are_made_good};
pub use status::Status;
pub use top_call::run;
