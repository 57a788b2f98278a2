//! The lines of a script, each of which asks for one command or is refused.
//!
//! What a line may be stands in two tables of `specs/Commands.antt`: what the further words of each command are to be, and which command
//! they make. `specs/Arguments.antt` says what each kind of word is, and in which order the faults of a line count: a word that is not of
//! its form comes before every number out of its range, wherever the two stand. So numbers are read before the rest of a line, and
//! are found to be out of their range after it.
//!
//! # How the proof goes
//!
//! A line is read word by word, and its definition judges all words at once: their forms, then their ranges. `ReadLaws` ties the two: where
//! the first word is as it is to be, the others decide, with their fault or their arguments, so a function that reads a word and passes the
//! rest on has one law for each of its ways out. The numbers at the front of a line are counted by `FrontLaws`, one more in each turn of
//! the loop, and whether a word is a number of any size, of 64 bits or of 32 is told apart in `NumberForms`. A label alone has numbers in
//! front of a word that is no number, so its seven words are judged as a whole in `LabelLaws`. The number of `generate` has a narrower range
//! than other numbers, and is read as one of them first. What is read has passed the tests of its kind, so the fields of a command are of
//! their forms (`FormLaws`).
#![tactic(auto)]

mod arguments;
mod commands;
mod faults;
mod limits;
mod reading;
mod readings;
mod verbs;

pub use commands::Command;
pub use faults::LineFault;
pub use limits::{GREATEST_NUMBER, LEAST_NUMBER, MOST_GENERATED};
pub use reading::read_line;
pub use verbs::{VERBS, Verb};
