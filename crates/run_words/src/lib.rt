//! The words after the program's name: `--quiet` and `--budget N` or `--budget=N`, each once at most, in any order.
//!
//! # How the proof goes
//!
//! `clap` says of each list of words which matches it has, or which faults, by a walk over them. Words that no words of the form have are
//! refused before it is asked, so in its walk there are four kinds of words (`Known` in `WalkLaws`), and it stands between two options,
//! behind a `--budget`, or behind that one's number, which has no row yet (`At`). For each of these and each kind of word the next
//! place is the one that `with_word` gives, or both come to nothing (`agrees`). A second number is a fault in `clap` only where the next
//! word or the end comes, so from there on each way is followed to its fault (`doomed`). `ParseLaws` has what `clap` checks behind the
//! walk, and what its rows tell, and `BudgetLaws` that a budget is read as a number of 64 bits.
#![tactic(auto)]

mod command_line;
mod limits;
mod words;

pub use limits::{DEFAULT_BUDGET, GREATEST_BUDGET};
pub use words::{RunWords, read_words};
