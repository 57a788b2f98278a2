//! What any session of lines is, apart from what a line does: its effects, its report, and its runs.
//!
//! A `Session` says what one line means, and answers it. `run_lines` runs a script of lines over it: their stores, their
//! report, and why it ends. What is proved of a run is proved once, over any meaning of one line. `fetch_text` is what asking for a file
//! gives, whichever line asks. `FileTrees` says in which order files are read that lead to others, of whatever kind, and `Stop` is what ends
//! a reading before all are read.
//!
//! # How the proof goes
//!
//! What lines did is a list of effects, one for each, and what is reported, stored and fetched in all are the lists of these, joined
//! (`EffectLaws`). The loop in `run_lines` keeps one record, `UnderWay`: the lines so far, the effects that they had, and that the report, the
//! files and the count of fetches are those after them. `ProgressLaws` has its uses: it begins, it goes on by a line, and at the end, or where a
//! line stops, it is how far the run came. Stores are made one by one, so a stop among them is found by going back over those
//! that were made (`StoreLaws`). Refusals for files are counted line by line (`CountedLaws`), and what a halt comes from is passed on (`CauseLaws`).
//!
//! Where each line has one effect, the effects of the lines that were done are those that every session of the script begins with; so it was cut
//! short in the next line (`SessionLaws`). Over other files that agree on what is fetched each line has the effect that it had, and files that
//! differ only under names that are stored are one after all stores (`RerunLaws`).
//!
//! A reading of a tree of files is taken apart by its definition, case by case (`FileTreeLaws`). Each case but one is ruled out by whether the
//! name is known and by what its file gives, so there is one end; and each file that decides a case is among those that are asked for.
#![tactic(auto)]

mod answer;
mod fetching;
mod file_trees;
mod laws;
mod report;
mod running;
mod session;
mod stops;

pub use answer::{Answer, Halt, Store};
pub use fetching::{FetchFault, Fetched, fetch_text};
pub use file_trees::{reading_is_one, reading_rests_on_fetched};
pub use laws::{
    cut_short_is_made_good, refusals_are_counted_together, session_is_the_same_again,
    what_is_cut_short_begins_the_whole,
};
pub use report::{Cause, LineKind, ReportLine, is_told, report_text};
pub use running::{run_lines, write_text};
pub use session::Session;
pub use stops::Stop;
