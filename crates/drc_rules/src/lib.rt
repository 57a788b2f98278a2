//! Files of design rules: how wide the material of some types is to be, how far apart it is to lie, and how far from other material.
//!
//! # How the proof goes
//!
//! What a line says by itself is a definition whose steps are those of the code (`specs/RuleLines.antt`), so its readers need hardly a proof.
//! A file is read by the fold over lines that all texts share. Its state is the rules so far, since a rule too many is told where it
//! stands. What that fold answers is said once more without it, and both ways, in `proofs/FileLaws.antt`. That the rules are lawful for a
//! technology follows step by step from what each step of a line can give (`proofs/LawfulLines.antt`).
#![tactic(auto)]

mod entries;
mod faults;
mod laws;
mod limits;
mod line_forms;
mod lookups;
mod reading;
mod rules;

pub use faults::{DrcAt, DrcFault};
pub use laws::rule_files_say_their_rules_line_by_line;
pub use limits::{LARGEST_DISTANCE, MOST_RULES};
pub use reading::read_drc;
pub use rules::{Rule, RuleKind, Rules};
