//! Tests of technologies, and of what is found in paint: nodes and their names, transistors, and the areas in which parts of a cell interact or offend.
#![tactic(auto)]

#[cfg(test)]
mod box_tests;
#[cfg(test)]
mod fet_tests;
#[cfg(test)]
mod naming_tests;
#[cfg(test)]
mod nm;
#[cfg(test)]
mod offence_tests;
#[cfg(test)]
mod overlay_tests;
#[cfg(test)]
mod rects;
#[cfg(test)]
mod rule_files;
#[cfg(test)]
mod technology_questions;
#[cfg(test)]
mod tree_tests;
#[cfg(test)]
mod whole_technologies;
