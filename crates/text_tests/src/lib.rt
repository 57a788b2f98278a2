//! Tests of the public calls that read and write texts: lines and words, sim files, ext files and scripts.
#![tactic(auto)]

#[cfg(test)]
mod circuit_reading;
#[cfg(test)]
mod circuit_records;
#[cfg(test)]
mod circuit_texts;
#[cfg(test)]
mod last_lines;
#[cfg(test)]
mod scans;
#[cfg(test)]
mod script_texts;
#[cfg(test)]
mod sim_sizes;
#[cfg(test)]
mod sim_texts;
