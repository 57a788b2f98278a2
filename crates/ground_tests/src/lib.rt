//! Tests of the public calls on orders of uses, arenas, the records of cells, and files and devices: tables worked by hand.
#![tactic(auto)]

#[cfg(test)]
mod arena_calls;
#[cfg(test)]
mod arena_many;
#[cfg(test)]
mod order_questions;
#[cfg(test)]
mod outside_calls;
#[cfg(test)]
mod record_copies;
#[cfg(test)]
mod record_many;
#[cfg(test)]
mod record_names;
#[cfg(test)]
mod record_tables;
