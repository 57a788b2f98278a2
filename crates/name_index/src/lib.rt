//! Names by numbers: each name once, in the order of arrival, and found by its bytes.
#![tactic(auto)]

mod index;

pub use index::NameIndex;
