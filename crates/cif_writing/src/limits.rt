//! The limits of this crate. Clauses read them by their names.

/// The greatest number of bytes of a text that is written: 64 MiB.
pub const LONGEST_TEXT: usize = 67_108_864;
