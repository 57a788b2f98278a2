//! The limits of this crate. Clauses read them by their names.

/// The greatest number of bytes of a flat file that is written: 64 MiB.
pub const LONGEST_TEXT: usize = 1 << 26;
