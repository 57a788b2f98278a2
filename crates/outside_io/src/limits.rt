//! The limits of this crate. Clauses read them by their names.

/// The greatest number of bytes of a file that is fetched: 16 MiB.
pub const LONGEST_FILE: usize = 1 << 24;

/// The last value of a count of calls, of faults and of other causes, at which it stands still.
pub const LAST_COUNT: u64 = u64::MAX;
