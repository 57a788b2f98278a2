//! How many faults may be graded.

/// The most faults of a network that is graded.
pub const MOST_FAULTS: usize = 1 << 16;
