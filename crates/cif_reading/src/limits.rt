//! The limits of numbers in CIF texts. Clauses read them by their names.

/// The greatest number of a symbol's scale.
pub const MOST_FACTOR: u64 = 1_000_000;

/// Numbers that are scaled are at most this in absolute value: twice an edge of a box is.
pub const MOST_SCALED: u64 = 3 << 31;
