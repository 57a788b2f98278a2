//! How much is read. Clauses read the limits by their names.

/// How many cells a tree of circuit files may have.
pub const MOST_READ_CELLS: usize = 65_535;
