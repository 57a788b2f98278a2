//! The limits of meetings. Clauses read them by their names.

/// More than the parts that there may be: a cell's own layout and a million elements are fewer.
pub const MOST_PARTS: usize = 1_048_576;
