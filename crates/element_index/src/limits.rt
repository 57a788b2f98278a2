//! How the squares of names lie. Clauses read them by their names.

/// How many ids an index may have, so that the rows of their squares fit 64 bits.
pub const MOST_IDS: usize = 1 << 29;

/// How many rows of squares an id has: as many as there are second indices.
pub const ROWS_OF_AN_ID: i64 = 1 << 32;

/// The column of the names without indices, past all first indices.
pub const WHOLE_COLUMN: i64 = 1 << 32;
