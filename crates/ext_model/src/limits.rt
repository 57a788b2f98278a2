//! How many classes a record may have, and how large its numbers may be. Clauses read them by their names.

/// How many classes a record may have.
pub const MOST_CLASSES: usize = 16;

/// Capacitances, areas, perimeters and lengths are below this in absolute value.
pub const MEASURE_EDGE: u128 = 1 << 100;

/// The absolute values of the lengths of one transistor's terminals add up to less than this.
pub const LENGTHS_EDGE: u128 = 1 << 124;

/// Displacements of uses are below this in absolute value, in lambda.
pub const SHIFT_EDGE: u64 = 1 << 48;

/// Displacements of the elements of uses are below this in absolute value, in lambda.
pub const ELEMENT_EDGE: u64 = 1 << 52;

/// How many bytes the id of a use may have.
pub const LONGEST_USE_ID: usize = 64;

/// The coordinates of a transistor's point are below this, in lambda, so that those of the square's far corner fit 32 bits
/// with sign too.
pub const FET_EDGE: i64 = i32::MAX as i64;
