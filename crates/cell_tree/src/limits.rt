//! How many uses, elements and levels there may be, and how far a use may move its child.

/// How many uses a cell may have.
pub const MOST_USES: usize = 65_535;

/// How many cells a chain of uses may have.
pub const MOST_DEPTH: u64 = 64;

/// How many elements there may be at and below a cell, itself counted.
pub const MOST_ELEMENTS_BELOW: u64 = 1_000_000;

/// How far a use goes: its displacement and the separations of its grid are at most this in absolute value, in lambda.
pub const USE_EDGE: i64 = (1 << 27) - 12;

/// How many elements a use may bring: those of its grid times those at and below its child.
pub const MOST_ELEMENTS_OF_USE: u64 = 1_000_000_000_000;

/// How far the elements of a grid are displaced at most, in lambda.
pub const SPREAD_EDGE: i64 = 1 << 47;
