//! The limits of what a cell has. Clauses read them by their names.

use geo_core::PAINT_EDGE;

/// The uses that a cell of a library may have. A body may have more: it is a library that refuses them.
pub const MOST_USES: usize = 65_535;

/// How far a use may be displaced, and how far apart the elements of a grid may be: they are at most this in absolute
/// value, in lambda.
pub const DISPLACEMENT_EDGE: i64 = 2 * PAINT_EDGE;

/// The greatest number of a position: 0 is the centre, 1 is north, and the others follow clockwise.
pub const LAST_POSITION: u8 = 8;

/// The greatest number that a scale may have.
pub const LARGEST_SCALE: u32 = 1_000_000;
