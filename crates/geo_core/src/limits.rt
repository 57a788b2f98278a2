//! How many tiles and elements there may be, and how far things may go.

/// How far a plane goes: the bounds of areas on it are below this in absolute value, in lambda.
pub const PLANE_EDGE: i64 = 1 << 28;

/// How far all of a layout goes: coordinates and displacements are below this in absolute value, in lambda, so that
/// what is computed from them fits.
pub const REACH: i64 = 1 << 60;

/// How far paint goes: its coordinates are at most this in absolute value, in lambda.
pub const PAINT_EDGE: i64 = (1 << 26) - 6;

/// How many tiles a painted plane may have.
pub const MOST_TILES: usize = 1 << 31;

/// A plane of so many strips, those of space among them, needs at most this many tiles for each strip and one
/// strip more while a piece is set on it.
pub const TILES_FOR_A_STRIP: usize = 8;

/// How many elements a grid may have.
pub const MOST_ELEMENTS: usize = 1_000_000;
