//! How much is made.

/// How many tiles a row may have, and how many rows a stack.
pub const MOST_TILES: u32 = 500;

/// How many cells are made.
pub const MADE_CELLS: usize = 3;

/// How wide and how high a tile is, in lambda.
pub const TILE_SIDE: i64 = 6;
