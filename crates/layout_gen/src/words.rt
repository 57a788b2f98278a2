//! The names of the cells that are made, and of the layers that they are made of.

/// The name of the tile.
pub const TILE: &[u8] = b"gtile";

/// The name of the row of tiles.
pub const ROW: &[u8] = b"grow";

/// The name of the stack of rows.
pub const STACK: &[u8] = b"gen";

/// The layer of the gates.
pub const POLY: &[u8] = b"poly";

/// The layer of the terminals.
pub const DIFF: &[u8] = b"diff";
