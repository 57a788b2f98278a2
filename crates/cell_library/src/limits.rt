//! How many cells and edits there may be.

/// What a library may have too many of.
#[derive(Clone, Copy, Debug, PartialEq, Eq)]
pub enum LibraryLimit {
    /// Cells of the library.
    Cells,
    /// Uses in a cell.
    Uses,
    /// Cells in a chain of uses.
    Depth,
    /// Elements at and below a cell, itself counted, or of a grid.
    Elements,
    /// Tiles of a painted plane.
    Tiles,
    /// Edits of the library.
    Edits,
}

/// How many cells a library may have.
pub const MOST_CELLS: usize = 65_535;

/// How many edits a library may have.
pub const MOST_EDITS: u64 = u64::MAX;
