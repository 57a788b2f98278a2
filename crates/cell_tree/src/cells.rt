//! Cells as the tree keeps them.

use crate::use_tables::UseTable;
use geo_core::Rect;
use indexmap::IndexSet;

/// What the tree keeps of a cell.
pub struct TreeCell {
    /// The smallest rectangle that goes round the material and labels of the cell.
    pub own: Option<Rect>,
    pub uses: UseTable,
    /// The positions of the cells that use this one.
    pub users: IndexSet<usize>,
}

impl Drop for TreeCell {
    fn drop(self) {
        let TreeCell {
            own: _,
            uses: _,
            users: _,
        } = self;
    }
}
