//! Steps from a cell to an element of it.

use ext_model::CellKey;
use names_lists::Name;

/// A step down to an element.
#[derive(Debug, Drop)]
pub struct Step {
    /// The position of the element among those of the cell, from 0.
    pub position: usize,
    /// The name of the element: the id of its use, with its indices where the use has a grid.
    pub id: Name,
    /// The cell of the element.
    pub child: CellKey,
    /// The number, among all that stands at and below that cell, of what the steps lead to: 0 is the cell itself.
    pub element: usize,
}
