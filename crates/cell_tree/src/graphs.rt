//! The uses of cells as a graph.

use crate::cells::TreeCell;
use use_orders::UseGraph;

/// Cells with the children of their uses.
#[derive(Clone, Copy)]
pub struct CellGraph<'a> {
    pub cells: &'a [TreeCell],
}

impl UseGraph for CellGraph<'_> {
    ghost use Rattle.cell_tree.specs.Cells.{states};
    ghost use Rattle.cell_tree.specs.Additions.{children_of};

    ghost children = { λ graph. children_of (states graph.cells.now) };

    fn cell_count(&self) -> usize {
        self.cells.len()
    }

    fn use_count(&self, cell: usize) -> usize {
        self.cells[cell].uses.len()
    }

    fn child(&self, cell: usize, place: usize) -> usize {
        self.cells[cell].uses.body(place).child.0
    }
}
