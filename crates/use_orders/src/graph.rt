//! Graphs of cells that use each other.

ghost use Rattle.std.specs.Prelude.{◌≡◌, ◌↔◌, ◌<◌, ℕ, List, IsTrue, length, slice_index};
ghost use Rattle.use_orders.specs.Uses.{used_by, UsesCell, AreCells};

/// Cells with uses of each other. The cells are the numbers below a count, and each has a list of
/// uses, of which each has a child. The order of the uses counts, and a child may be used again.
pub trait UseGraph {
    /// For each cell the children of its uses, in order.
    ghost children: { Self → List (List ℕ) };

    /// How many cells there are.
    fn cell_count(&self) -> usize
        ensures { result ≡ length (children self.now) };

    /// How many uses a cell has.
    fn use_count(&self, cell: usize) -> usize
        requires { cell < length (children self.now) }
        ensures { result ≡ length (used_by (children self.now) cell) };

    /// The child of a cell's use, by the use's place among the cell's uses.
    fn child(&self, cell: usize, place: usize) -> usize
        requires cell { cell < length (children self.now) }
        requires place { place < length (used_by (children self.now) cell) }
        ensures { result ≡ slice_index (used_by (children self.now) cell) place };
}

/// A graph whose cells have vectors of the children of their uses.
#[derive(Clone, Copy)]
pub struct UseLists<'a> {
    pub lists: &'a [Vec<usize>],
}

impl UseGraph for UseLists<'_> {
    ghost use Rattle.std.specs.Prelude.{map};

    ghost children = { λ graph. map (λ uses. uses.items) graph.lists.now };

    fn cell_count(&self) -> usize {
        self.lists.len()
    }

    fn use_count(&self, cell: usize) -> usize {
        self.lists[cell].len()
    }

    fn child(&self, cell: usize, place: usize) -> usize {
        self.lists[cell][place]
    }
}

/// Whether each child of a cell is one of the cells.
fn uses_cells<G: UseGraph>(graph: &G, parent: usize) -> bool
    requires { parent < length (G.children graph.now) }
    ensures { IsTrue result ↔ ((child : ℕ) → UsesCell (G.children graph.now) parent child
        → child < length (G.children graph.now)) }
{
    let count = graph.cell_count();
    'uses: for place in 0..graph.use_count(parent) {
        if graph.child(parent, place) >= count {
            return false;
        }
    }
    true
}

/// Whether each child of each cell is one of the cells, which the orders of this crate ask.
pub fn are_cells<G: UseGraph>(graph: &G) -> bool
    ensures { IsTrue result ↔ AreCells (G.children graph.now) }
{
    'parents: for parent in 0..graph.cell_count() {
        if !uses_cells(graph, parent) {
            return false;
        }
    }
    true
}
