//! What the definitions are held to.

ghost use Rattle.std.specs.Prelude.{◌≡◌, ◌<◌, ◌≤◌, ◌∷◌, ◌++◌, [], ℕ, List};
ghost use Rattle.finite_sets.specs.Lists.{Lists};
ghost use Rattle.use_orders.specs.LibraryOrder.{IsLibraryOrder};
ghost use Rattle.use_orders.specs.NewCells.{IsChildrenFirst, IsOwnDescendant};
ghost use Rattle.use_orders.specs.Uses.{UsesCell, IsAtOrBelow, IsDescendant, IsAcyclicBelow, AreBehindChildren};

/// The library order below a root has each cell at or below it once and nothing else, children before
/// parents and the root last, and there is only one such order.
pub fn library_order_law()
    ensures lists { (children : List (List ℕ)) (root : ℕ) (order : List ℕ)
        → IsLibraryOrder children root order → Lists (IsAtOrBelow children root) order }
    ensures children_first { (children : List (List ℕ)) (root : ℕ) (order : List ℕ)
        → IsLibraryOrder children root order → AreBehindChildren (UsesCell children) order }
    ensures root_last { (children : List (List ℕ)) (root : ℕ) (order : List ℕ)
        → IsLibraryOrder children root order → (front : List ℕ) × (order ≡ front ++ root ∷ []) }
    ensures unique { (children : List (List ℕ)) (root : ℕ) (one other : List ℕ)
        → IsLibraryOrder children root one → IsLibraryOrder children root other → one ≡ other }
{}

/// Where each cell has a rank above those of its children, no cell is its own descendant.
pub fn rank_law()
    ensures { (children : List (List ℕ)) (rank : ℕ → ℕ) (root : ℕ)
        → ((parent child : ℕ) → UsesCell children parent child → rank child < rank parent)
        → IsAcyclicBelow children root }
{}

/// Where the new cells have an order, none is its own descendant: so `children_first` finds an order
/// exactly where there is no cycle, and an order of all cells is what `below` asks. Where old cells
/// use old ones alone, a new cell is its own descendant in the whole graph only if it is by way of
/// new cells.
pub fn new_cells_law()
    ensures order_or_cycle { (children : List (List ℕ)) (first : ℕ) (order : List ℕ)
        → IsChildrenFirst children first order
        → (cell : ℕ) → IsOwnDescendant children first cell → ⊥ }
    ensures acyclic_below { (children : List (List ℕ)) (order : List ℕ) (root : ℕ)
        → IsChildrenFirst children 0 order → IsAcyclicBelow children root }
    ensures by_new_cells { (children : List (List ℕ)) (first : ℕ)
        → ((parent child : ℕ) → parent < first → UsesCell children parent child → child < first)
        → (cell : ℕ) → first ≤ cell → IsDescendant (UsesCell children) cell cell
        → IsOwnDescendant children first cell }
{}
