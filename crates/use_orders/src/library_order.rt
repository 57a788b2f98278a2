//! The library order below a cell.

ghost use Rattle.std.specs.Prelude.{◌<◌, IfOk, length};
ghost use Rattle.use_orders.specs.Uses.{AreCells, IsAcyclicBelow};
ghost use Rattle.use_orders.specs.LibraryOrder.{IsLibraryOrder};

use crate::graph::UseGraph;
use crate::walk::Walk;
use std::alloc::{AllocError, Global};

/// The library order below a root: the cells at and below it in the order of uses, children before
/// parents, each cell once, the root last. It takes a mark for each cell of the graph, and time and
/// memory for the cells at and below the root and for their uses. Want of memory alone refuses.
pub fn below<G: UseGraph>(alloc: Global, graph: &G, root: usize) -> Result<Vec<usize>, AllocError>
    requires cells { AreCells (G.children graph.now) }
    requires root { root < length (G.children graph.now) }
    requires acyclic { IsAcyclicBelow (G.children graph.now) root }
    ensures { IfOk result (λ order. IsLibraryOrder (G.children graph.now) root order.items) }
{
    let mut walk = Walk::new(alloc, graph.cell_count(), 0)?;
    walk.visit(graph, root)?;
    Ok(walk.into_order())
}
