//! The order of new cells, children before parents, or the least cell that is its own descendant.

ghost use Rattle.std.specs.Prelude.{◌≤◌, IfOk, length};
ghost use Rattle.use_orders.specs.NewCells.{IsOrderOf};
ghost use Rattle.use_orders.specs.steps.Searches.{HasWalked};
ghost use Rattle.use_orders.specs.Uses.{AreCells};
ghost use Rattle.use_orders.specs.steps.Walks.{walk_state};

use crate::graph::UseGraph;
use crate::own_descendants::least_own_descendant;
use crate::walk::Walk;
use std::alloc::{AllocError, Global};

/// What there is of new cells.
#[derive(Debug, Drop)]
pub enum Order {
    /// Each of them once, behind those of its children that are new.
    Acyclic(Vec<usize>),
    /// The least number of a cell that is its own descendant.
    Cyclic(usize),
}

/// A walk that visited all cells from the first on.
fn walk_new<G: UseGraph>(alloc: Global, graph: &G, first: usize) -> Result<Walk, AllocError>
    requires cells { AreCells (G.children graph.now) }
    requires first { first ≤ length (G.children graph.now) }
    ensures { IfOk result (λ walk. HasWalked (G.children graph.now) first (walk_state walk)) }
{
    let count = graph.cell_count();
    let mut walk = Walk::new(alloc, count, first)?;
    'cells: for cell in first..count {
        walk.visit(graph, cell)?;
    }
    Ok(walk)
}

/// The cells of a graph from the number `first` on, children before parents, each once; or the least
/// of them that is its own descendant, exactly where there is one. These cells are new: uses of a
/// child below `first` do not count, and neither do the uses of the cells there.
///
/// It takes time and memory for the new cells and their uses, and a mark for each cell. Where there
/// is a cycle, it takes a second walk, by way of the users. Want of memory alone refuses.
pub fn children_first<G: UseGraph>(
    alloc: Global,
    graph: &G,
    first: usize,
) -> Result<Order, AllocError>
    requires cells { AreCells (G.children graph.now) }
    requires first { first ≤ length (G.children graph.now) }
    ensures { IfOk result (λ order. IsOrderOf (G.children graph.now) first order) }
{
    let walk = walk_new(alloc, graph, first)?;
    if !walk.is_cyclic {
        return Ok(Order::Acyclic(walk.into_order()));
    }
    let order = walk.into_order();
    match least_own_descendant(alloc, graph, first, &order)? {
        Some(cell) => Ok(Order::Cyclic(cell)),
        None => unreachable!(),
    }
}
