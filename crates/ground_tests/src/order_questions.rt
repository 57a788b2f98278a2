//! Orders of small graphs, and of chains.
ghost use Rattle.std.specs.Prelude.{◌<◌, length};
ghost use Rattle.use_orders.specs.Uses.{AreCells};

use std::alloc::{AllocError, Global};
use std::test::Fail;
use use_orders::{Order, UseLists, are_cells, below, children_first};

/// A question about a graph, and its answer. A graph is told by the children of each cell's uses.
enum Asked {
    /// The library order below a root.
    Below(&'static [&'static [usize]], usize, &'static [usize]),
    /// The order of the cells from the first on.
    New(&'static [&'static [usize]], usize, &'static [usize]),
    /// The least of these that is its own descendant.
    Cycle(&'static [&'static [usize]], usize, usize),
}

const QUESTIONS: &[Asked] = &[
    // a diamond: the first use is followed first, and what is below both stands once
    Asked::Below(&[&[2, 1], &[3], &[3], &[]], 0, &[3, 2, 1, 0]),
    Asked::Below(&[&[2, 1], &[3], &[3], &[]], 1, &[3, 1]),
    // many uses of one child
    Asked::Below(&[&[], &[0, 0, 0, 0]], 1, &[0, 1]),
    // only what is new counts, and old cells use what they like
    Asked::New(&[&[1], &[0], &[0, 3], &[1], &[2, 2]], 2, &[3, 2, 4]),
    Asked::New(&[&[], &[]], 2, &[]),
    // a cell that uses itself, and two that use each other
    Asked::Cycle(&[&[0]], 0, 0),
    Asked::Cycle(&[&[1], &[0]], 0, 0),
    // the first cells lead to a cycle, and the least cell of the cycle is not where it is entered
    Asked::Cycle(&[&[1], &[4], &[], &[4], &[3]], 0, 3),
    // two cycles, of which the walk meets the greater first
    Asked::Cycle(&[&[5, 1], &[3], &[1], &[2], &[5], &[4]], 0, 1),
];

fn graph_of(alloc: Global, rows: &[&[usize]]) -> Result<Vec<Vec<usize>>, AllocError> {
    let mut lists = Vec::new(alloc);
    for row in rows {
        lists.push(Vec::from_slice(alloc, row)?)?;
    }
    Ok(lists)
}

/// The order below a root, where there is no cycle.
fn is_below(
    alloc: Global,
    graph: &UseLists,
    root: usize,
    want: &[usize],
) -> Result<bool, AllocError> {
    if root >= graph.lists.len() || !are_cells(graph) {
        return Ok(false);
    }
    match children_first(alloc, graph, 0)? {
        Order::Acyclic(_) => Ok(below(alloc, graph, root)?.as_slice() == want),
        Order::Cyclic(_) => Ok(false),
    }
}

fn new_order(alloc: Global, graph: &UseLists, first: usize) -> Result<Option<Order>, AllocError> {
    if first > graph.lists.len() || !are_cells(graph) {
        return Ok(None);
    }
    Ok(Some(children_first(alloc, graph, first)?))
}

fn is_order(order: &Option<Order>, want: &[usize]) -> bool {
    match order {
        Some(Order::Acyclic(order)) => order.as_slice() == want,
        _ => false,
    }
}

fn is_cycle(order: &Option<Order>, want: usize) -> bool {
    match order {
        Some(Order::Cyclic(cell)) => *cell == want,
        _ => false,
    }
}

fn is_answered(alloc: Global, asked: &Asked) -> Result<bool, AllocError> {
    match asked {
        Asked::Below(rows, root, want) => {
            let lists = graph_of(alloc, rows)?;
            is_below(alloc, &UseLists { lists: &lists }, *root, want)
        }
        Asked::New(rows, first, want) => {
            let lists = graph_of(alloc, rows)?;
            Ok(is_order(
                &new_order(alloc, &UseLists { lists: &lists }, *first)?,
                want,
            ))
        }
        Asked::Cycle(rows, first, want) => {
            let lists = graph_of(alloc, rows)?;
            Ok(is_cycle(
                &new_order(alloc, &UseLists { lists: &lists }, *first)?,
                *want,
            ))
        }
    }
}

#[test]
fn graphs_have_orders(rt: HostRuntime) -> Result<(), Fail> {
    for asked in QUESTIONS {
        assert!(rt; is_answered(rt.alloc(), asked)?);
    }
    Ok(())
}

/// Each cell uses the next, and the last one uses the cell that is told, if any.
fn chain(alloc: Global, length: usize, back: Option<usize>) -> Result<Vec<Vec<usize>>, AllocError> {
    let mut lists = Vec::new(alloc);
    for cell in 1..length {
        lists.push(Vec::from_slice(alloc, &[cell])?)?;
    }
    let mut last = Vec::new(alloc);
    if let Some(cell) = back {
        last.push(cell)?;
    }
    lists.push(last)?;
    Ok(lists)
}

#[test]
fn chains_have_orders(rt: HostRuntime) -> Result<(), Fail> {
    let alloc = rt.alloc();
    for length in [65, 65_535] {
        let lists = chain(alloc, length, None)?;
        let want: Vec<usize> = (0..length).rev().collect(alloc)?;
        let graph = UseLists { lists: &lists };
        assert!(rt; is_below(alloc, &graph, 0, &want)?);
        assert!(rt; is_order(&new_order(alloc, &graph, 0)?, &want));
    }
    let ring = chain(alloc, 65_535, Some(40_000))?;
    assert!(rt; is_cycle(&new_order(alloc, &UseLists { lists: &ring }, 0)?, 40_000));
    Ok(())
}
