//! The walk itself. It keeps no call for each open cell, so that no chain of uses is too long for it.
ghost use Rattle.std.specs.Prelude.{◌≡◌, ◌^◌, ℕ, ◌⊎◌, ◌<◌, None, Some, length, slice_get, IfOk, IfErr};
ghost use Rattle.element_tree.specs.steps.Walks.{IsGraph, IsOrder, uses_of, walk_fault};
ghost use Rattle.element_tree.specs.steps.Steps.{step_of};

use crate::faults::{UsePlace, WalkFault};
use names_lists::List;
use std::alloc::Global;

/// How far the walk has come with a cell.
#[derive(Clone, Copy, Debug, PartialEq, Eq)]
pub enum Mark {
    New,
    Open,
    Done,
}

/// Where one use of a cell leads: past the last, to no cell, or to a cell.
#[derive(Clone, Copy, Debug, PartialEq, Eq)]
pub enum Step {
    Over,
    Nowhere,
    To(usize),
}

// Where the use at this place leads.
fn step_at(graph: &[List<Option<usize>>], cell: usize, at: usize) -> Step
    requires { cell < length graph.now }
    ensures step { result ≡ step_of (slice_get (uses_of graph.now cell) at) }
    ensures short { (child : ℕ) → result ≡ Step.To child → at < 2 ^ 63 }
{
    match graph[cell].items().get(at) {
        None => Step::Over,
        Some(None) => Step::Nowhere,
        Some(Some(child)) => Step::To(*child),
    }
}

/// The cells at and below the root in the order in which they are done: each behind all that its
/// uses lead to. The graph says of each use where it leads. It takes a step for each cell and each
/// use.
pub fn walk(
    alloc: Global,
    graph: &[List<Option<usize>>],
    root: usize,
) -> Result<Vec<usize>, WalkFault>
    requires root { root < length graph.now }
    requires graph { IsGraph graph.now }
    ensures no_fault { IfOk result (λ order. walk_fault graph.now root ≡ None) }
    ensures order { IfOk result (λ order. IsOrder graph.now root order.items) }
    ensures fault { IfErr result (λ fault. (fault ≡ WalkFault.Memory) ⊎ (walk_fault graph.now root ≡ Some fault)) }
{
    let mut marks = vec![in alloc; Mark::New; graph.len()]?;
    let mut next = vec![in alloc; 0; graph.len()]?;
    let mut open = Vec::new(alloc);
    let mut order = Vec::new(alloc);
    marks[root] = Mark::Open;
    open.push(root)?;
    while let Some(&cell) = open.last() {
        let at = next[cell];
        match step_at(graph, cell, at) {
            Step::Nowhere => return Err(WalkFault::NoCell(UsePlace { cell, at })),
            Step::To(child) => {
                next[cell] = at + 1;
                match marks[child] {
                    Mark::Open => return Err(WalkFault::Cycle(UsePlace { cell, at })),
                    Mark::New => {
                        marks[child] = Mark::Open;
                        open.push(child)?;
                    }
                    Mark::Done => {}
                }
            }
            Step::Over => {
                marks[cell] = Mark::Done;
                order.push(cell)?;
                open.pop();
            }
        }
    }
    Ok(order)
}
