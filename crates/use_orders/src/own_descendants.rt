//! The least cell that is its own descendant.
//!
//! A walk down the uses has listed the cells. They are visited again by way of their users, the last
//! first: each visit lists just the cells from which and to which uses lead from and to the one.

ghost use Rattle.std.specs.Prelude.{◌≡◌, ◌≤◌, ◌<◌, ◌+◌, ◌∷◌, ◌++◌, [], ◌⊎◌, ◌↔◌, ℕ, List, IfOk, OnOk, IfSome, IsSomeAnd, Option, Some, None};
ghost use Rattle.std.specs.Prelude.{IsTrue, length, slice_set, drop, MatchOption};
ghost use Rattle.finite_sets.specs.Least.{IsLeast};
ghost use Rattle.finite_sets.specs.Lists.{In};
ghost use Rattle.use_orders.specs.NewCells.{IsOwnDescendant};
ghost use Rattle.use_orders.specs.steps.Searches.{lists_of, AreUsers, IsWalkOrder, IsRing, LowersLeast};
ghost use Rattle.use_orders.specs.Uses.{used_by, AreCells, UsesNewCell};
ghost use Rattle.use_orders.specs.steps.Walks.{walk_state, IsAtRest, HasVisited};

use crate::graph::{UseGraph, UseLists};
use crate::walk::Walk;
use std::alloc::{AllocError, Global};

/// So many empty lists.
fn empty_lists(alloc: Global, count: usize) -> Result<Vec<Vec<usize>>, AllocError>
    ensures len { IfOk result (λ lists. length lists.items ≡ count) }
    ensures empty { IfOk result (λ lists. (cell : ℕ) → used_by (lists_of lists.items) cell ≡ []) }
{
    let mut lists = Vec::new(alloc);
    'lists: while lists.len() < count {
        lists.push(Vec::new(alloc))?;
    }
    Ok(lists)
}

/// Adds a user of a cell.
fn add_user(users: &mut Vec<Vec<usize>>, cell: usize, user: usize) -> Result<(), AllocError>
    requires { cell < length users.old.items }
    ensures { OnOk result (lists_of users.new.items
        ≡ slice_set (lists_of users.old.items) cell (used_by (lists_of users.old.items) cell ++ user ∷ [])) }
{
    users[cell].push(user)?;
    Ok(())
}

/// Adds a new cell to the users of its new children.
fn add_uses<G: UseGraph>(
    graph: &G,
    first: usize,
    parent: usize,
    users: &mut Vec<Vec<usize>>,
) -> Result<(), AllocError>
    requires cells { AreCells (G.children graph.now) }
    requires fits { length users.old.items ≡ length (G.children graph.now) }
    requires parent { parent < length (G.children graph.now) }
    requires new { first ≤ parent }
    ensures fits { OnOk result (length users.new.items ≡ length users.old.items) }
    ensures grown { OnOk result ((user cell : ℕ) → In user (used_by (lists_of users.old.items) cell)
        → In user (used_by (lists_of users.new.items) cell)) }
    ensures there { OnOk result ((child : ℕ) → UsesNewCell (G.children graph.now) first parent child
        → In parent (used_by (lists_of users.new.items) child)) }
    ensures back { OnOk result ((user cell : ℕ) → In user (used_by (lists_of users.new.items) cell)
        → In user (used_by (lists_of users.old.items) cell)
        ⊎ UsesNewCell (G.children graph.now) first user cell) }
{
    'uses: for place in 0..graph.use_count(parent) {
        let child = graph.child(parent, place);
        if first <= child {
            add_user(users, child, parent)?;
        }
    }
    Ok(())
}

/// For each new cell the new cells that use it.
fn users_of<G: UseGraph>(
    alloc: Global,
    graph: &G,
    first: usize,
) -> Result<Vec<Vec<usize>>, AllocError>
    requires cells { AreCells (G.children graph.now) }
    requires first { first ≤ length (G.children graph.now) }
    ensures { IfOk result (λ users. AreUsers (G.children graph.now) first (lists_of users.items)) }
{
    let count = graph.cell_count();
    let mut users = empty_lists(alloc, count)?;
    'parents: for parent in first..count {
        add_uses(graph, first, parent, &mut users)?;
    }
    Ok(users)
}

/// The lesser of what was known and of the cell.
fn lesser(known: Option<usize>, cell: usize) -> usize
    ensures within { result ≤ cell }
    ensures kept { IfSome known (λ old. result ≤ old) }
    ensures source { (result ≡ cell) ⊎ (known ≡ Some result) }
{
    match known {
        Some(old) if old < cell => old,
        _ => cell,
    }
}

/// The least of what was known and of the cells.
fn least_with(known: Option<usize>, cells: &[usize]) -> Option<usize>
    ensures kept { IfSome known (λ old. IsSomeAnd result (λ new. new ≤ old)) }
    ensures below { (cell : ℕ) → In cell cells.now → IsSomeAnd result (λ new. new ≤ cell) }
    ensures source { IfSome result (λ new. (known ≡ Some new) ⊎ In new cells.now) }
{
    let mut least = known;
    'cells: for cell in cells {
        least = Some(lesser(least, *cell));
    }
    least
}

/// Whether the cells that a visit of a cell listed are their own descendants.
fn is_ring(users: &[Vec<usize>], cell: usize, group: &[usize]) -> bool
    requires { cell < length users.now }
    ensures { IsTrue result ↔ IsRing (lists_of users.now) cell group.now }
{
    group.len() > 1 || users[cell].contains(&cell)
}

/// Visits a cell by way of the users, and lowers what is known of the least cell that is its own
/// descendant to the least of those that were listed, where they are their own descendants.
fn search(
    users: &[Vec<usize>],
    walk: &mut Walk,
    known: Option<usize>,
    cell: usize,
) -> Result<Option<usize>, AllocError>
    requires cells { AreCells (lists_of users.now) }
    requires cell { cell < length users.now }
    requires rest { IsAtRest (lists_of users.now) walk.old.first (walk_state walk.old) }
    ensures first { walk.new.first ≡ walk.old.first }
    ensures visited { OnOk result (HasVisited (lists_of users.now) walk.old.first cell
        (walk_state walk.old) (walk_state walk.new)) }
    ensures lowered { IfOk result (λ least. LowersLeast (lists_of users.now) cell
        (drop (length walk.old.order.items) walk.new.order.items) known least) }
{
    let listed = walk.order.len();
    walk.visit(&UseLists { lists: users }, cell)?;
    let group = &walk.order[listed..];
    if is_ring(users, cell, group) {
        Ok(least_with(known, group))
    } else {
        Ok(known)
    }
}

/// The least cell that is its own descendant, where a walk listed the new cells in this order.
pub(crate) fn least_own_descendant<G: UseGraph>(
    alloc: Global,
    graph: &G,
    first: usize,
    order: &[usize],
) -> Result<Option<usize>, AllocError>
    requires cells { AreCells (G.children graph.now) }
    requires first { first ≤ length (G.children graph.now) }
    requires order { IsWalkOrder (G.children graph.now) first order.now }
    ensures { IfOk result (λ least. MatchOption least
        ((cell : ℕ) → IsOwnDescendant (G.children graph.now) first cell → ⊥)
        (IsLeast ◌≤◌ (IsOwnDescendant (G.children graph.now) first))) }
{
    let users = users_of(alloc, graph, first)?;
    let mut walk = Walk::new(alloc, users.len(), first)?;
    let mut least = None;
    let mut place = order.len();
    'places: while place > 0 {
        place -= 1;
        least = search(&users, &mut walk, least, order[place])?;
    }
    Ok(least)
}
