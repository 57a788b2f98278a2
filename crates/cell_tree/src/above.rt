//! The cells that use a cell, directly or not.
ghost use Rattle.std.specs.Prelude.{◌≡◌, ◌++◌, ◌∷◌, [], ℕ, suc, ◌+◌, ◌<◌, ◌≤◌, false, length, slice_get, slice_index_or, Some, vec_capacity};
ghost use Rattle.cell_tree.specs.Cells.{users_of};
ghost use Rattle.cell_tree.specs.Sizes.{size_at};
ghost use Rattle.cell_tree.specs.Above.{IsUserOf, StandsIn, unseen, ComesAfterUsers, IsRanked, AllStandBut, Adds, EndsWith};

use crate::cells::TreeCell;
use crate::sizes::Size;

/// Appends to the order the cell and all above it that aren't seen yet, each after all that use it.
#[cycle(above)]
pub fn find_above(
    cells: &[TreeCell],
    sizes: &[Size],
    cell: usize,
    seen: &mut [bool],
    order: &mut Vec<usize>,
)
    requires ranked { IsRanked cells.now sizes.now }
    requires within { cell < length sizes.now }
    requires cells { length cells.now ≡ length sizes.now }
    requires each { length seen.old ≡ length sizes.now }
    requires room { length order.old.items + unseen seen.old ≤ vec_capacity order.old }
    requires sorted { ComesAfterUsers cells.now order.old.items }
    requires stand { AllStandBut sizes.now (size_at sizes.now cell).depth seen.old order.old.items }
    ensures sorted { ComesAfterUsers cells.now order.new.items }
    ensures adds { Adds cells.now cell seen.old seen.new order.old.items order.new.items }
    ensures there { StandsIn order.new.items cell }
    ensures last { slice_index_or seen.old cell false ≡ false → EndsWith cell order.old.items order.new.items }
    ensures room { length order.new.items + unseen seen.new ≡ length order.old.items + unseen seen.old }
    ensures capacity { vec_capacity order.old ≤ vec_capacity order.new }
    ensures each { length seen.new ≡ length seen.old }
{
    if seen[cell] {
        return;
    }
    seen[cell] = true;
    add_users(cells, sizes, cell, seen, order);
    add(order, cell);
}

// Appends to the order all above the cell that aren't seen yet, but not the cell.
#[cycle(above)]
fn add_users(
    cells: &[TreeCell],
    sizes: &[Size],
    cell: usize,
    seen: &mut [bool],
    order: &mut Vec<usize>,
)
    requires ranked { IsRanked cells.now sizes.now }
    requires within { cell < length sizes.now }
    requires cells { length cells.now ≡ length sizes.now }
    requires each { length seen.old ≡ length sizes.now }
    requires room { length order.old.items + unseen seen.old < vec_capacity order.old }
    requires sorted { ComesAfterUsers cells.now order.old.items }
    requires stand { AllStandBut sizes.now (suc (size_at sizes.now cell).depth) seen.old order.old.items }
    ensures sorted { ComesAfterUsers cells.now order.new.items }
    ensures adds { Adds cells.now cell seen.old seen.new order.old.items order.new.items }
    ensures there { (user : ℕ) → IsUserOf cells.now cell user → StandsIn order.new.items user }
    ensures room { length order.new.items + unseen seen.new ≡ length order.old.items + unseen seen.old }
    ensures capacity { vec_capacity order.old ≤ vec_capacity order.new }
    ensures each { length seen.new ≡ length seen.old }
{
    for k in 0..user_count(cells, cell) {
        let user = user_at(cells, cell, k);
        find_above(cells, sizes, user, seen, order);
    }
}

// Appends the cell to the order, which has room for it.
fn add(order: &mut Vec<usize>, cell: usize)
    requires { length order.old.items < vec_capacity order.old }
    ensures added { order.new.items ≡ order.old.items ++ cell ∷ [] }
    ensures capacity { vec_capacity order.old ≤ vec_capacity order.new }
{
    let _ = order.push(cell);
}

// How many cells use the cell.
fn user_count(cells: &[TreeCell], cell: usize) -> usize
    requires { cell < length cells.now }
    ensures { result ≡ length (users_of cells.now cell) }
{
    cells[cell].users.len()
}

// The k-th of the cells that use the cell.
fn user_at(cells: &[TreeCell], cell: usize, k: usize) -> usize
    requires within { cell < length cells.now }
    requires below { k < length (users_of cells.now cell) }
    ensures { slice_get (users_of cells.now cell) k ≡ Some result }
{
    match cells[cell].users.get_index(k) {
        Some(user) => *user,
        None => unreachable!(),
    }
}
