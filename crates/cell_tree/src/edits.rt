//! Edits of the cells alone, without their sizes.
ghost use Rattle.std.specs.Prelude.{◌≡◌, ◌≢◌, ℕ, ◌<◌, ◌≤◌, false, if◌then◌else◌, length, nat_eq, slice_set, OnOk};
ghost use Rattle.indexmap.specs.IndexSet.{insert_key};
ghost use Rattle.cell_tree.specs.Uses.{HasIdAt};
ghost use Rattle.cell_tree.specs.Cells.{states, users_of};
ghost use Rattle.cell_tree.specs.Trees.{cell_at, with_inserted, with_own, with_use_set, without_use};
ghost use Rattle.cell_tree.specs.Above.{IsUserOf};
ghost use Rattle.cell_tree.specs.steps.Edits.{AreUsersBut, AreUsersKept, HasRoomFor, knows, uses_room, users_room};

use crate::cells::TreeCell;
use crate::use_tables::UseBody;
use geo_core::Rect;
use std::alloc::AllocError;

/// Gives a cell another own box.
pub fn set_own(cells: &mut [TreeCell], cell: usize, own: Option<Rect>)
    requires { cell < length cells.old }
    ensures states { states cells.new ≡ slice_set (states cells.old) cell (with_own (cell_at (states cells.old) cell) own) }
    ensures users { AreUsersKept cells.old cells.new }
{
    cells[cell].own = own;
}

/// Gives a use of a cell another body.
pub fn set_body(cells: &mut [TreeCell], cell: usize, k: usize, used: UseBody)
    requires within { cell < length cells.old }
    requires use_within { k < length (cell_at (states cells.old) cell).uses }
    ensures states { states cells.new ≡ slice_set (states cells.old) cell (with_use_set (cell_at (states cells.old) cell) k used) }
    ensures users { AreUsersKept cells.old cells.new }
{
    cells[cell].uses.set(k, used);
}

/// Makes room for one more use in a cell.
pub fn reserve_body(cells: &mut [TreeCell], cell: usize) -> Result<(), AllocError>
    requires { cell < length cells.old }
    ensures room { OnOk result (0 < uses_room cells.new cell) }
    ensures states { states cells.new ≡ states cells.old }
    ensures users { AreUsersKept cells.old cells.new }
{
    cells[cell].uses.reserve()
}

/// Makes room for one more user of a cell.
pub fn reserve_user(cells: &mut [TreeCell], child: usize) -> Result<(), AllocError>
    requires { child < length cells.old }
    ensures room { OnOk result (0 < users_room cells.new child) }
    ensures uses_room { (key : ℕ) → uses_room cells.new key ≡ uses_room cells.old key }
    ensures states { states cells.new ≡ states cells.old }
    ensures users { AreUsersKept cells.old cells.new }
{
    cells[child].users.reserve(1)
}

/// Makes a use the one at this place among a cell's. It takes no memory.
pub fn insert_body(cells: &mut [TreeCell], cell: usize, at: usize, id: Vec<u8>, used: UseBody)
    requires within { cell < length cells.old }
    requires place { at ≤ length (cell_at (states cells.old) cell).uses }
    requires room { 0 < uses_room cells.old cell }
    requires new { (k : ℕ) → HasIdAt (cell_at (states cells.old) cell).uses k id.items → ⊥ }
    ensures states { states cells.new ≡ slice_set (states cells.old) cell (with_inserted (cell_at (states cells.old) cell) at id.items used) }
    ensures users { AreUsersKept cells.old cells.new }
    ensures users_room { (key : ℕ) → users_room cells.new key ≡ users_room cells.old key }
{
    cells[cell].uses.insert(at, id, used);
}

/// Makes the cell known as a user of the child. It takes no memory.
pub fn push_user(cells: &mut [TreeCell], child: usize, cell: usize)
    requires within { child < length cells.old }
    requires room { 0 < users_room cells.old child }
    ensures states { states cells.new ≡ states cells.old }
    ensures others { (key : ℕ) → key ≢ child → users_of cells.new key ≡ users_of cells.old key }
    ensures users { users_of cells.new child ≡ insert_key nat_eq (users_of cells.old child) cell }
{
    let _ = cells[child].users.insert(cell);
}

/// Takes the k-th use of a cell away.
pub fn remove_body(cells: &mut [TreeCell], cell: usize, k: usize)
    requires { cell < length cells.old }
    ensures states { states cells.new ≡ slice_set (states cells.old) cell (without_use (cell_at (states cells.old) cell) k) }
    ensures users { AreUsersKept cells.old cells.new }
{
    cells[cell].uses.remove(k);
}

/// Forgets that the cell uses the child.
pub fn remove_user(cells: &mut [TreeCell], child: usize, cell: usize)
    requires { child < length cells.old }
    ensures states { states cells.new ≡ states cells.old }
    ensures others { (key : ℕ) → key ≢ child → users_of cells.new key ≡ users_of cells.old key }
    ensures users { (user : ℕ) → knows (users_of cells.new child) user ≡ (if nat_eq cell user then false else knows (users_of cells.old child) user) }
{
    let _ = cells[child].users.swap_remove(&cell);
}

/// Makes room for one more use of the child in the cell.
pub fn reserve_use(cells: &mut [TreeCell], cell: usize, child: usize) -> Result<(), AllocError>
    requires within { cell < length cells.old }
    requires child { child < length cells.old }
    ensures room { OnOk result (HasRoomFor cells.new cell child) }
    ensures states { states cells.new ≡ states cells.old }
    ensures users { AreUsersKept cells.old cells.new }
{
    reserve_body(cells, cell)?;
    reserve_user(cells, child)
}

/// Makes a use the one at this place among the cell's. It takes no memory.
pub fn add_use(cells: &mut [TreeCell], cell: usize, at: usize, id: Vec<u8>, used: UseBody)
    requires within { cell < length cells.old }
    requires place { at ≤ length (cell_at (states cells.old) cell).uses }
    requires child { used.child.0 < length cells.old }
    requires room { HasRoomFor cells.old cell used.child.0 }
    requires new { (k : ℕ) → HasIdAt (cell_at (states cells.old) cell).uses k id.items → ⊥ }
    ensures states { states cells.new ≡ slice_set (states cells.old) cell (with_inserted (cell_at (states cells.old) cell) at id.items used) }
    ensures users { AreUsersBut cells.old cells.new cell used.child.0 }
{
    let child = used.child.0;
    insert_body(cells, cell, at, id, used);
    push_user(cells, child, cell);
}

/// Takes a use of the child away from the cell's uses.
pub fn drop_use(cells: &mut [TreeCell], cell: usize, k: usize, child: usize)
    requires within { cell < length cells.old }
    requires child { child < length cells.old }
    requires known { IsUserOf cells.old child cell }
    ensures states { states cells.new ≡ slice_set (states cells.old) cell (without_use (cell_at (states cells.old) cell) k) }
    ensures users { AreUsersBut cells.old cells.new cell child }
{
    remove_body(cells, cell, k);
    if !cells[cell].uses.has_child(child) {
        remove_user(cells, child, cell);
    }
}
