//! Adding cells that come with their uses.
ghost use Rattle.std.specs.Prelude.{◌≡◌, ℕ, suc, ◌<◌, ◌≤◌, ◌++◌, ◌∷◌, [], length, All, OnOk, OnErr, IfOk, IfErr};
ghost use Rattle.cell_tree.specs.Cells.{states, KnowUsers};
ghost use Rattle.cell_tree.specs.Trials.{AreLawfulCells};
ghost use Rattle.cell_tree.specs.Trees.{IsLawfulCell, cell_at};
ghost use Rattle.cell_tree.specs.Books.{IsReady, SaysTheSame};
ghost use Rattle.cell_tree.specs.Whole.{IsWhole, tree_of};
ghost use Rattle.cell_tree.specs.Additions.{AreAdded, MayAllCome, RefusesAll, new_state, new_states};
ghost use Rattle.cell_tree.specs.Arrivals.{AreBehind, AreForgotten, ChildIs, HasRoomForAll, HaveOwnIds, IsExtended, IsKeptAs};
ghost use Rattle.cell_tree.specs.Arrivals.{KnowUsersFrom, KnowUsersTo, MayBeSized, RefusesSizes};

use crate::arrivals::{NewOrder, new_order};
use crate::cells::TreeCell;
use crate::edits::{push_user, remove_user, reserve_user};
use crate::faults::TreeFault;
use crate::new_cells::NewCell;
use crate::size_books::SizeBook;
use crate::use_tables::UseTable;
use indexmap::IndexSet;
use std::alloc::{AllocError, Global};

// The cell as the tree keeps it, without users.
fn keep(alloc: Global, cell: NewCell) -> Result<TreeCell, AllocError>
    requires { HaveOwnIds (new_state cell).uses }
    ensures { IfOk result (λ kept. IsKeptAs kept (new_state cell)) }
{
    let NewCell { own, uses } = cell;
    Ok(TreeCell {
        own,
        uses: UseTable::from_uses(alloc, uses)?,
        users: IndexSet::new(alloc),
    })
}

// Adds the cells at the end, without users.
fn push_all(alloc: Global, cells: &mut Vec<TreeCell>, new: Vec<NewCell>) -> Result<(), AllocError>
    requires ids { All IsLawfulCell (new_states new.items) }
    requires users { KnowUsers cells.old.items }
    ensures states { OnOk result (states cells.new.items ≡ states cells.old.items ++ new_states new.items) }
    ensures behind { AreBehind cells.old.items cells.new.items }
{
    for cell in new {
        let kept = keep(alloc, cell)?;
        push(cells, kept)?;
    }
    Ok(())
}

// Adds the cell at the end.
fn push(cells: &mut Vec<TreeCell>, cell: TreeCell) -> Result<(), AllocError>
    ensures pushed { OnOk result (cells.new.items ≡ cells.old.items ++ cell ∷ []) }
    ensures refused { OnErr result (cells.new.items ≡ cells.old.items) }
{
    match cells.push(cell) {
        Ok(()) => Ok(()),
        Err(_) => Err(AllocError),
    }
}

// How many uses a cell has.
fn use_count(cells: &[TreeCell], cell: usize) -> usize
    requires { cell < length cells.now }
    ensures { result ≡ length (cell_at (states cells.now) cell).uses }
{
    cells[cell].uses.len()
}

// The child of a cell's use.
fn child_at(cells: &[TreeCell], cell: usize, k: usize) -> usize
    requires within { cell < length cells.now }
    requires below { k < length (cell_at (states cells.now) cell).uses }
    ensures { ChildIs (states cells.now) cell k result }
{
    cells[cell].uses.body(k).child.0
}

// Makes the cell known to the children of its uses.
fn tell(cells: &mut [TreeCell], cell: usize) -> Result<(), AllocError>
    requires within { cell < length cells.old }
    requires lawful { AreLawfulCells (states cells.old) }
    requires users { KnowUsersTo cells.old cell }
    ensures told { OnOk result (KnowUsersTo cells.new (suc cell)) }
    ensures part { KnowUsersFrom cells.new cell }
    ensures states { states cells.new ≡ states cells.old }
{
    for k in 0..use_count(cells, cell) {
        let child = child_at(cells, cell, k);
        reserve_user(cells, child)?;
        push_user(cells, child, cell);
    }
    Ok(())
}

// Makes the cells from the first on known to the children of their uses.
fn tell_all(cells: &mut [TreeCell], first: usize) -> Result<(), AllocError>
    requires lawful { AreLawfulCells (states cells.old) }
    requires first { first ≤ length cells.old }
    requires users { KnowUsersTo cells.old first }
    ensures told { OnOk result (KnowUsers cells.new) }
    ensures part { KnowUsersFrom cells.new first }
    ensures states { states cells.new ≡ states cells.old }
{
    for cell in first..cells.len() {
        tell(cells, cell)?;
    }
    Ok(())
}

// Makes the children of a cell's uses forget it.
fn forget(cells: &mut [TreeCell], cell: usize)
    requires within { cell < length cells.old }
    requires lawful { AreLawfulCells (states cells.old) }
    ensures { AreForgotten cells.old cells.new cell (length (cell_at (states cells.old) cell).uses) }
{
    for k in 0..use_count(cells, cell) {
        let child = child_at(cells, cell, k);
        remove_user(cells, child, cell);
    }
}

// Makes all cells forget the users from the first on.
fn forget_all(cells: &mut [TreeCell], first: usize)
    requires lawful { AreLawfulCells (states cells.old) }
    requires first { first ≤ length cells.old }
    requires users { KnowUsersFrom cells.old first }
    ensures users { KnowUsersTo cells.new first }
    ensures states { states cells.new ≡ states cells.old }
{
    for cell in first..cells.len() {
        forget(cells, cell);
    }
}

// Makes the cells that came known, and adds their sizes. Where that is refused, they are not known, and the book says the same.
fn settle(cells: &mut [TreeCell], book: &mut SizeBook, new: &NewOrder) -> Result<(), TreeFault>
    requires users { KnowUsersTo cells.old new.now.first }
    requires first { new.now.first ≤ length cells.old }
    requires sized { MayBeSized (states cells.old) new.now.first new.now.order.items book.old.sizes.items }
    requires ready { IsReady book.old new.now.first }
    requires room { HasRoomForAll book.old (length cells.old) }
    requires edits { book.old.edits < u64.MAX }
    ensures states { states cells.new ≡ states cells.old }
    ensures known { OnOk result (KnowUsers cells.new) }
    ensures extended { OnOk result (IsExtended (states cells.old) new.now.first (length cells.old) book.old book.new) }
    ensures refused { IfErr result (RefusesSizes (states cells.old)) }
    ensures unknown { OnErr result (KnowUsersTo cells.new new.now.first) }
    ensures same { OnErr result (SaysTheSame book.old book.new) }
    ensures ready { OnErr result (IsReady book.new new.now.first) }
{
    match tell_all(cells, new.first) {
        Ok(()) => {}
        Err(_) => {
            forget_all(cells, new.first);
            return Err(TreeFault::Memory);
        }
    }
    match book.extend(cells, new) {
        Ok(()) => Ok(()),
        Err(dimension) => {
            forget_all(cells, new.first);
            Err(TreeFault::Passed(dimension))
        }
    }
}

/// Adds cells with their uses at the end, and their sizes to the book, as one edit. Where that is refused, the book says the same, and
/// some of the cells stay at the end, unknown to all.
pub fn add_all(
    alloc: Global,
    cells: &mut Vec<TreeCell>,
    book: &mut SizeBook,
    new: Vec<NewCell>,
) -> Result<(), TreeFault>
    requires whole { IsWhole cells.old.items book.old }
    requires may { MayAllCome (tree_of cells.old.items book.old) (new_states new.items) }
    requires edits { book.old.edits < u64.MAX }
    ensures whole { OnOk result (IsWhole cells.new.items book.new) }
    ensures added { OnOk result (AreAdded (tree_of cells.old.items book.old) (tree_of cells.new.items book.new) (new_states new.items)) }
    ensures refused { IfErr result (RefusesAll (tree_of cells.old.items book.old) (new_states new.items)) }
    ensures behind { OnErr result (AreBehind cells.old.items cells.new.items) }
    ensures same { OnErr result (SaysTheSame book.old book.new) }
    ensures ready { OnErr result (IsReady book.new (length cells.old.items)) }
{
    let first = cells.len();
    match push_all(alloc, cells, new) {
        Ok(()) => {}
        Err(_) => return Err(TreeFault::Memory),
    }
    match book.reserve_all(cells.len()) {
        Ok(()) => {}
        Err(_) => return Err(TreeFault::Memory),
    }
    match new_order(alloc, cells.as_slice(), first) {
        Ok(order) => settle(cells.as_mut_slice(), book, &order),
        Err(fault) => Err(fault),
    }
}
