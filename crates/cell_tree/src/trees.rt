//! The tree of cells that use each other.
ghost use Rattle.std.specs.Prelude.{◌≡◌, ◌↔◌, ℕ, ◌<◌, ◌≤◌, length, IsTrue, Some, OnOk, OnErr, IfOk, IfErr, IfSome, IfNone, slice_get};
ghost use Rattle.std.specs.Option.{option_map};
ghost use Rattle.geo_core.specs.declared.grids.Grid.{Grid as IsGrid};
ghost use Rattle.use_orders.specs.LibraryOrder.{IsLibraryOrder};
ghost use Rattle.cell_tree.specs.Uses.{HasIdAt, IsShift, IsLawfulGrid, IsLawfulUse};
ghost use Rattle.cell_tree.specs.Hulls.{IsInside};
ghost use Rattle.cell_tree.specs.Cells.{IsAbove};
ghost use Rattle.cell_tree.specs.Sizes.{size_at};
ghost use Rattle.cell_tree.specs.Trees.{cell_at, empty_tree, stamp_at, with_inserted, with_own, with_placed, with_moved, without_use};
ghost use Rattle.cell_tree.specs.Additions.{AreAdded, MayAllCome, RefusesAll, children_of, new_states};
ghost use Rattle.cell_tree.specs.Trees.{IsAdded, IsEdited, IsFree, IsLawfulOwn, IsLawfulTree, RefusesBox, RefusesInsertion, RefusesMove, RefusesUse};
ghost use Rattle.cell_tree.specs.Trees.{WouldKeepWithin};

use crate::additions::add_all;
use crate::cells::TreeCell;
use crate::edits::{add_use, drop_use, reserve_use, set_body, set_own};
use crate::faults::TreeFault;
use crate::graphs::CellGraph;
use crate::limits::MOST_USES;
use crate::new_cells::NewCell;
use crate::resizes::{size_with_box, size_with_placed, size_with_use};
use crate::size_books::SizeBook;
use crate::use_tables::{UseBody, UseTable};
use ext_model::CellKey;
use geo_core::{Grid, Rect, Transform};
use indexmap::IndexSet;
use std::alloc::{AllocError, Global};
use std::marker::Model;
use use_orders::below;

/// Cells that use each other, known by their positions 0, 1, 2.. in order of arrival: cells never leave.
///
/// Contracts see for each cell its own box, which is the smallest rectangle round its material and labels, and its uses in order of
/// arrival under their ids; its size, which is its hull, how many elements stand at and below it, and its depth; and its stamp, the
/// edit that last changed it or a cell below it. `lawful` says what holds of each tree.
///
/// An edit looks at the cell, at all above it and at their uses, and at no other cell.
pub struct CellTree {
    alloc: Global,
    cells: Vec<TreeCell>,
    book: SizeBook,
}

impl Drop for CellTree {
    fn drop(self) {
        let CellTree {
            alloc: _,
            cells: _,
            book: _,
        } = self;
    }
}

impl Model for CellTree {
    ghost use Rattle.cell_tree.specs.Trees.{Tree};
    ghost use Rattle.cell_tree.specs.Whole.{IsWhole, tree_of};

    ghost Value = { Tree };

    ghost view = { λ tree. tree_of tree.cells.items tree.book };

    ghost invariant = { λ tree. IsWhole tree.cells.items tree.book };
}

impl CellTree {
    /// A tree without cells. It takes no memory now.
    pub fn new(alloc: Global) -> CellTree
        ensures { result ≡ empty_tree }
    {
        CellTree {
            alloc,
            cells: Vec::new(alloc),
            book: SizeBook::new(alloc),
        }
    }

    /// What holds of each tree.
    pub fn lawful(&self)
        ensures { IsLawfulTree self.now }
    {
        let _ = self.cells.len();
    }

    /// How many cells there are.
    pub fn len(&self) -> usize
        ensures { result ≡ length self.now.cells }
    {
        self.cells.len()
    }

    /// How many edits there were.
    pub fn edits(&self) -> u64
        ensures { result ≡ self.now.edits }
    {
        self.book.edits
    }

    /// How many uses the cell has.
    pub fn use_count(&self, cell: usize) -> usize
        requires { cell < length self.now.cells }
        ensures { result ≡ length (cell_at self.now.cells cell).uses }
    {
        self.cells[cell].uses.len()
    }

    /// The place of the use with this id among the uses of the cell.
    pub fn find_use(&self, cell: usize, id: &[u8]) -> Option<usize>
        requires { cell < length self.now.cells }
        ensures found { IfSome result (λ k. HasIdAt (cell_at self.now.cells cell).uses k id.now) }
        ensures absent { IfNone result ((k : ℕ) → HasIdAt (cell_at self.now.cells cell).uses k id.now → ⊥) }
    {
        self.cells[cell].uses.find(id)
    }

    /// The id and the body of the k-th use of the cell, counted from 0. `None` exactly past the last.
    pub fn use_at(&self, cell: usize, k: usize) -> Option<(&[u8], &UseBody)>
        requires { cell < length self.now.cells }
        ensures { option_map (λ found. (found.0.now, found.1.now)) result ≡ slice_get (cell_at self.now.cells cell).uses k }
    {
        self.cells[cell].uses.get(k)
    }

    /// The smallest rectangle round the cell's own material and labels.
    pub fn own_box(&self, cell: usize) -> Option<Rect>
        requires { cell < length self.now.cells }
        ensures { result ≡ (cell_at self.now.cells cell).own }
    {
        self.cells[cell].own
    }

    /// The smallest rectangle round the cell's own box and the hulls of its elements.
    pub fn hull(&self, cell: usize) -> Option<Rect>
        requires { cell < length self.now.cells }
        ensures { result ≡ (size_at self.now.sizes cell).hull }
    {
        self.book.sizes[cell].hull
    }

    /// How many elements stand at and below the cell, itself counted.
    pub fn elements(&self, cell: usize) -> u64
        requires { cell < length self.now.cells }
        ensures { result ≡ (size_at self.now.sizes cell).elements }
    {
        self.book.sizes[cell].elements
    }

    /// How many cells the longest chain of uses has that begins at the cell.
    pub fn depth(&self, cell: usize) -> u64
        requires { cell < length self.now.cells }
        ensures { result ≡ (size_at self.now.sizes cell).depth }
    {
        self.book.sizes[cell].depth
    }

    /// The edit that last changed the cell or one below it.
    pub fn stamp(&self, cell: usize) -> u64
        requires { cell < length self.now.cells }
        ensures { result ≡ stamp_at self.now.stamps cell }
    {
        self.book.stamps[cell]
    }

    /// Adds a cell without material and uses at the end, with the room that later edits need, and answers its position. Memory alone
    /// refuses, and nothing is changed then.
    pub fn add_cell(&mut self) -> Result<usize, AllocError>
        requires { self.old.edits < u64.MAX }
        ensures added { IfOk result (λ cell. (cell ≡ length self.old.cells) × IsAdded self.old self.new) }
        ensures refused { OnErr result (self.new ≡ self.old) }
    {
        self.book.reserve()?;
        self.cells.reserve(1)?;
        let cell = self.cells.len();
        let empty = TreeCell {
            own: None,
            uses: UseTable::new(self.alloc),
            users: IndexSet::new(self.alloc),
        };
        let _ = self.cells.push(empty);
        self.book.add();
        Ok(cell)
    }

    /// The library order below a cell: the cell and all that stands below it in the order of uses, children before parents, each once, and
    /// the cell last. Want of memory alone refuses.
    pub fn below(&self, root: usize) -> Result<Vec<usize>, AllocError>
        requires { root < length self.now.cells }
        ensures { IfOk result (λ order. IsLibraryOrder (children_of self.now.cells) root order.items) }
    {
        let cells = self.cells.as_slice();
        below(self.alloc, &CellGraph { cells }, root)
    }

    /// Adds cells with their uses at the end, in their order, as one edit. A use may be of a cell that was there or of one that comes.
    ///
    /// # Errors
    ///
    /// `Cycle` with the position that the first cell would have that stands below itself; else `Passed` with the first dimension whose
    /// limit some cell would pass; and `Memory`. Nothing is changed then.
    pub fn add_all(&mut self, cells: Vec<NewCell>) -> Result<(), TreeFault>
        requires cells { MayAllCome self.old (new_states cells.items) }
        requires edits { self.old.edits < u64.MAX }
        ensures added { OnOk result (AreAdded self.old self.new (new_states cells.items)) }
        ensures refused { IfErr result (RefusesAll self.old (new_states cells.items)) }
        ensures same { OnErr result (self.new ≡ self.old) }
    {
        let first = self.cells.len();
        match add_all(self.alloc, &mut self.cells, &mut self.book, cells) {
            Ok(()) => Ok(()),
            Err(fault) => {
                self.cells.truncate(first);
                Err(fault)
            }
        }
    }

    /// Whether `set_box` would be accepted. It takes no memory, and changes nothing.
    ///
    /// # Errors
    ///
    /// `Passed(Hull)` alone, where the hull of some cell would leave the range of paint.
    pub fn fits_box(&mut self, cell: usize, own: Option<Rect>) -> Result<(), TreeFault>
        requires within { cell < length self.old.cells }
        requires lawful { IsLawfulOwn own }
        ensures fits { OnOk result (WouldKeepWithin self.old cell (with_own (cell_at self.old.cells cell) own)) }
        ensures refused { IfErr result (RefusesBox self.old cell own) }
        ensures same { self.new ≡ self.old }
    {
        let cells = self.cells.as_slice();
        let size = size_with_box(cells, self.book.sizes.as_slice(), cell, own);
        let fits = self.book.fits(cells, cell, &size);
        match fits {
            Ok(()) => Ok(()),
            Err(dimension) => Err(TreeFault::Passed(dimension)),
        }
    }

    /// Gives the cell this own box, as one more edit. It takes no memory.
    ///
    /// # Errors
    ///
    /// `Passed(Hull)` alone, where the hull of some cell would leave the range of paint. Nothing is changed then.
    pub fn set_box(&mut self, cell: usize, own: Option<Rect>) -> Result<(), TreeFault>
        requires within { cell < length self.old.cells }
        requires lawful { IsLawfulOwn own }
        requires edits { self.old.edits < u64.MAX }
        ensures edited { OnOk result (IsEdited self.old self.new cell (with_own (cell_at self.old.cells cell) own)) }
        ensures refused { IfErr result (RefusesBox self.old cell own) }
        ensures same { OnErr result (self.new ≡ self.old) }
    {
        let cells = self.cells.as_slice();
        let size = size_with_box(cells, self.book.sizes.as_slice(), cell, own);
        match self.book.grow(cells, cell, &size) {
            Ok(()) => {}
            Err(dimension) => return Err(TreeFault::Passed(dimension)),
        }
        set_own(self.cells.as_mut_slice(), cell, own);
        Ok(())
    }

    /// Gives the cell this own box, which lies inside the one that it has or is missing, as one more edit. It is never refused and takes
    /// no memory.
    pub fn shrink_box(&mut self, cell: usize, own: Option<Rect>)
        requires within { cell < length self.old.cells }
        requires lawful { IsLawfulOwn own }
        requires inside { IsInside own (cell_at self.old.cells cell).own }
        requires edits { self.old.edits < u64.MAX }
        ensures { IsEdited self.old self.new cell (with_own (cell_at self.old.cells cell) own) }
    {
        let cells = self.cells.as_slice();
        let size = size_with_box(cells, self.book.sizes.as_slice(), cell, own);
        match self.book.grow(cells, cell, &size) {
            Ok(()) => {}
            Err(_) => unreachable!(),
        }
        set_own(self.cells.as_mut_slice(), cell, own);
    }

    /// Adds a use at the end of the cell's, as one more edit. It takes its memory first.
    ///
    /// # Errors
    ///
    /// `Cycle` with the child's position where the child is the cell or has it below; else `TooManyUses` where the cell has
    /// `MOST_USES` uses; else `Passed` with the first dimension whose limit the cell or one above it would pass; and `Memory`. Nothing is
    /// changed then.
    pub fn place(&mut self, cell: usize, id: Vec<u8>, used: UseBody) -> Result<(), TreeFault>
        requires within { cell < length self.old.cells }
        requires new { (k : ℕ) → HasIdAt (cell_at self.old.cells cell).uses k id.items → ⊥ }
        requires lawful { IsLawfulUse used }
        requires child { used.child.0 < length self.old.cells }
        requires edits { self.old.edits < u64.MAX }
        ensures edited { OnOk result (IsEdited self.old self.new cell (with_placed (cell_at self.old.cells cell) id.items used)) }
        ensures refused { IfErr result (RefusesUse self.old cell id.items used) }
        ensures same { OnErr result (self.new ≡ self.old) }
    {
        let child = used.child.0;
        if self.is_above(child, cell) {
            return Err(TreeFault::Cycle(child));
        }
        self.lawful();
        if self.use_count(cell) >= MOST_USES {
            return Err(TreeFault::TooManyUses);
        }
        let end = self.use_count(cell);
        self.insert_use(cell, end, id, used)
    }

    /// Makes a use the one at this place among the cell's, as one more edit. The others keep their order. The use makes no cycle, and the
    /// cell has room for it. It takes its memory first.
    ///
    /// # Errors
    ///
    /// `Passed` with the first dimension whose limit the cell or one above it would pass; and `Memory`. Nothing is changed then.
    pub fn insert_use(
        &mut self,
        cell: usize,
        at: usize,
        id: Vec<u8>,
        used: UseBody,
    ) -> Result<(), TreeFault>
        requires within { cell < length self.old.cells }
        requires place { at ≤ length (cell_at self.old.cells cell).uses }
        requires new { (k : ℕ) → HasIdAt (cell_at self.old.cells cell).uses k id.items → ⊥ }
        requires lawful { IsLawfulUse used }
        requires child { used.child.0 < length self.old.cells }
        requires edits { self.old.edits < u64.MAX }
        requires free { IsFree self.old cell used }
        requires few { length (cell_at self.old.cells cell).uses < MOST_USES }
        ensures edited { OnOk result (IsEdited self.old self.new cell (with_inserted (cell_at self.old.cells cell) at id.items used)) }
        ensures refused { IfErr result (RefusesInsertion self.old cell at id.items used) }
        ensures same { OnErr result (self.new ≡ self.old) }
    {
        reserve_use(self.cells.as_mut_slice(), cell, used.child.0)?;
        let cells = self.cells.as_slice();
        let size = size_with_placed(cells, self.book.sizes.as_slice(), cell, &used);
        match self.book.grow(cells, cell, &size) {
            Ok(()) => {}
            Err(dimension) => return Err(TreeFault::Passed(dimension)),
        }
        add_use(self.cells.as_mut_slice(), cell, at, id, used);
        Ok(())
    }

    /// Places the k-th use of the cell otherwise and gives it this grid or none, as one more edit. It takes no memory.
    ///
    /// # Errors
    ///
    /// `Passed(Elements)` or `Passed(Hull)`, the first whose limit the cell or one above it would pass. Nothing is changed then.
    pub fn set_use(
        &mut self,
        cell: usize,
        k: usize,
        placed: Transform,
        grid: Option<Grid>,
    ) -> Result<(), TreeFault>
        requires within { cell < length self.old.cells }
        requires use_within { k < length (cell_at self.old.cells cell).uses }
        requires dx { IsShift placed.dx }
        requires dy { IsShift placed.dy }
        requires grid { (g : IsGrid) → grid ≡ Some g → IsLawfulGrid g }
        requires edits { self.old.edits < u64.MAX }
        ensures edited { OnOk result (IsEdited self.old self.new cell (with_moved (cell_at self.old.cells cell) k placed grid)) }
        ensures refused { IfErr result (RefusesMove self.old cell k placed grid) }
        ensures same { OnErr result (self.new ≡ self.old) }
    {
        let child = self.cells[cell].uses.body(k).child;
        let used = UseBody {
            child,
            placed,
            grid,
        };
        let cells = self.cells.as_slice();
        let size = size_with_use(cells, self.book.sizes.as_slice(), cell, k, &Some(used));
        match self.book.grow(cells, cell, &size) {
            Ok(()) => {}
            Err(dimension) => return Err(TreeFault::Passed(dimension)),
        }
        set_body(self.cells.as_mut_slice(), cell, k, used);
        Ok(())
    }

    /// Takes the k-th use of the cell away, as one more edit. The others keep their order. It is never refused and takes no memory.
    pub fn delete_use(&mut self, cell: usize, k: usize)
        requires within { cell < length self.old.cells }
        requires use_within { k < length (cell_at self.old.cells cell).uses }
        requires edits { self.old.edits < u64.MAX }
        ensures { IsEdited self.old self.new cell (without_use (cell_at self.old.cells cell) k) }
    {
        let child = self.cells[cell].uses.body(k).child.0;
        let cells = self.cells.as_slice();
        let size = size_with_use(cells, self.book.sizes.as_slice(), cell, k, &None);
        match self.book.grow(cells, cell, &size) {
            Ok(()) => {}
            Err(_) => unreachable!(),
        }
        drop_use(self.cells.as_mut_slice(), cell, k, child);
    }
}

impl CellTree {
    // Whether the upper cell is the lower one or stands above it.
    fn is_above(&mut self, upper: usize, lower: usize) -> bool
        requires upper { upper < length self.old.cells }
        requires lower { lower < length self.old.cells }
        ensures above { IsTrue result ↔ IsAbove self.old.cells lower upper }
        ensures same { self.new ≡ self.old }
    {
        self.book.is_above(self.cells.as_slice(), upper, lower)
    }
}
