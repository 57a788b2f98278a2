//! What is kept of all cells beside the cells: sizes and stamps, and the room in which a trial works.
ghost use Rattle.std.specs.Prelude.{◌≡◌, ◌↔◌, ℕ, suc, ◌<◌, ◌++◌, ◌∷◌, [], ◌-◌, ◌≤◌, false, length, replicate, IsTrue, None, OnOk, OnErr, IfErr};
ghost use Rattle.std.specs.Prelude.{slice_index_or, vec_capacity, List as Items};
ghost use Rattle.cell_tree.specs.declared.sizes.Dimension.{Dimension as IsDimension};
ghost use Rattle.cell_tree.specs.declared.sizes.Size.{Size as IsSize};
ghost use Rattle.cell_tree.specs.Cells.{states, IsAbove};
ghost use Rattle.cell_tree.specs.Sizes.{size_at, own_size, IsWithin};
ghost use Rattle.cell_tree.specs.Above.{at, IsSeen, StandsIn};
ghost use Rattle.cell_tree.specs.Trials.{FitsIn, IsTried, PassesFirst};
ghost use Rattle.cell_tree.specs.Trees.{stamp_at};
ghost use Rattle.cell_tree.specs.Books.{ListsAbove, AreListed, IsReady, HasRoom, IsFound, SaysTheSame, AreLawful, IsBooked};
ghost use Rattle.cell_tree.specs.Additions.{PassesWithAll};
ghost use Rattle.cell_tree.specs.Arrivals.{HasRoomForAll, MayBeSized, IsExtended};

use crate::above::find_above;
use crate::arrivals::{NewOrder, resize_all};
use crate::cells::TreeCell;
use crate::sizes::{Dimension, Size, own_size};
use crate::trials::try_size;
use std::alloc::{AllocError, Global};

/// What is kept of all cells beside the cells.
pub struct SizeBook {
    /// The size of each cell.
    pub sizes: Vec<Size>,
    /// As `sizes`, but while a size is tried.
    pub next: Vec<Size>,
    /// The edit that last changed the cell or one below it.
    pub stamps: Vec<u64>,
    /// `false` for each cell, but while a cell and all above it are looked for.
    pub seen: Vec<bool>,
    /// Nothing, and room for all cells.
    pub order: Vec<usize>,
    /// How many edits there were.
    pub edits: u64,
}

impl Drop for SizeBook {
    fn drop(self) {
        let SizeBook {
            sizes: _,
            next: _,
            stamps: _,
            seen: _,
            order: _,
            edits: _,
        } = self;
    }
}

impl SizeBook {
    /// A book of no cells.
    pub fn new(alloc: Global) -> SizeBook
        ensures ready { IsReady result 0 }
        ensures sizes { result.sizes.items ≡ [] }
        ensures stamps { result.stamps.items ≡ [] }
        ensures edits { result.edits ≡ 0 }
    {
        SizeBook {
            sizes: Vec::new(alloc),
            next: Vec::new(alloc),
            stamps: Vec::new(alloc),
            seen: Vec::new(alloc),
            order: Vec::new(alloc),
            edits: 0,
        }
    }

    /// Makes room for one more cell. The book says the same.
    pub fn reserve(&mut self) -> Result<(), AllocError>
        requires ready { IsReady self.old (length self.old.sizes.items) }
        ensures ready { IsReady self.new (length self.old.sizes.items) }
        ensures same { SaysTheSame self.old self.new }
        ensures room { OnOk result (HasRoom self.new) }
    {
        self.sizes.reserve(1)?;
        self.next.reserve(1)?;
        self.stamps.reserve(1)?;
        self.seen.reserve(1)?;
        self.order.reserve(self.sizes.len() + 1)
    }

    /// Adds a cell without material and uses, as one more edit. It takes no memory.
    pub fn add(&mut self)
        requires ready { IsReady self.old (length self.old.sizes.items) }
        requires room { HasRoom self.old }
        requires edits { self.old.edits < u64.MAX }
        ensures ready { IsReady self.new (length self.new.sizes.items) }
        ensures sizes { self.new.sizes.items ≡ self.old.sizes.items ++ own_size None ∷ [] }
        ensures stamps { self.new.stamps.items ≡ self.old.stamps.items ++ self.new.edits ∷ [] }
        ensures edits { self.new.edits ≡ suc self.old.edits }
    {
        self.edits += 1;
        let _ = self.sizes.push(own_size(None));
        let _ = self.next.push(own_size(None));
        let _ = self.stamps.push(self.edits);
        let _ = self.seen.push(false);
    }

    /// Puts the cell and all above it in the order.
    fn find(&mut self, cells: &[TreeCell], cell: usize)
        requires lawful { AreLawful cells.now self.old.sizes.items }
        requires ready { IsReady self.old (length cells.now) }
        requires within { cell < length cells.now }
        ensures order { ListsAbove cells.now cell self.new.order.items }
        ensures found { IsFound self.old self.new }
    {
        find_above(
            cells,
            self.sizes.as_slice(),
            cell,
            self.seen.as_mut_slice(),
            &mut self.order,
        );
    }

    /// Ends what `find` began.
    fn forget(&mut self)
        requires within { (place : ℕ) → place < length self.old.order.items → at self.old.order.items place < length self.old.seen.items }
        requires marked { (key : ℕ) → IsSeen self.old.seen.items key → StandsIn self.old.order.items key }
        ensures seen { length self.new.seen.items ≡ length self.old.seen.items }
        ensures unseen { (key : ℕ) → slice_index_or self.new.seen.items key false ≡ false }
        ensures order { self.new.order.items ≡ [] }
        ensures room { vec_capacity self.new.order ≡ vec_capacity self.old.order }
        ensures next { self.new.next.items ≡ self.old.next.items }
        ensures same { SaysTheSame self.old self.new }
    {
        unmark(self.order.as_slice(), self.seen.as_mut_slice());
        self.order.clear();
    }

    /// Whether the upper cell is the lower one or stands above it.
    pub fn is_above(&mut self, cells: &[TreeCell], upper: usize, lower: usize) -> bool
        requires lawful { AreLawful cells.now self.old.sizes.items }
        requires ready { IsReady self.old (length cells.now) }
        requires upper { upper < length cells.now }
        requires lower { lower < length cells.now }
        ensures above { IsTrue result ↔ IsAbove (states cells.now) lower upper }
        ensures ready { IsReady self.new (length cells.now) }
        ensures same { SaysTheSame self.old self.new }
    {
        self.find(cells, lower);
        let above = self.seen[upper];
        self.forget();
        above
    }

    /// Whether the cell may have this size: the first dimension whose limit it or a cell above it would pass. The book says the same.
    pub fn fits(&mut self, cells: &[TreeCell], cell: usize, size: &Size) -> Result<(), Dimension>
        requires lawful { AreLawful cells.now self.old.sizes.items }
        requires ready { IsReady self.old (length cells.now) }
        requires within { cell < length cells.now }
        ensures fits { OnOk result (FitsIn (states cells.now) self.old.sizes.items cell size.now) }
        ensures refused { IfErr result (λ dimension. (tried : Items IsSize) → IsTried (states cells.now) self.old.sizes.items tried cell size.now
            → PassesFirst dimension (states cells.now) cell tried) }
        ensures ready { IsReady self.new (length cells.now) }
        ensures same { SaysTheSame self.old self.new }
    {
        self.find(cells, cell);
        let fits = try_size(
            cells,
            cell,
            size,
            self.order.as_slice(),
            self.next.as_mut_slice(),
        );
        self.give_up();
        fits
    }

    /// Gives the cell this size, and all above it what they grow to, as one more edit that stamps them; or answers the first dimension
    /// whose limit one of them would pass, and says the same as before.
    pub fn grow(&mut self, cells: &[TreeCell], cell: usize, size: &Size) -> Result<(), Dimension>
        requires lawful { AreLawful cells.now self.old.sizes.items }
        requires ready { IsReady self.old (length cells.now) }
        requires within { cell < length cells.now }
        requires edits { self.old.edits < u64.MAX }
        ensures booked { OnOk result (IsBooked cells.now self.old self.new cell size.now) }
        ensures limits { OnOk result ((dimension : IsDimension) (key : ℕ) → IsWithin dimension (size_at self.new.sizes.items key)) }
        ensures refused { IfErr result (λ dimension. (tried : Items IsSize) → IsTried (states cells.now) self.old.sizes.items tried cell size.now
            → PassesFirst dimension (states cells.now) cell tried) }
        ensures ready { IsReady self.new (length cells.now) }
        ensures same { OnErr result (SaysTheSame self.old self.new) }
    {
        self.find(cells, cell);
        let tried = try_size(
            cells,
            cell,
            size,
            self.order.as_slice(),
            self.next.as_mut_slice(),
        );
        match &tried {
            Ok(()) => self.commit(),
            Err(_) => self.give_up(),
        }
        tried
    }

    /// Makes room for so many cells. The book says the same.
    pub fn reserve_all(&mut self, count: usize) -> Result<(), AllocError>
        requires ready { IsReady self.old (length self.old.sizes.items) }
        ensures ready { IsReady self.new (length self.old.sizes.items) }
        ensures same { SaysTheSame self.old self.new }
        ensures room { OnOk result (HasRoomForAll self.new count) }
    {
        let more = count.saturating_sub(self.sizes.len());
        self.sizes.reserve(more)?;
        self.next.reserve(more)?;
        self.stamps.reserve(more)?;
        self.seen.reserve(more)?;
        self.order.reserve(count)
    }

    /// Adds the sizes of the cells that come, as one more edit. Else the first dimension whose limit one of them would pass, and the book
    /// says the same. It takes no memory.
    pub fn extend(&mut self, cells: &[TreeCell], new: &NewOrder) -> Result<(), Dimension>
        requires ready { IsReady self.old new.now.first }
        requires room { HasRoomForAll self.old (length cells.now) }
        requires sized { MayBeSized (states cells.now) new.now.first new.now.order.items self.old.sizes.items }
        requires grows { new.now.first ≤ length cells.now }
        requires edits { self.old.edits < u64.MAX }
        ensures extended { OnOk result (IsExtended (states cells.now) new.now.first (length cells.now) self.old self.new) }
        ensures refused { IfErr result (λ dimension. PassesWithAll dimension (states cells.now)) }
        ensures same { OnErr result (SaysTheSame self.old self.new) }
        ensures ready { OnErr result (IsReady self.new new.now.first) }
    {
        fill(&mut self.next, cells.len(), own_size(None));
        let sized = resize_all(cells, new, self.next.as_mut_slice());
        match &sized {
            Ok(()) => self.take_over(new.order.as_slice(), cells.len()),
            Err(_) => self.next.truncate(new.first),
        }
        sized
    }

    // Takes over the sizes of so many cells, of which those of the order come, as one more edit.
    fn take_over(&mut self, order: &[usize], count: usize)
        requires room { HasRoomForAll self.old count }
        requires next { length self.old.next.items ≡ count }
        requires grows { length self.old.sizes.items ≤ count }
        requires stamps { length self.old.stamps.items ≡ length self.old.sizes.items }
        requires seen { length self.old.seen.items ≡ length self.old.sizes.items }
        requires unseen { (key : ℕ) → slice_index_or self.old.seen.items key false ≡ false }
        requires order { self.old.order.items ≡ [] }
        requires within { (place : ℕ) → place < length order.now → at order.now place < count }
        requires others { (key : ℕ) → key < length self.old.sizes.items → size_at self.old.sizes.items key ≡ size_at self.old.next.items key }
        requires all { (key : ℕ) → length self.old.sizes.items ≤ key → key < count → StandsIn order.now key }
        requires edits { self.old.edits < u64.MAX }
        ensures ready { IsReady self.new count }
        ensures sizes { self.new.sizes.items ≡ self.old.next.items }
        ensures edits { self.new.edits ≡ suc self.old.edits }
        ensures stamps { self.new.stamps.items ≡ self.old.stamps.items ++ replicate (count - length self.old.stamps.items) self.new.edits }
    {
        self.edits += 1;
        fill(&mut self.sizes, count, own_size(None));
        fill(&mut self.stamps, count, self.edits);
        fill(&mut self.seen, count, false);
        copy_sizes(order, self.sizes.as_mut_slice(), self.next.as_slice());
    }

    // Takes over the sizes that were tried, as one more edit.
    fn commit(&mut self)
        requires order { AreListed self.old }
        requires edits { self.old.edits < u64.MAX }
        requires next { (key : ℕ) → (StandsIn self.old.order.items key → ⊥) → size_at self.old.next.items key ≡ size_at self.old.sizes.items key }
        ensures ready { IsReady self.new (length self.old.sizes.items) }
        ensures sizes { self.new.sizes.items ≡ self.old.next.items }
        ensures edits { self.new.edits ≡ suc self.old.edits }
        ensures count { length self.new.stamps.items ≡ length self.old.stamps.items }
        ensures raised { (key : ℕ) → StandsIn self.old.order.items key → stamp_at self.new.stamps.items key ≡ self.new.edits }
        ensures others { (key : ℕ) → (StandsIn self.old.order.items key → ⊥) → stamp_at self.new.stamps.items key ≡ stamp_at self.old.stamps.items key }
    {
        self.edits += 1;
        copy_sizes(
            self.order.as_slice(),
            self.sizes.as_mut_slice(),
            self.next.as_slice(),
        );
        raise_stamps(
            self.order.as_slice(),
            self.stamps.as_mut_slice(),
            self.edits,
        );
        self.forget();
    }

    // Gives up the sizes that were tried.
    fn give_up(&mut self)
        requires order { AreListed self.old }
        requires next { (key : ℕ) → (StandsIn self.old.order.items key → ⊥) → size_at self.old.next.items key ≡ size_at self.old.sizes.items key }
        ensures ready { IsReady self.new (length self.old.sizes.items) }
        ensures same { SaysTheSame self.old self.new }
    {
        copy_sizes(
            self.order.as_slice(),
            self.next.as_mut_slice(),
            self.sizes.as_slice(),
        );
        self.forget();
    }
}

// Marks the cells of the order as not seen.
fn unmark(order: &[usize], seen: &mut [bool])
    requires within { (place : ℕ) → place < length order.now → at order.now place < length seen.old }
    requires marked { (key : ℕ) → IsSeen seen.old key → StandsIn order.now key }
    ensures { (key : ℕ) → slice_index_or seen.new key false ≡ false }
{
    for key in order {
        seen[*key] = false;
    }
}

// Gives the cells of the order the sizes of the other list. The lists agree then.
fn copy_sizes(order: &[usize], to: &mut [Size], from: &[Size])
    requires long { length to.old ≡ length from.now }
    requires within { (place : ℕ) → place < length order.now → at order.now place < length from.now }
    requires others { (key : ℕ) → (StandsIn order.now key → ⊥) → size_at to.old key ≡ size_at from.now key }
    ensures { to.new ≡ from.now }
{
    for key in order {
        to[*key] = from[*key];
    }
}

// Gives the cells of the order this stamp.
fn raise_stamps(order: &[usize], stamps: &mut [u64], stamp: u64)
    requires within { (place : ℕ) → place < length order.now → at order.now place < length stamps.old }
    ensures raised { (key : ℕ) → StandsIn order.now key → stamp_at stamps.new key ≡ stamp }
    ensures others { (key : ℕ) → (StandsIn order.now key → ⊥) → stamp_at stamps.new key ≡ stamp_at stamps.old key }
{
    for key in order {
        stamps[*key] = stamp;
    }
}

// Fills the list up to so many with this value. It takes no memory.
fn fill<T: Copy>(list: &mut Vec<T>, count: usize, value: T)
    requires room { count ≤ vec_capacity list.old }
    requires grows { length list.old.items ≤ count }
    ensures filled { list.new.items ≡ list.old.items ++ replicate (count - length list.old.items) value }
    ensures capacity { vec_capacity list.old ≤ vec_capacity list.new }
{
    for _ in list.len()..count {
        let _ = list.push(value);
    }
}
