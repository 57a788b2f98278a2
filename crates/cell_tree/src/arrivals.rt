//! The order and the sizes of cells that come at the end.
ghost use Rattle.std.specs.Prelude.{◌≡◌, ℕ, ◌<◌, ◌≤◌, false, length, slice_get, IsTrue, Some, OnOk, IfOk, IfErr};
ghost use Rattle.cell_tree.specs.declared.sizes.Dimension.{Dimension as IsDimension};
ghost use Rattle.cell_tree.specs.Sizes.{size_at, IsWithin, AreSizes};
ghost use Rattle.cell_tree.specs.Cells.{states, Uses};
ghost use Rattle.cell_tree.specs.Trials.{AreLawfulCells};
ghost use Rattle.cell_tree.specs.Additions.{IsBelowItself, PassesWithAll};
ghost use Rattle.cell_tree.specs.Arrivals.{IsNewOrder, AreSettled, AreKept, StopsAt, RefusesOrder};

use crate::cells::TreeCell;
use crate::faults::TreeFault;
use crate::graphs::CellGraph;
use crate::sizes::{Dimension, Size};
use crate::trials::resize_one;
use std::alloc::Global;
use use_orders::{Order, children_first};

/// Which of the cells come, and in which order they are worked out.
#[derive(Drop)]
pub struct NewOrder {
    /// The position from which on the cells come.
    pub first: usize,
    /// Each of them once, behind its children.
    pub order: Vec<usize>,
}

/// The order of the cells that come, or the first of all cells that stands below itself.
pub fn new_order(alloc: Global, cells: &[TreeCell], first: usize) -> Result<NewOrder, TreeFault>
    requires lawful { AreLawfulCells (states cells.now) }
    requires first { first ≤ length cells.now }
    requires old { (key child : ℕ) → key < first → Uses (states cells.now) key child → child < first }
    requires acyclic { (key : ℕ) → key < first → IsBelowItself (states cells.now) key → ⊥ }
    ensures first { IfOk result (λ new. new.first ≡ first) }
    ensures order { IfOk result (λ new. IsNewOrder (states cells.now) first new.order.items) }
    ensures refused { IfErr result (RefusesOrder (states cells.now)) }
{
    let graph = CellGraph { cells };
    match children_first(alloc, &graph, first) {
        Ok(found) => match found {
            Order::Acyclic(order) => Ok(NewOrder { first, order }),
            Order::Cyclic(cell) => Err(TreeFault::Cycle(cell)),
        },
        Err(_) => Err(TreeFault::Memory),
    }
}

/// Works out one dimension of the sizes of the cells that come, in their order. Stops at the first that passes its limit.
fn resize_new(dimension: Dimension, cells: &[TreeCell], new: &NewOrder, sizes: &mut [Size]) -> bool
    requires lawful { AreLawfulCells (states cells.now) }
    requires order { IsNewOrder (states cells.now) new.now.first new.now.order.items }
    requires long { length sizes.old ≡ length cells.now }
    requires old { AreSettled dimension (states cells.now) new.now.first new.now.order.items 0 sizes.old }
    ensures done { IsTrue result → AreSettled dimension (states cells.now) new.now.first new.now.order.items (length new.now.order.items) sizes.new }
    ensures stopped { result ≡ false → StopsAt dimension (states cells.now) new.now.first new.now.order.items sizes.new }
    ensures kept { AreKept dimension new.now.first sizes.old sizes.new }
{
    for key in &new.order {
        if !resize_one(dimension, cells, *key, sizes) {
            return false;
        }
    }
    true
}

/// Works out the sizes of the cells that come. Else the first dimension whose limit one of them passes.
pub fn resize_all(cells: &[TreeCell], new: &NewOrder, sizes: &mut [Size]) -> Result<(), Dimension>
    requires lawful { AreLawfulCells (states cells.now) }
    requires order { IsNewOrder (states cells.now) new.now.first new.now.order.items }
    requires long { length sizes.old ≡ length cells.now }
    requires old { (dimension : IsDimension) → AreSettled dimension (states cells.now) new.now.first new.now.order.items 0 sizes.old }
    ensures right { OnOk result (AreSizes (states cells.now) sizes.new) }
    ensures within { OnOk result ((dimension : IsDimension) (key : ℕ) → IsWithin dimension (size_at sizes.new key)) }
    ensures refused { IfErr result (λ dimension. PassesWithAll dimension (states cells.now)) }
    ensures kept { (key : ℕ) → key < new.now.first → size_at sizes.new key ≡ size_at sizes.old key }
{
    if !resize_new(Dimension::Depth, cells, new, sizes) {
        return Err(Dimension::Depth);
    }
    if !resize_new(Dimension::Elements, cells, new, sizes) {
        return Err(Dimension::Elements);
    }
    if !resize_new(Dimension::Hull, cells, new, sizes) {
        return Err(Dimension::Hull);
    }
    Ok(())
}
