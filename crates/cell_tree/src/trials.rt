//! Trying a size: what the cells above a cell grow to.
ghost use Rattle.std.specs.Prelude.{◌≡◌, ◌≢◌, ◌↔◌, ℕ, ◌-◌, ◌<◌, false, length, slice_get, IsTrue, Some, OnOk, IfErr};
ghost use Rattle.cell_tree.specs.declared.sizes.Dimension.{Dimension as IsDimension};
ghost use Rattle.cell_tree.specs.Cells.{states};
ghost use Rattle.cell_tree.specs.Sizes.{CellState, size_at, size_of, IsWithin, AreChildrenWithin};
ghost use Rattle.cell_tree.specs.Above.{StandsIn, StandsBefore};
ghost use Rattle.cell_tree.specs.Trials.{IsTried, AreLawfulCells, SetsDimension, IsDone, StopsIn};
ghost use Rattle.cell_tree.specs.Books.{ListsAbove, AreLawful};
ghost use Rattle.cell_tree.specs.steps.Passes.{MayPass, IsPass, WouldPassFirst};

use crate::cells::TreeCell;
use crate::sizes::{Dimension, Size, is_within, measured, with_dimension};

/// Works out one dimension of a cell's size. `false` where it passes its limit.
pub fn resize_one(dimension: Dimension, cells: &[TreeCell], key: usize, next: &mut [Size]) -> bool
    requires within { key < length cells.now }
    requires long { length next.old ≡ length cells.now }
    requires lawful { AreLawfulCells (states cells.now) }
    requires children { (body : CellState) → slice_get (states cells.now) key ≡ Some body → AreChildrenWithin dimension (size_at next.old) body.uses }
    ensures set { (body : CellState) → slice_get (states cells.now) key ≡ Some body → SetsDimension dimension key (size_of (size_at next.old) body) next.old next.new }
    ensures within { IsTrue result ↔ IsWithin dimension (size_at next.new key) }
{
    let size = measured(dimension, cells[key].own, &cells[key].uses, next);
    next[key] = with_dimension(dimension, &next[key], &size);
    is_within(dimension, &next[key])
}

/// Works out one dimension of the sizes of the cells in the order, from its end on, but for the last, which has its size. Stops at the
/// first that passes its limit.
fn resize(
    dimension: Dimension,
    cells: &[TreeCell],
    cell: usize,
    order: &[usize],
    next: &mut [Size],
) -> bool
    requires ready { MayPass dimension cells.now cell order.now next.old }
    requires within { (key : ℕ) → (StandsBefore order.now (length order.now - 1) key → ⊥) → IsWithin dimension (size_at next.old key) }
    ensures done { IsTrue result → IsDone dimension (states cells.now) cell order.now next.new }
    ensures stopped { result ≡ false → StopsIn dimension (states cells.now) cell order.now next.new }
    ensures pass { IsPass dimension cell order.now next.old next.new }
{
    let mut k = order.len() - 1;
    while k > 0 {
        k -= 1;
        if !resize_one(dimension, cells, order[k], next) {
            return false;
        }
    }
    true
}

/// Works out one dimension of the sizes of all above the cell, which has its size. `false` where the cell or one above it passes the
/// limit.
fn try_dimension(
    dimension: Dimension,
    cells: &[TreeCell],
    cell: usize,
    order: &[usize],
    next: &mut [Size],
) -> bool
    requires ready { MayPass dimension cells.now cell order.now next.old }
    requires within { (key : ℕ) → key ≢ cell → IsWithin dimension (size_at next.old key) }
    ensures done { IsTrue result → IsDone dimension (states cells.now) cell order.now next.new }
    ensures stopped { result ≡ false → StopsIn dimension (states cells.now) cell order.now next.new }
    ensures pass { IsPass dimension cell order.now next.old next.new }
{
    if !is_within(dimension, &next[cell]) {
        return false;
    }
    resize(dimension, cells, cell, order, next)
}

/// Tries this size for the cell: what all above it grow to stands in the list of sizes then. Else the first dimension whose limit the
/// cell or one above it would pass.
pub fn try_size(
    cells: &[TreeCell],
    cell: usize,
    size: &Size,
    order: &[usize],
    next: &mut [Size],
) -> Result<(), Dimension>
    requires order { ListsAbove cells.now cell order.now }
    requires lawful { AreLawful cells.now next.old }
    ensures tried { OnOk result (IsTried (states cells.now) next.old next.new cell size.now) }
    ensures within { OnOk result ((dimension : IsDimension) (key : ℕ) → IsWithin dimension (size_at next.new key)) }
    ensures refused { IfErr result (λ dimension. WouldPassFirst dimension (states cells.now) next.old cell size.now) }
    ensures others { (key : ℕ) → (StandsIn order.now key → ⊥) → size_at next.new key ≡ size_at next.old key }
{
    next[cell] = *size;
    if !try_dimension(Dimension::Depth, cells, cell, order, next) {
        return Err(Dimension::Depth);
    }
    if !try_dimension(Dimension::Elements, cells, cell, order, next) {
        return Err(Dimension::Elements);
    }
    if !try_dimension(Dimension::Hull, cells, cell, order, next) {
        return Err(Dimension::Hull);
    }
    Ok(())
}
