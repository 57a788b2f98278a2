//! Where the elements of a cell stand that may meet an area.
ghost use Rattle.std.specs.Prelude.{◌≡◌, ◌<◌, ◌≤◌, ◌+◌, ◌*◌, suc, ℕ, pos, ◌*ℤ◌, ◌<ℤ◌, length, slice_get, OnOk, IfOk, Some};
ghost use Rattle.std.specs.Int.{w32};
ghost use Rattle.std.specs.Option.{option_map};
ghost use Rattle.std.specs.Int.RustNames.{FitsSigned};
ghost use Rattle.geo_core.specs.Elements.{indices};
ghost use Rattle.geo_core.specs.Reach.{IsInReach};
ghost use Rattle.cell_tree.specs.Uses.{displacements, IsLawfulUse, IsShift};
ghost use Rattle.cell_tree.specs.Sizes.{size_at};
ghost use Rattle.cell_tree.specs.Trees.{cell_at, IsLawfulTree};
ghost use Rattle.cell_tree.specs.declared.limits.TheConstants.{MOST_ELEMENTS_BELOW};
ghost use Rattle.cell_library.specs.Spots.{AddsSpots, HasRoomToMove};
ghost use Rattle.cell_library.specs.steps.Spans.{AddsRow, CanBeDropped, HasRoomFor, HoldsMultiples, IsGridOf, SpansFar};
ghost use Rattle.cell_library.specs.steps.Spans.{seen_high_x, seen_low_x, spot_at, spots_to};
ghost use Rattle.cell_library.specs.steps.UsePlaces.{IsApart, spots_of_use};

use cell_tree::{CellTree, UseBody};
use ext_model::CellKey;
use geo_core::{Grid, Orient, Rect, Transform};
use std::alloc::AllocError;

/// A cell that stands somewhere at or below the cell that is looked at: the transform that takes its coordinates to those of the cell that
/// is looked at, the part in which it stands, and its number among all standing cells.
#[derive(Clone, Copy)]
pub struct Spot {
    pub cell: CellKey,
    pub to_top: Transform,
    pub part: u32,
    pub element: u32,
}

/// A use whose elements are looked for in an area of the cell that uses it, which stands under a transform.
#[derive(Clone, Copy)]
pub struct UseSearch {
    pub used: UseBody,
    pub outer: Transform,
    /// The part and the number of the first element, and how far these rise from one element to the next.
    pub part: u32,
    pub part_step: u32,
    pub element: u32,
    pub size: u32,
    /// The hull of the child.
    pub hull: Rect,
    /// The area, in the coordinates of the cell that uses it.
    pub back: Rect,
}

/// Where the elements of a use stand, which stands in a cell under a transform.
#[derive(Clone, Copy)]
pub struct UsePlace {
    pub outer: Transform,
    /// The part and the number of the first element, and how far the parts rise from one element to the next.
    pub part: u32,
    pub part_step: u32,
    pub element: u32,
}

/// The first number whose multiple of a step may lie past a bound.
fn first_past(step: u64, low: i64) -> u64
    requires { 0 < step }
    ensures { (n : ℕ) → low <ℤ pos (n * step) → result ≤ n }
{
    if low < 0 {
        0
    } else {
        low.unsigned_abs() / step + 1
    }
}

/// A number past all whose multiples of a step lie before a bound.
fn past_last(step: u64, high: i64) -> u64
    requires { 0 < step }
    ensures { (n : ℕ) → pos (n * step) <ℤ high → n < result }
{
    if high <= 0 {
        0
    } else {
        (high.unsigned_abs() - 1) / step + 1
    }
}

/// Numbers from the first to before the second, of which none below the count is missing whose multiple of the step lies between two bounds.
fn multiples_around(count: u64, step: i64, low: i64, high: i64) -> (u64, u64)
    requires step { IsShift step }
    requires low { IsInReach low }
    requires high { IsInReach high }
    ensures { (n : ℕ) → n < count → low <ℤ (pos n *ℤ step) → (pos n *ℤ step) <ℤ high → (result.0 ≤ n) × (n < result.1) }
{
    if step > 0 {
        let size = step.unsigned_abs();
        (first_past(size, low), past_last(size, high))
    } else if step < 0 {
        let size = step.unsigned_abs();
        (first_past(size, -high), past_last(size, -low))
    } else if low < 0 && 0 < high {
        (0, count)
    } else {
        (0, 0)
    }
}

/// The numbers below a count whose multiples of a step lie between two bounds, from the first to before the second.
fn multiples_between(count: u64, step: i64, low: i64, high: i64) -> (u64, u64)
    requires step { IsShift step }
    requires low { IsInReach low }
    requires high { IsInReach high }
    ensures { HoldsMultiples count step low high result.0 result.1 }
{
    let (from, to) = multiples_around(count, step, low, high);
    let to = to.min(count);
    (from.min(to), to)
}

/// How many values an index has that runs from one end to the other.
fn index_count(from: i64, to: i64) -> u64
    requires from { FitsSigned w32 from }
    requires to { FitsSigned w32 to }
    ensures { result ≡ indices from to }
{
    from.abs_diff(to) + 1
}

/// The grid of a use: one that has none has one element, which is not displaced.
fn grid_of(used: &UseBody) -> Grid
    requires { IsLawfulUse used.now }
    ensures { IsGridOf used.now result }
{
    match used.grid {
        Some(grid) => grid,
        None => Grid {
            xlo: 0,
            xhi: 0,
            xsep: 0,
            ylo: 0,
            yhi: 0,
            ysep: 0,
        },
    }
}

/// How many elements a use has.
pub fn element_count(used: &UseBody) -> u64
    requires { IsLawfulUse used.now }
    ensures { result ≡ length (displacements used.now.grid) }
{
    match used.grid {
        Some(grid) => grid.count(),
        None => 1,
    }
}

/// The spot of the k-th element of the use, which is displaced so far.
fn spot_of(from: &UseSearch, k: u64, dx: i64, dy: i64) -> Spot
    requires room { HasRoomFor from.now }
    requires stands { slice_get (displacements from.now.used.grid) k ≡ Some (dx, dy) }
    ensures { result ≡ spot_at from.now k (dx, dy) }
{
    let displaced = Transform {
        orient: Orient::R0,
        dx,
        dy,
    };
    let k = k as u32;
    Spot {
        cell: from.used.child,
        to_top: displaced.then(&from.used.placed).then(&from.outer),
        part: from.part + k * from.part_step,
        element: from.element + k * from.size,
    }
}

/// Adds the spots of the elements of one row of the grid that may meet the area.
fn add_row(
    found: &mut Vec<Spot>,
    from: &UseSearch,
    grid: &Grid,
    m: u64,
    across: (u64, u64),
) -> Result<(), AllocError>
    requires room { HasRoomFor from.now }
    requires grid { IsGridOf from.now.used grid.now }
    requires row { m < indices grid.now.ylo grid.now.yhi }
    requires across { HoldsMultiples (indices grid.now.xlo grid.now.xhi) grid.now.xsep (seen_low_x from.now) (seen_high_x from.now)
        across.0 across.1 }
    ensures { OnOk result (AddsRow from.now (m * indices grid.now.xlo grid.now.xhi) (suc m * indices grid.now.xlo grid.now.xhi)
        found.old.items found.new.items) }
{
    let columns = index_count(grid.xlo, grid.xhi);
    for n in across.0..across.1 {
        let k = m * columns + n;
        let (_, _, dx, dy) = grid.element(k);
        found.push(spot_of(from, k, dx, dy))?;
    }
    Ok(())
}

/// Adds the spots of the elements of the use that may meet the area.
fn add_elements(found: &mut Vec<Spot>, from: &UseSearch) -> Result<(), AllocError>
    requires { HasRoomFor from.now }
    ensures { OnOk result (AddsSpots (CanBeDropped from.now) (spots_to from.now (length (displacements from.now.used.grid)))
        found.old.items found.new.items) }
{
    let grid = grid_of(&from.used);
    let seen = from.used.placed.inverse().rect(from.back);
    let columns = index_count(grid.xlo, grid.xhi);
    let rows = index_count(grid.ylo, grid.yhi);
    let across = multiples_between(
        columns,
        grid.xsep,
        seen.xlo - from.hull.xhi,
        seen.xhi - from.hull.xlo,
    );
    let up = multiples_between(
        rows,
        grid.ysep,
        seen.ylo - from.hull.yhi,
        seen.yhi - from.hull.ylo,
    );
    for m in up.0..up.1 {
        add_row(found, from, &grid, m, across)?;
    }
    Ok(())
}

/// The body of the k-th use of the cell.
pub fn use_of(tree: &CellTree, cell: CellKey, k: usize) -> &UseBody
    requires cell { cell.0 < length tree.now.cells }
    requires place { k < length (cell_at tree.now.cells cell.0).uses }
    ensures { option_map (λ entry. entry.1) (slice_get (cell_at tree.now.cells cell.0).uses k) ≡ Some result.now }
{
    match tree.use_at(cell.0, k) {
        Some((_, used)) => used,
        None => unreachable!(),
    }
}

/// Adds the spots of the elements of a use that may meet the area. The first element has this part and this number.
pub fn add_use(
    found: &mut Vec<Spot>,
    tree: &CellTree,
    from: &UsePlace,
    used: &UseBody,
    back: Rect,
) -> Result<(), AllocError>
    requires lawful { IsLawfulTree tree.now }
    requires child { used.now.child.0 < length tree.now.cells }
    requires used { IsLawfulUse used.now }
    requires moves { HasRoomToMove 1 from.now.outer }
    requires parts { from.now.part + length (displacements used.now.grid) * from.now.part_step ≤ MOST_ELEMENTS_BELOW }
    requires elements { from.now.element + length (displacements used.now.grid) * (size_at tree.now.sizes used.now.child.0).elements
        ≤ MOST_ELEMENTS_BELOW }
    requires back { SpansFar back }
    ensures { OnOk result (AddsSpots (IsApart tree.now.sizes from.now.outer back) (spots_of_use tree.now.sizes from.now used.now)
        found.old.items found.new.items) }
{
    let hull = match tree.hull(used.child.0) {
        Some(hull) => hull,
        None => return Ok(()),
    };
    let search = UseSearch {
        used: *used,
        outer: from.outer,
        part: from.part,
        part_step: from.part_step,
        element: from.element,
        size: tree.elements(used.child.0) as u32,
        hull,
        back,
    };
    add_elements(found, &search)?;
    Ok(())
}
