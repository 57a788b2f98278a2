//! The boxes of the elements of a cell, and how many elements there are.
ghost use Rattle.std.specs.Prelude.{◌≡◌, ◌<◌, ◌++◌, length, map, IfOk, OnOk, Some, slice_get};
ghost use Rattle.geo_core.specs.Images.{rect_image};
ghost use Rattle.geo_core.specs.Reach.{MovesInReach, SpansInReach};
ghost use Rattle.cell_tree.specs.declared.limits.TheConstants.{MOST_ELEMENTS_BELOW};
ghost use Rattle.cell_tree.specs.Hulls.{SpansInRange, displaced, element_hulls};
ghost use Rattle.cell_tree.specs.Sizes.{hulls_below, size_at};
ghost use Rattle.cell_tree.specs.Uses.{displacements, IsLawfulGrid, IsLawfulUse};
ghost use Rattle.cell_library.specs.Libraries.{seen};
ghost use Rattle.cell_library.specs.PartCounts.{element_count, HasBodyAt};
ghost use Rattle.cell_library.specs.Views.{view_at};

use crate::library::Library;
use cell_tree::UseBody;
use ext_model::CellKey;
use geo_core::{Grid, Rect, Transform};
use std::alloc::AllocError;

/// How many elements the uses of the cell have.
pub fn element_count(library: &Library, cell: CellKey) -> usize
    requires { cell.0 < length library.now.contents }
    ensures count { result ≡ element_count (view_at (seen library.now) cell.0).uses }
    ensures few { result < MOST_ELEMENTS_BELOW }
{
    library.lawful();
    let mut count = 0;
    for k in 0..library.use_count(cell) {
        count += count_of(body_at(library, cell, k));
    }
    count
}

/// The boxes of the elements of the cell's uses, in order. Want of memory alone refuses.
pub fn boxes_of(library: &Library, cell: CellKey) -> Result<Vec<Rect>, AllocError>
    requires { cell.0 < length library.now.contents }
    ensures { IfOk result (λ boxes. boxes.items ≡ hulls_below (size_at library.now.tree.sizes) (view_at (seen library.now) cell.0).uses) }
{
    let count = element_count(library, cell);
    let mut boxes = Vec::with_capacity(library.alloc(), count)?;
    for k in 0..library.use_count(cell) {
        push_boxes(&mut boxes, library, body_at(library, cell, k))?;
    }
    Ok(boxes)
}

// The body of the k-th use of the cell.
fn body_at(library: &Library, cell: CellKey, k: usize) -> &UseBody
    requires cell { cell.0 < length library.now.contents }
    requires k { k < length (view_at (seen library.now) cell.0).uses }
    ensures body { HasBodyAt (view_at (seen library.now) cell.0).uses k result.now }
    ensures lawful { IsLawfulUse result.now }
    ensures child { result.now.child.0 < length library.now.contents }
{
    library.lawful();
    match library.use_at(cell, k) {
        Some((_, body)) => body,
        None => unreachable!(),
    }
}

// How many elements the use has.
fn count_of(body: &UseBody) -> usize
    requires { IsLawfulUse body.now }
    ensures { result ≡ length (displacements body.now.grid) }
{
    match &body.grid {
        Some(grid) => grid.count() as usize,
        None => 1,
    }
}

// Adds the boxes of the elements of the use, where its child has a hull. Want of memory alone refuses.
fn push_boxes(boxes: &mut Vec<Rect>, library: &Library, body: &UseBody) -> Result<(), AllocError>
    requires lawful { IsLawfulUse body.now }
    requires child { body.now.child.0 < length library.now.contents }
    ensures { OnOk result (boxes.new.items ≡ boxes.old.items ++ element_hulls body.now (size_at library.now.tree.sizes body.now.child.0).hull) }
{
    library.lawful();
    match library.hull(body.child) {
        Some(hull) => push_elements(boxes, body, hull),
        None => Ok(()),
    }
}

// Adds the boxes of the elements of the use, for the hull of its child. Want of memory alone refuses.
fn push_elements(boxes: &mut Vec<Rect>, body: &UseBody, hull: Rect) -> Result<(), AllocError>
    requires lawful { IsLawfulUse body.now }
    requires hull { SpansInRange hull }
    ensures { OnOk result (boxes.new.items ≡ boxes.old.items ++ element_hulls body.now (Some hull)) }
{
    match &body.grid {
        Some(grid) => push_grid(boxes, &body.placed, grid, hull),
        None => {
            boxes.push(body.placed.rect(hull))?;
            Ok(())
        }
    }
}

// Adds the boxes of the elements of a grid, for the hull of the child. Want of memory alone refuses.
fn push_grid(
    boxes: &mut Vec<Rect>,
    placed: &Transform,
    grid: &Grid,
    hull: Rect,
) -> Result<(), AllocError>
    requires placed { MovesInReach placed.now }
    requires grid { IsLawfulGrid grid.now }
    requires hull { SpansInRange hull }
    ensures { OnOk result (boxes.new.items
        ≡ boxes.old.items ++ map (λ step. rect_image placed.now (displaced hull step)) (displacements (Some grid.now))) }
{
    for k in 0..grid.count() {
        let area = element_area(grid, hull, k);
        boxes.push(placed.rect(area))?;
    }
    Ok(())
}

// The hull of a child in the k-th element of a grid, in the child's coordinates.
fn element_area(grid: &Grid, hull: Rect, k: u64) -> Rect
    requires grid { IsLawfulGrid grid.now }
    requires hull { SpansInRange hull }
    requires below_count { k < length (displacements (Some grid.now)) }
    ensures area { slice_get (map (displaced hull) (displacements (Some grid.now))) k ≡ Some result }
    ensures reach { SpansInReach result }
{
    let (_, _, dx, dy) = grid.element(k);
    Rect {
        xlo: hull.xlo + dx,
        ylo: hull.ylo + dy,
        xhi: hull.xhi + dx,
        yhi: hull.yhi + dy,
    }
}
