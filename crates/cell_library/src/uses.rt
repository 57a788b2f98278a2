//! The uses of one cell in the tree.
ghost use Rattle.std.specs.Prelude.{◌≡◌, ◌⊎◌, ◌<◌, ◌≤◌, ◌&&◌, ℕ, true, false, length, None, Some, IsTrue, IfOk, IfSome, OnOk, OnErr, IfErr};
ghost use Rattle.geo_core.specs.Images.{six_of};
ghost use Rattle.cell_bodies.specs.Numbers.{is_displacement, is_index, are_few_elements};
ghost use Rattle.geo_core.specs.declared.grids.Grid.{Grid as OneGrid};
ghost use Rattle.cell_tree.specs.Uses.{IsShift, IsLawfulGrid, IsLawfulUse};
ghost use Rattle.cell_tree.specs.Trees.{cell_at, with_inserted, with_moved, IsEdited};
ghost use Rattle.cell_library.specs.steps.CellEdits.{of_tree, TreeRefusesUse, IsPlacedIn, HasUseAt, TreeRefusesMove, IsArrayedIn, GridIsRefused, IsMovedIn};
ghost use Rattle.cell_library.specs.steps.CellEdits.{ShiftIsRefused, IsDeletedIn};
ghost use Rattle.cell_library.specs.Edits.{transform_of, moved_use};
ghost use Rattle.cell_library.specs.Refusals.{EditIsRefused, FirstOf, NothingElse, HasFaultOrLacksMemory, has_id, are_displacements, stands_in_range};
ghost use Rattle.cell_library.specs.Refusals.{PlacingIsRefused};
ghost use Rattle.cell_library.specs.PutBackUses.{IsInsertedIn, IsRegriddedIn, MayBeRegridded, MayTake};

use crate::contents::Contents;
use crate::faults::LibFault;
use crate::limits::{LibraryLimit, MOST_EDITS};
use cell_bodies::{are_few_elements, is_displacement};
use cell_tree::{CellTree, Dimension, TreeFault, UseBody};
use ext_model::CellKey;
use geo_core::{Grid, Transform};
use names_lists::Name;
use std::alloc::Global;

// Whether the cell has a use of the id.
fn has_use(tree: &CellTree, cell: usize, id: &[u8]) -> bool
    requires { cell < length tree.now.cells }
    ensures { result ≡ has_id (cell_at tree.now.cells cell).uses id.now }
{
    match tree.find_use(cell, id) {
        Some(_) => true,
        None => false,
    }
}

/// The transform of the six numbers, where they are those of one.
pub fn transform_of(six: [i64; 6]) -> Option<Transform>
    ensures is { result ≡ transform_of six }
    ensures six { IfSome result (λ transform. six_of transform ≡ six) }
{
    Transform::of_six(six)
}

// Whether the third and the last of the six numbers are displacements that a use may have.
fn are_displacements(six: [i64; 6]) -> bool
    ensures { result ≡ are_displacements six }
{
    is_displacement(six[2]) && is_displacement(six[5])
}

// The transform of a new use, unless there were too many edits, the cell has a use of the id, the six numbers are those of no
// orientation, or a displacement is out of range.
fn new_transform(
    tree: &CellTree,
    cell: usize,
    id: &[u8],
    six: [i64; 6],
) -> Result<Transform, LibFault>
    requires { cell < length tree.now.cells }
    ensures few { OnOk result (tree.now.edits < MOST_EDITS) }
    ensures new { OnOk result (has_id (cell_at tree.now.cells cell).uses id.now ≡ false) }
    ensures is { IfOk result (λ transform. transform_of six ≡ Some transform) }
    ensures six { IfOk result (λ transform. six_of transform ≡ six) }
    ensures near { OnOk result (are_displacements six ≡ true) }
    ensures fault { IfErr result (EditIsRefused tree.now.edits (PlacingIsRefused (cell_at tree.now.cells cell).uses id.now six NothingElse)) }
{
    if tree.edits() == MOST_EDITS {
        return Err(LibFault::TooMany(LibraryLimit::Edits));
    }
    if has_use(tree, cell, id) {
        return Err(LibFault::UseExists);
    }
    let Some(transform) = transform_of(six) else {
        return Err(LibFault::BadTransform);
    };
    if !are_displacements(six) {
        return Err(LibFault::OutOfRange);
    }
    Ok(transform)
}

// Whether a use may stand at these displacements.
fn stands_in_range(transform: &Transform) -> bool
    ensures { result ≡ (is_displacement transform.now.dx && is_displacement transform.now.dy) }
{
    is_displacement(transform.dx) && is_displacement(transform.dy)
}

/// Why the library refuses what the tree does.
pub fn fault_of(alloc: Global, contents: &Contents, refused: TreeFault) -> LibFault
    requires { (key : ℕ) → refused ≡ TreeFault.Cycle key → key < length contents.now }
    ensures { (result ≡ LibFault.Memory) ⊎ (result ≡ of_tree contents.now refused) }
{
    match refused {
        TreeFault::Cycle(key) => match contents.get(key).name.copy(alloc) {
            Ok(name) => LibFault::Cycle(name),
            Err(_) => LibFault::Memory,
        },
        TreeFault::TooManyUses => LibFault::TooMany(LibraryLimit::Uses),
        TreeFault::Passed(Dimension::Depth) => LibFault::TooMany(LibraryLimit::Depth),
        TreeFault::Passed(Dimension::Elements) => LibFault::TooMany(LibraryLimit::Elements),
        TreeFault::Passed(Dimension::Hull) => LibFault::OutOfRange,
        TreeFault::Memory => LibFault::Memory,
    }
}

/// Adds a use of the child at the end of a cell's. A refusal changes nothing.
pub fn place_use(
    alloc: Global,
    contents: &Contents,
    tree: &mut CellTree,
    cell: usize,
    child: CellKey,
    id: Name,
    six: [i64; 6],
) -> Result<(), LibFault>
    requires cell { cell < length tree.old.cells }
    requires child { child.0 < length tree.old.cells }
    requires so_many { length tree.old.cells ≡ length contents.now }
    ensures done { OnOk result (IsPlacedIn cell child.0 id six tree.old tree.new) }
    ensures same { OnErr result (tree.new ≡ tree.old) }
    ensures fault { IfErr result (HasFaultOrLacksMemory (EditIsRefused tree.old.edits (PlacingIsRefused (cell_at tree.old.cells cell).uses id six
        (TreeRefusesUse contents.now tree.old cell child.0 id six)))) }
{
    let placed = new_transform(tree, cell, id.bytes(), six)?;
    let key = Vec::from_slice(alloc, id.bytes())?;
    let used = UseBody {
        child,
        placed,
        grid: None,
    };
    match tree.place(cell, key, used) {
        Ok(()) => Ok(()),
        Err(refused) => Err(fault_of(alloc, contents, refused)),
    }
}

// The place of the use with the id and its body, unless there were too many edits, or there is none.
fn find_use(tree: &CellTree, cell: usize, id: &[u8]) -> Result<(usize, UseBody), LibFault>
    requires { cell < length tree.now.cells }
    ensures few { OnOk result (tree.now.edits < MOST_EDITS) }
    ensures found { IfOk result (λ found. HasUseAt (cell_at tree.now.cells cell) id.now found.0 found.1) }
    ensures lawful { IfOk result (λ found. IsLawfulUse found.1) }
    ensures within { IfOk result (λ found. found.0 < length (cell_at tree.now.cells cell).uses) }
    ensures fault { IfErr result (EditIsRefused tree.now.edits (FirstOf (has_id (cell_at tree.now.cells cell).uses id.now ≡ false) LibFault.NoUse NothingElse)) }
{
    if tree.edits() == MOST_EDITS {
        return Err(LibFault::TooMany(LibraryLimit::Edits));
    }
    tree.lawful();
    let Some(k) = tree.find_use(cell, id) else {
        return Err(LibFault::NoUse);
    };
    match tree.use_at(cell, k) {
        Some((_, used)) => Ok((k, *used)),
        None => unreachable!(),
    }
}

// Places the use otherwise.
fn set_use(
    tree: &mut CellTree,
    cell: usize,
    k: usize,
    placed: Transform,
    grid: Option<Grid>,
) -> Result<(), LibFault>
    requires cell { cell < length tree.old.cells }
    requires k { k < length (cell_at tree.old.cells cell).uses }
    requires edits { tree.old.edits < MOST_EDITS }
    requires dx { IsShift placed.dx }
    requires dy { IsShift placed.dy }
    requires grid { (g : OneGrid) → grid ≡ Some g → IsLawfulGrid g }
    ensures done { OnOk result (IsEdited tree.old tree.new cell (with_moved (cell_at tree.old.cells cell) k placed grid)) }
    ensures same { OnErr result (tree.new ≡ tree.old) }
    ensures fault { IfErr result (TreeRefusesMove tree.old cell k placed grid) }
{
    match tree.set_use(cell, k, placed, grid) {
        Ok(()) => Ok(()),
        Err(TreeFault::Passed(Dimension::Elements)) => {
            Err(LibFault::TooMany(LibraryLimit::Elements))
        }
        Err(TreeFault::Passed(Dimension::Hull)) => Err(LibFault::OutOfRange),
        Err(_) => unreachable!(),
    }
}

// Whether the elements of a grid may be so far apart.
fn has_near_elements(grid: &Grid) -> bool
    ensures { result ≡ (is_displacement grid.now.xsep && is_displacement grid.now.ysep) }
{
    is_displacement(grid.xsep) && is_displacement(grid.ysep)
}

// Refuses a grid with a separation that is out of range, and one of too many elements.
fn check_grid(grid: &Grid) -> Result<(), LibFault>
    requires xlo { IsTrue (is_index grid.now.xlo) }
    requires xhi { IsTrue (is_index grid.now.xhi) }
    requires ylo { IsTrue (is_index grid.now.ylo) }
    requires yhi { IsTrue (is_index grid.now.yhi) }
    ensures near { OnOk result ((is_displacement grid.now.xsep && is_displacement grid.now.ysep) ≡ true) }
    ensures few { OnOk result (are_few_elements grid.now.xlo grid.now.xhi grid.now.ylo grid.now.yhi ≡ true) }
    ensures fault { IfErr result (FirstOf ((is_displacement grid.now.xsep && is_displacement grid.now.ysep) ≡ false) LibFault.OutOfRange
        (FirstOf (are_few_elements grid.now.xlo grid.now.xhi grid.now.ylo grid.now.yhi ≡ false) (LibFault.TooMany LibraryLimit.Elements) NothingElse)) }
{
    if !has_near_elements(grid) {
        return Err(LibFault::OutOfRange);
    }
    if !are_few_elements(grid.xlo, grid.xhi, grid.ylo, grid.yhi) {
        return Err(LibFault::TooMany(LibraryLimit::Elements));
    }
    Ok(())
}

// Gives a use the grid.
fn set_grid(
    tree: &mut CellTree,
    cell: usize,
    k: usize,
    placed: Transform,
    grid: Grid,
) -> Result<(), LibFault>
    requires cell { cell < length tree.old.cells }
    requires k { k < length (cell_at tree.old.cells cell).uses }
    requires edits { tree.old.edits < MOST_EDITS }
    requires dx { IsShift placed.dx }
    requires dy { IsShift placed.dy }
    requires xlo { IsTrue (is_index grid.xlo) }
    requires xhi { IsTrue (is_index grid.xhi) }
    requires ylo { IsTrue (is_index grid.ylo) }
    requires yhi { IsTrue (is_index grid.yhi) }
    ensures near { OnOk result ((is_displacement grid.xsep && is_displacement grid.ysep) ≡ true) }
    ensures few { OnOk result (are_few_elements grid.xlo grid.xhi grid.ylo grid.yhi ≡ true) }
    ensures done { OnOk result (IsEdited tree.old tree.new cell (with_moved (cell_at tree.old.cells cell) k placed (Some grid))) }
    ensures same { OnErr result (tree.new ≡ tree.old) }
    ensures fault { IfErr result (FirstOf ((is_displacement grid.xsep && is_displacement grid.ysep) ≡ false) LibFault.OutOfRange
        (FirstOf (are_few_elements grid.xlo grid.xhi grid.ylo grid.yhi ≡ false) (LibFault.TooMany LibraryLimit.Elements)
        (TreeRefusesMove tree.old cell k placed (Some grid)))) }
{
    check_grid(&grid)?;
    set_use(tree, cell, k, placed, Some(grid))
}

/// Gives the use with the id this grid. A refusal changes nothing. It takes no memory.
pub fn place_array(tree: &mut CellTree, cell: usize, id: &[u8], grid: Grid) -> Result<(), LibFault>
    requires cell { cell < length tree.old.cells }
    requires xlo { IsTrue (is_index grid.xlo) }
    requires xhi { IsTrue (is_index grid.xhi) }
    requires ylo { IsTrue (is_index grid.ylo) }
    requires yhi { IsTrue (is_index grid.yhi) }
    ensures done { OnOk result (IsArrayedIn cell id.now grid tree.old tree.new) }
    ensures same { OnErr result (tree.new ≡ tree.old) }
    ensures fault { IfErr result (EditIsRefused tree.old.edits (FirstOf (has_id (cell_at tree.old.cells cell).uses id.now ≡ false) LibFault.NoUse (GridIsRefused tree.old cell id.now grid))) }
{
    let (k, used) = find_use(tree, cell, id)?;
    set_grid(tree, cell, k, used.placed, grid)
}

// Where a use stands when it is moved by so much.
fn moved_placing(used: &UseBody, dx: i64, dy: i64) -> Transform
    requires lawful { IsLawfulUse used.now }
    requires dx { IsTrue (is_index dx) }
    requires dy { IsTrue (is_index dy) }
    ensures { result ≡ (moved_use dx dy used.now).placed }
{
    Transform {
        orient: used.placed.orient,
        dx: used.placed.dx + dx,
        dy: used.placed.dy + dy,
    }
}

// Places a use so much farther to the right and up, unless it would stand out of range.
fn shift_use(
    tree: &mut CellTree,
    cell: usize,
    k: usize,
    used: UseBody,
    dx: i64,
    dy: i64,
) -> Result<(), LibFault>
    requires cell { cell < length tree.old.cells }
    requires k { k < length (cell_at tree.old.cells cell).uses }
    requires lawful { IsLawfulUse used }
    requires edits { tree.old.edits < MOST_EDITS }
    requires dx { IsTrue (is_index dx) }
    requires dy { IsTrue (is_index dy) }
    ensures near { OnOk result (stands_in_range (moved_use dx dy used) ≡ true) }
    ensures done { OnOk result (IsEdited tree.old tree.new cell (with_moved (cell_at tree.old.cells cell) k (moved_use dx dy used).placed used.grid)) }
    ensures same { OnErr result (tree.new ≡ tree.old) }
    ensures fault { IfErr result (FirstOf (stands_in_range (moved_use dx dy used) ≡ false) LibFault.OutOfRange (TreeRefusesMove tree.old cell k (moved_use dx dy used).placed used.grid)) }
{
    let placed = moved_placing(&used, dx, dy);
    if !stands_in_range(&placed) {
        return Err(LibFault::OutOfRange);
    }
    set_use(tree, cell, k, placed, used.grid)
}

/// Moves the use with the id by so much. A refusal changes nothing. It takes no memory.
pub fn move_use(
    tree: &mut CellTree,
    cell: usize,
    id: &[u8],
    dx: i64,
    dy: i64,
) -> Result<(), LibFault>
    requires cell { cell < length tree.old.cells }
    requires dx { IsTrue (is_index dx) }
    requires dy { IsTrue (is_index dy) }
    ensures done { OnOk result (IsMovedIn cell id.now dx dy tree.old tree.new) }
    ensures same { OnErr result (tree.new ≡ tree.old) }
    ensures fault { IfErr result (EditIsRefused tree.old.edits (FirstOf (has_id (cell_at tree.old.cells cell).uses id.now ≡ false) LibFault.NoUse (ShiftIsRefused tree.old cell id.now dx dy))) }
{
    let (k, used) = find_use(tree, cell, id)?;
    shift_use(tree, cell, k, used, dx, dy)
}

/// Takes the use with the id away. A refusal changes nothing. It takes no memory.
pub fn delete_use(tree: &mut CellTree, cell: usize, id: &[u8]) -> Result<(), LibFault>
    requires { cell < length tree.old.cells }
    ensures done { OnOk result (IsDeletedIn cell id.now tree.old tree.new) }
    ensures same { OnErr result (tree.new ≡ tree.old) }
    ensures fault { IfErr result (EditIsRefused tree.old.edits (FirstOf (has_id (cell_at tree.old.cells cell).uses id.now ≡ false) LibFault.NoUse NothingElse)) }
{
    let (k, _) = find_use(tree, cell, id)?;
    tree.delete_use(cell, k);
    Ok(())
}

/// Makes a use that the cell may have the one at this place. A refusal changes nothing.
pub fn insert_use(
    alloc: Global,
    tree: &mut CellTree,
    cell: usize,
    at: usize,
    id: Name,
    used: UseBody,
) -> Result<(), LibFault>
    requires cell { cell < length tree.old.cells }
    requires place { at ≤ length (cell_at tree.old.cells cell).uses }
    requires may { MayTake tree.old cell (with_inserted (cell_at tree.old.cells cell) at id used) }
    ensures done { OnOk result (IsInsertedIn cell at id used tree.old tree.new) }
    ensures same { OnErr result (tree.new ≡ tree.old) }
    ensures fault { IfErr result (HasFaultOrLacksMemory (EditIsRefused tree.old.edits NothingElse)) }
{
    if tree.edits() == MOST_EDITS {
        return Err(LibFault::TooMany(LibraryLimit::Edits));
    }
    let key = Vec::from_slice(alloc, id.bytes())?;
    match tree.insert_use(cell, at, key, used) {
        Ok(()) => Ok(()),
        Err(refused) => match refused {
            TreeFault::Memory => Err(LibFault::Memory),
            _ => unreachable!(),
        },
    }
}

/// Gives the use with the id a grid that it may have, or none. A refusal changes nothing. It takes no memory.
pub fn regrid(
    tree: &mut CellTree,
    cell: usize,
    id: &[u8],
    grid: Option<Grid>,
) -> Result<(), LibFault>
    requires cell { cell < length tree.old.cells }
    requires known { IsTrue (has_id (cell_at tree.old.cells cell).uses id.now) }
    requires may { MayBeRegridded tree.old cell id.now grid }
    ensures done { OnOk result (IsRegriddedIn cell id.now grid tree.old tree.new) }
    ensures same { OnErr result (tree.new ≡ tree.old) }
    ensures fault { IfErr result (EditIsRefused tree.old.edits NothingElse) }
{
    let (k, used) = find_use(tree, cell, id)?;
    match set_use(tree, cell, k, used.placed, grid) {
        Ok(()) => Ok(()),
        Err(_) => unreachable!(),
    }
}
