//! Writes a cell and all below it.
ghost use Rattle.std.specs.Prelude.{◌≡◌, ◌≢◌, ◌<◌, ◌≤◌, ◌++◌, ◌∷◌, [], ℕ, List, Some, length, map, slice_get, IfOk, IfErr, OnOk};
ghost use Rattle.text_scan.specs.Written.{text_of};
ghost use Rattle.geo_core.specs.FiniteSets.Lists.{In};
ghost use Rattle.geo_core.specs.Reach.{MovesInReach};
ghost use Rattle.cell_tree.specs.UseOrders.LibraryOrder.{IsLibraryOrder};
ghost use Rattle.cell_tree.specs.Uses.{displacements, IsLawfulGrid, IsLawfulUse};
ghost use Rattle.cell_library.specs.Additions.{children_in};
ghost use Rattle.cell_library.specs.LayoutTrees.{element_transform};
ghost use Rattle.cell_library.specs.Libraries.{seen};
ghost use Rattle.cell_library.specs.PartCounts.{HasBodyAt};
ghost use Rattle.cell_library.specs.Views.{view_at};
ghost use Rattle.cif_writing.specs.declared.faults.CifWriteFault.TheVariants.{Memory as OutOfMemory};
ghost use Rattle.cif_writing.specs.Commands.{start_command, name_command, part_lines, box_command, call_command};
ghost use Rattle.cif_writing.specs.Parts.{part_sets};
ghost use Rattle.cif_writing.specs.Symbols.{elements_of_use, AreParts, IsUse, AreCalls, IsSymbol, AreSymbols, IsCifText};
ghost use Rattle.cif_writing.specs.steps.Writing.{Writes, IsTooLongWith, AreTooLong};

use crate::commands::{
    write_box, write_call, write_end, write_finish, write_layer, write_name, write_start,
};
use crate::faults::CifWriteFault;
use crate::limits::LONGEST_TEXT;
use crate::numbers::SymbolNumbers;
use crate::parts::part_sets;
use crate::strips::{part_strips, tiles_of};
use cell_library::Library;
use cell_tree::UseBody;
use ext_model::CellKey;
use geo_core::{Grid, Orient, Rect, Transform};
use std::alloc::{AllocError, Global};
use tech_model::PartSet;
use use_orders::library_order_law;

/// A text that was written, and how many symbols it has.
#[derive(Debug, Drop)]
pub struct CifText {
    pub text: Vec<u8>,
    pub symbols: usize,
}

// Refuses a text that is too long.
fn check_length(text: &[u8]) -> Result<(), CifWriteFault>
    ensures within { IfOk result (λ _. length text.now ≤ LONGEST_TEXT) }
    ensures refused { IfErr result (λ _. LONGEST_TEXT < length text.now) }
{
    if text.len() > LONGEST_TEXT {
        return Err(CifWriteFault::TooLong);
    }
    Ok(())
}

// Writes the boxes of these areas.
fn write_boxes(out: &mut Vec<u8>, areas: &[Rect]) -> Result<(), CifWriteFault>
    ensures written { OnOk result (out.new.items ≡ out.old.items ++ text_of (map box_command areas.now)) }
    ensures refused { IfErr result (λ fault. fault ≢ OutOfMemory → IsTooLongWith (map box_command areas.now) out.old.items) }
{
    for area in areas {
        check_length(out)?;
        write_box(out, area)?;
    }
    Ok(())
}

// Writes the part of this number, which has these strips.
fn write_part(out: &mut Vec<u8>, number: usize, areas: &[Rect]) -> Result<(), CifWriteFault>
    ensures written { OnOk result (out.new.items ≡ out.old.items ++ text_of (part_lines number areas.now)) }
    ensures refused { IfErr result (λ fault. fault ≢ OutOfMemory → IsTooLongWith (part_lines number areas.now) out.old.items) }
{
    if areas.is_empty() {
        return Ok(());
    }
    write_layer(out, number)?;
    write_boxes(out, areas)
}

// Writes all parts of the cell's own paint.
fn write_parts(
    alloc: Global,
    out: &mut Vec<u8>,
    library: &Library,
    cell: CellKey,
    parts: &[PartSet],
) -> Result<(), CifWriteFault>
    requires cell { cell.0 < length library.now.contents }
    requires parts { map (λ part. part.0) parts.now ≡ part_sets library.now.tech }
    ensures written { OnOk result (Writes (AreParts library.now.tech (view_at (seen library.now) cell.0).own) out.old.items out.new.items) }
    ensures refused { IfErr result (λ fault. fault ≢ OutOfMemory
        → AreTooLong (AreParts library.now.tech (view_at (seen library.now) cell.0).own) out.old.items) }
{
    library.lawful();
    let tiles = tiles_of(library, cell)?;
    for (place, part) in parts.iter().enumerate() {
        let areas = part_strips(alloc, library, cell, tiles.as_slice(), *part)?;
        write_part(out, place + 1, areas.as_slice())?;
    }
    Ok(())
}

// How the k-th element of a grid stands.
fn element_at(placed: &Transform, grid: &Grid, k: u64) -> Transform
    requires placed { MovesInReach placed.now }
    requires grid { IsLawfulGrid grid.now }
    requires below_count { k < length (displacements (Some grid.now)) }
    ensures { slice_get (map (element_transform placed.now) (displacements (Some grid.now))) k ≡ Some result }
{
    let (_, _, dx, dy) = grid.element(k);
    let displaced = Transform {
        orient: Orient::R0,
        dx,
        dy,
    };
    displaced.then(placed)
}

// Calls the symbol of this number for each element of a grid.
fn write_grid(
    out: &mut Vec<u8>,
    number: usize,
    placed: &Transform,
    grid: &Grid,
) -> Result<(), CifWriteFault>
    requires placed { MovesInReach placed.now }
    requires grid { IsLawfulGrid grid.now }
    ensures written { OnOk result (out.new.items
        ≡ out.old.items ++ text_of (map (call_command number) (map (element_transform placed.now) (displacements (Some grid.now))))) }
    ensures refused { IfErr result (λ fault. fault ≢ OutOfMemory
        → IsTooLongWith (map (call_command number) (map (element_transform placed.now) (displacements (Some grid.now)))) out.old.items) }
{
    for k in 0..grid.count() {
        check_length(out)?;
        let element = element_at(placed, grid, k);
        write_call(out, number, &element)?;
    }
    Ok(())
}

// Calls the symbol of this number for each element of a use.
fn write_elements(out: &mut Vec<u8>, number: usize, used: &UseBody) -> Result<(), CifWriteFault>
    requires { IsLawfulUse used.now }
    ensures written { OnOk result (out.new.items
        ≡ out.old.items ++ text_of (map (call_command number) (elements_of_use used.now))) }
    ensures refused { IfErr result (λ fault. fault ≢ OutOfMemory
        → IsTooLongWith (map (call_command number) (elements_of_use used.now)) out.old.items) }
{
    match &used.grid {
        Some(grid) => write_grid(out, number, &used.placed, grid),
        None => {
            write_call(out, number, &used.placed)?;
            Ok(())
        }
    }
}

// Calls the symbol of a use's child for each element, where the child has a hull.
fn write_use(
    out: &mut Vec<u8>,
    library: &Library,
    numbers: &SymbolNumbers,
    used: &UseBody,
) -> Result<(), CifWriteFault>
    requires lawful { IsLawfulUse used.now }
    requires child { used.now.child.0 < length library.now.contents }
    ensures written { OnOk result (Writes (IsUse (seen library.now) numbers.now used.now) out.old.items out.new.items) }
    ensures refused { IfErr result (λ fault. fault ≢ OutOfMemory → AreTooLong (IsUse (seen library.now) numbers.now used.now) out.old.items) }
{
    library.lawful();
    match library.hull(used.child) {
        Some(_) => write_elements(out, numbers.of_cell(used.child), used),
        None => Ok(()),
    }
}

// The body of the k-th use of the cell.
fn body_at(library: &Library, cell: CellKey, k: usize) -> &UseBody
    requires cell { cell.0 < length library.now.contents }
    requires k { k < length (view_at (seen library.now) cell.0).uses }
    ensures body { HasBodyAt (view_at (seen library.now) cell.0).uses k result.now }
    ensures lawful { IsLawfulUse result.now }
    ensures child { result.now.child.0 < length library.now.contents }
{
    library.lawful();
    match library.use_at(cell, k) {
        Some((_, body)) => body,
        None => unreachable!(),
    }
}

// Writes the calls of the cell's uses.
fn write_calls(
    out: &mut Vec<u8>,
    library: &Library,
    numbers: &SymbolNumbers,
    cell: CellKey,
) -> Result<(), CifWriteFault>
    requires { cell.0 < length library.now.contents }
    ensures written { OnOk result (Writes (AreCalls (seen library.now) numbers.now (view_at (seen library.now) cell.0).uses) out.old.items out.new.items) }
    ensures refused { IfErr result (λ fault. fault ≢ OutOfMemory
        → AreTooLong (AreCalls (seen library.now) numbers.now (view_at (seen library.now) cell.0).uses) out.old.items) }
{
    library.lawful();
    for k in 0..library.use_count(cell) {
        let used = body_at(library, cell, k);
        write_use(out, library, numbers, used)?;
    }
    Ok(())
}

// Begins the symbol of a cell.
fn write_head(out: &mut Vec<u8>, number: usize, name: &[u8]) -> Result<(), AllocError>
    ensures { OnOk result (out.new.items ≡ out.old.items ++ text_of (start_command number ∷ name_command name.now ∷ [])) }
{
    write_start(out, number)?;
    write_name(out, name)
}

// Writes the symbol of a cell, which has this number.
fn write_symbol(
    alloc: Global,
    out: &mut Vec<u8>,
    library: &Library,
    numbers: &SymbolNumbers,
    parts: &[PartSet],
    number: usize,
    cell: CellKey,
) -> Result<(), CifWriteFault>
    requires cell { cell.0 < length library.now.contents }
    requires parts { map (λ part. part.0) parts.now ≡ part_sets library.now.tech }
    ensures written { OnOk result (Writes (IsSymbol (seen library.now) numbers.now number cell.0) out.old.items out.new.items) }
    ensures refused { IfErr result (λ fault. fault ≢ OutOfMemory
        → AreTooLong (IsSymbol (seen library.now) numbers.now number cell.0) out.old.items) }
{
    library.lawful();
    write_head(out, number, library.name_of(cell).bytes())?;
    write_parts(alloc, out, library, cell, parts)?;
    write_calls(out, library, numbers, cell)?;
    write_finish(out)?;
    Ok(())
}

// Writes the symbols of these cells, numbered from 1.
fn write_symbols(
    alloc: Global,
    out: &mut Vec<u8>,
    library: &Library,
    numbers: &SymbolNumbers,
    parts: &[PartSet],
    order: &[CellKey],
) -> Result<(), CifWriteFault>
    requires cells { (cell : ℕ) → In cell (map (λ key. key.0) order.now) → cell < length library.now.contents }
    requires parts { map (λ part. part.0) parts.now ≡ part_sets library.now.tech }
    ensures written { OnOk result (Writes (AreSymbols (seen library.now) numbers.now 1 (map (λ key. key.0) order.now)) out.old.items out.new.items) }
    ensures refused { IfErr result (λ fault. fault ≢ OutOfMemory
        → AreTooLong (AreSymbols (seen library.now) numbers.now 1 (map (λ key. key.0) order.now)) out.old.items) }
{
    library.lawful();
    for (place, cell) in order.iter().enumerate() {
        check_length(out)?;
        write_symbol(alloc, out, library, numbers, parts, place + 1, *cell)?;
    }
    Ok(())
}

/// The CIF text of a cell: a symbol for the cell and for each below it, children before parents, and a call of the cell's own.
///
/// A part that a type has is a layer, on whatever planes it stands, and its boxes are the strips of the squares that hold it. Lengths are halves, so
/// that centres are whole.
///
/// # Errors
///
/// `TooLong` exactly where the text is longer than `LONGEST_TEXT` bytes, which is found before more memory is taken than that and the calls of one
/// cell's uses without arrays, besides the strips of a part; or want of memory.
pub fn write_cif(alloc: Global, library: &Library, cell: CellKey) -> Result<CifText, CifWriteFault>
    requires { cell.0 < length library.now.contents }
    ensures written { IfOk result (λ written. IsCifText (seen library.now) cell.0 written.text.items) }
    ensures symbols { IfOk result (λ written. (order : List ℕ) → IsLibraryOrder (children_in (seen library.now)) cell.0 order
        → written.symbols ≡ length order) }
    ensures within { IfOk result (λ written. length written.text.items ≤ LONGEST_TEXT) }
    ensures refused { IfErr result (λ fault. fault ≢ OutOfMemory → (text : List ℕ) → IsCifText (seen library.now) cell.0 text
        → LONGEST_TEXT < length text) }
{
    library.lawful();
    library_order_law();
    let order = library.below(cell)?;
    let numbers = SymbolNumbers::of(alloc, order.as_slice())?;
    let parts = part_sets(alloc, library.tech())?;
    let mut text = Vec::new(alloc);
    write_symbols(
        alloc,
        &mut text,
        library,
        &numbers,
        parts.as_slice(),
        order.as_slice(),
    )?;
    write_end(&mut text, numbers.of_cell(cell))?;
    check_length(&text)?;
    Ok(CifText {
        text,
        symbols: order.len(),
    })
}
