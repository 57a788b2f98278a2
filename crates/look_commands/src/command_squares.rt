//! `squares c`: tells that c is clean, or the squares that offend of the first cell at or below it that is not.
ghost use Rattle.std.specs.Prelude.{◌≡◌, ◌<◌, All, MatchOption, map, length, IfOk, IsOkUnless};
ghost use Rattle.use_orders.specs.LibraryOrder.{IsLibraryOrder};
ghost use Rattle.cell_library.specs.Additions.{children_in};
ghost use Rattle.cell_library.specs.Libraries.{seen};
ghost use Rattle.library_answers.specs.HierMerge.UncleanCells.{IsCleanCell, IsUncleanBelow};
ghost use Rattle.line_answers.specs.LineEffects.{IsOfInside, reply};
ghost use Rattle.look_commands.specs.CommandSquares.{TellsSquares, clean_text};

use cell_library::{Library, Opened, Reader};
use ext_model::CellKey;
use geo_core::Rect;
use library_answers::hier_merge::offending_of;
use library_answers::offending_lines;
use line_answers::{append_with_name, one_line, reply};
use names_lists::{List, Name};
use session_model::{Halt, ReportLine};
use std::alloc::{AllocError, Global};
use std::marker::Brand;
use std::sync::ledger::{Blank, Ledger};
use use_orders::library_order_law;

/// A cell that is not clean, and the strips of its squares that offend, by plane.
#[derive(Debug, Drop)]
pub struct UncleanCell {
    pub cell: CellKey,
    pub squares: List<(u8, Rect)>,
}

/// The lines that tell whether the cell of this name is clean.
pub fn squares(
    alloc: Global,
    library: &Library,
    cell: CellKey,
    name: &Name,
) -> Result<Vec<ReportLine>, Halt>
    requires { cell.0 < length library.now.contents }
    ensures lines { IfOk result (λ lines. TellsSquares (seen library.now) cell.0 name.now lines.items) }
    ensures inside { IfOk result (λ lines. IsOfInside lines.items) }
    ensures memory { IsOkUnless result Halt.Memory }
{
    let cells = library.reader();
    squares_of::<Brand>(Blank::new(1), library, alloc, &cells, cell, name)
}

// The lines that tell whether the cell of this name is clean, with steps in a count that the reader's owner makes.
fn squares_of<L: Ledger>(
    blank: Blank,
    owner: &Library,
    alloc: Global,
    library: &Reader<'_>,
    cell: CellKey,
    name: &Name,
) -> Result<Vec<ReportLine>, Halt>
    requires ledger { blank.name ≡ L.name }
    requires parts { blank.parts ≡ L.parts }
    requires some_part { 0 < blank.parts }
    requires cell { cell.0 < length library.now.contents }
    ensures lines { IfOk result (λ lines. TellsSquares (seen library.now) cell.0 name.now lines.items) }
    ensures inside { IfOk result (λ lines. IsOfInside lines.items) }
    ensures memory { IsOkUnless result Halt.Memory }
{
    let mut steps: Opened<L> = owner.count(blank);
    let order = library.below(cell)?;
    library_order_law();
    let Some(found) = first_unclean(alloc, library, cell, order.as_slice(), &mut steps)? else {
        return Ok(one_line(alloc, clean_line(alloc, name)?)?);
    };
    Ok(offending_lines(alloc, library, found.cell, found.squares.items())?)
}

// The first cell of the order that is not clean, with the squares that offend.
fn first_unclean<L: Ledger>(
    alloc: Global,
    library: &Reader<'_>,
    root: CellKey,
    order: &[CellKey],
    steps: &mut Opened<L>,
) -> Result<Option<UncleanCell>, Halt>
    requires root { root.0 < length library.now.contents }
    requires order { IsLibraryOrder (children_in (seen library.now)) root.0 (map (λ key. key.0) order.now) }
    ensures found { IfOk result (λ found. MatchOption found (All (IsCleanCell (seen library.now)) (map (λ key. key.0) order.now))
        (λ unclean. IsUncleanBelow (seen library.now) root.0 unclean.cell.0 unclean.squares × (unclean.cell.0 < length library.now.contents))) }
    ensures memory { IsOkUnless result Halt.Memory }
{
    library.lawful();
    library.unfolded();
    library_order_law();
    for cell in order {
        let squares = offending_of(alloc, library, *cell, steps)?;
        if !squares.is_empty() {
            return Ok(Some(UncleanCell {
                cell: *cell,
                squares: List::of(squares),
            }));
        }
    }
    Ok(None)
}

// `clean CELL`.
fn clean_line(alloc: Global, name: &Name) -> Result<ReportLine, AllocError>
    ensures { IfOk result (λ line. line ≡ reply (clean_text name.now)) }
{
    let mut text = Vec::new(alloc);
    append_with_name(&mut text, b"clean ", name)?;
    Ok(reply(text))
}
