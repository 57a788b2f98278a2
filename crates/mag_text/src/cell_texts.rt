//! The text of a cell of a library.
ghost use Rattle.std.specs.Prelude.{◌≡◌, ◌<◌, ◌++◌, ◌∷◌, [], ℕ, List, length, slice_get, IfOk, OnOk, Some};
ghost use Rattle.cell_library.specs.Libraries.{seen};
ghost use Rattle.cell_library.specs.Views.{view_at};
ghost use Rattle.cell_tree.specs.declared.use_tables.UseBody.{UseBody as OneUse};
ghost use Rattle.mag_text.specs.CellsAgain.{IsReadBack};
ghost use Rattle.mag_text.specs.CellTexts.{AreWrittenUses, IsCellText, IsWrittenUse};

use crate::writing::write_cell;
use crate::written::WrittenUse;
use cell_library::Library;
use cell_tree::UseBody;
use ext_model::CellKey;
use std::alloc::{AllocError, Global};

/// The text of a cell, of which the cell can be read again. The only error is want of memory.
pub fn write_mag(alloc: Global, library: &Library, cell: CellKey) -> Result<Vec<u8>, AllocError>
    requires cell { cell.0 < length library.now.contents }
    ensures text { IfOk result (λ text. IsCellText (seen library.now) cell.0 text.items) }
    ensures read_back { IfOk result (λ text. IsReadBack (seen library.now) cell.0 text.items) }
{
    library.lawful();
    library.sound(cell);
    cell_text(alloc, library, cell)
}

fn cell_text(alloc: Global, library: &Library, cell: CellKey) -> Result<Vec<u8>, AllocError>
    requires { cell.0 < length library.now.contents }
    ensures { IfOk result (λ text. IsCellText (seen library.now) cell.0 text.items) }
{
    library.lawful();
    let scale = scale_of(library, cell);
    let uses = written_uses(alloc, library, cell)?;
    write_cell(
        alloc,
        library.tech(),
        scale,
        library.paint_of(cell),
        uses.as_slice(),
        library.labels_of(cell),
    )
}

// The scale of a library, which has one where it has a cell.
fn scale_of(library: &Library, cell: CellKey) -> (u32, u32)
    requires { cell.0 < length library.now.contents }
    ensures { library.now.scale ≡ Some result }
{
    library.lawful();
    match library.scale() {
        Some(scale) => scale,
        None => unreachable!(),
    }
}

// The uses of the cell as they are written, in their order.
fn written_uses<'a>(
    alloc: Global,
    library: &'a Library,
    cell: CellKey,
) -> Result<Vec<WrittenUse<'a>>, AllocError>
    requires { cell.0 < length library.now.contents }
    ensures { IfOk result (λ uses. AreWrittenUses (seen library.now) (view_at (seen library.now) cell.0).uses uses.items) }
{
    let count = library.use_count(cell);
    let mut uses = Vec::with_capacity(alloc, count)?;
    for k in 0..count {
        put(&mut uses, use_written(library, cell, k))?;
    }
    Ok(uses)
}

fn put<'a>(uses: &mut Vec<WrittenUse<'a>>, more: WrittenUse<'a>) -> Result<(), AllocError>
    ensures { OnOk result (uses.new.items ≡ uses.old.items ++ more.entry ∷ []) }
{
    uses.push(more)?;
    Ok(())
}

// The k-th use of the cell as it is written.
fn use_written<'a>(library: &'a Library, cell: CellKey, k: usize) -> WrittenUse<'a>
    requires cell { cell.0 < length library.now.contents }
    requires k { k < length (view_at (seen library.now) cell.0).uses }
    ensures { (entry : List ℕ × OneUse) → slice_get (view_at (seen library.now) cell.0).uses k ≡ Some entry
        → IsWrittenUse (seen library.now) entry result }
{
    library.lawful();
    match library.use_at(cell, k) {
        Some((id, used)) => written_use(library, id, used),
        None => unreachable!(),
    }
}

// The use with this id and body as it is written.
fn written_use<'a>(library: &'a Library, id: &'a [u8], used: &UseBody) -> WrittenUse<'a>
    requires { used.now.child.0 < length library.now.contents }
    ensures { IsWrittenUse (seen library.now) (id.now, used.now) result }
{
    WrittenUse {
        cell: library.name_of(used.child),
        id,
        six: used.placed.six(),
        grid: used.grid,
        hull: library.hull(used.child),
    }
}
