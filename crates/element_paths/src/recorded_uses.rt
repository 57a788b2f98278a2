//! The uses of a cell, as its record has them.
ghost use Rattle.library_trees.specs.CellLibrary.Libraries.{seen};
ghost use Rattle.geo_core.specs.Images.{six_of};
ghost use Rattle.library_trees.specs.CellRecords.{library_uses};
ghost use Rattle.std.specs.Prelude.{◌≡◌, ◌<◌, IfOk, length};

use cell_tree::UseBody;
use ext_model::{ArrayUse, CellKey};
use library_trees::cell_library::Reader;
use names_lists::Name;
use std::alloc::{AllocError, Global};

// The use with this id, of a cell with this name. Want of memory alone refuses.
fn use_record(alloc: Global, name: &Name, id: &[u8], used: &UseBody) -> Result<ArrayUse, AllocError>
    ensures { IfOk result (λ made.
        made ≡ record { cell = name.now; id = id.now; six = six_of used.now.placed; grid = used.now.grid }) }
{
    Ok(ArrayUse {
        cell: name.copy(alloc)?,
        id: Name::of(alloc, id)?,
        six: used.placed.six(),
        grid: used.grid,
    })
}

/// The uses of a cell in order, each with its cell's name, its id, the six numbers of its transform and its grid. It takes a step for each
/// use, however many elements it has. Want of memory alone refuses.
pub fn use_records(
    alloc: Global,
    library: &Reader<'_>,
    cell: CellKey,
) -> Result<Vec<ArrayUse>, AllocError>
    requires { cell.0 < length library.now.contents }
    ensures { IfOk result (λ made. made.items ≡ library_uses (seen library.now) cell.0) }
{
    library.lawful();
    let mut records = Vec::new(alloc);
    let mut k = 0;
    while let Some((id, used)) = library.use_at(cell, k) {
        let record = use_record(alloc, library.name_of(used.child), id, used)?;
        records.push(record)?;
        k += 1;
    }
    Ok(records)
}
