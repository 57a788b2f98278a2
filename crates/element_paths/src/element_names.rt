//! The names of the elements of uses.
ghost use Rattle.std.specs.Prelude.{◌≡◌, ◌<◌, length, IfOk, Some};
ghost use Rattle.geo_core.specs.declared.grids.Grid.{Grid as IsGrid};
ghost use Rattle.cell_tree.specs.Uses.{displacements, IsLawfulGrid};
ghost use Rattle.library_trees.specs.ElementNames.{indexed_name};
ghost use Rattle.element_paths.specs.UseStarts.{HasNameAt};

use geo_core::Grid;
use names_lists::Name;
use std::alloc::{AllocError, Global};
use text_scan::append_decimal;

/// The name of the n-th element of a use with this id and this grid. Want of memory alone refuses.
pub fn element_name(
    alloc: Global,
    id: &[u8],
    grid: &Option<Grid>,
    n: usize,
) -> Result<Name, AllocError>
    requires lawful { (g : IsGrid) → grid.now ≡ Some g → IsLawfulGrid g }
    requires n { n < length (displacements grid.now) }
    ensures { IfOk result (HasNameAt id.now grid.now n) }
{
    match grid {
        Some(grid) => {
            let (i, j, _, _) = grid.element(n as u64);
            let text = indexed_text(alloc, id, i, j)?;
            Name::of(alloc, text.as_slice())
        }
        None => Name::of(alloc, id),
    }
}

// The text of the id with two indices.
fn indexed_text(alloc: Global, id: &[u8], i: i64, j: i64) -> Result<Vec<u8>, AllocError>
    ensures { IfOk result (λ text. text.items ≡ indexed_name id.now i j) }
{
    let mut text = Vec::from_slice(alloc, id)?;
    text.push(b'[')?;
    append_decimal(&mut text, i128::from(i))?;
    text.push(b',')?;
    append_decimal(&mut text, i128::from(j))?;
    text.push(b']')?;
    Ok(text)
}
