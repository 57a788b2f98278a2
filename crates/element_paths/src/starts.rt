//! Where the elements of the uses of a cell begin.
ghost use Rattle.std.specs.Prelude.{◌≡◌, ◌+◌, ◌*◌, ◌<◌, ◌≤◌, length, IfOk};
ghost use Rattle.library_trees.specs.LayoutModel.CellTrees.{standings};
ghost use Rattle.cell_tree.specs.declared.limits.TheConstants.{MOST_ELEMENTS_BELOW};
ghost use Rattle.cell_tree.specs.Uses.{displacements, IsLawfulUse};
ghost use Rattle.library_trees.specs.CellLibrary.LayoutTrees.{tree_at};
ghost use Rattle.library_trees.specs.CellLibrary.Libraries.{seen};
ghost use Rattle.element_paths.specs.UseStarts.{start_behind, AreStartsIn};

use cell_tree::UseBody;
use ext_model::CellKey;
use library_trees::cell_library::Reader;
use std::alloc::{AllocError, Global};

/// Where the elements of a use begin: the number of the first among all that stands at and below the cell, and its position among the
/// elements of the cell.
#[derive(Clone, Copy)]
pub struct UseStart {
    pub element: usize,
    pub position: usize,
}

/// How many elements the use has.
pub fn element_count(used: &UseBody) -> usize
    requires { IsLawfulUse used.now }
    ensures { result ≡ length (displacements used.now.grid) }
{
    match &used.grid {
        Some(grid) => grid.count() as usize,
        None => 1,
    }
}

// Where the elements of the next use begin.
fn behind(library: &Reader<'_>, start: UseStart, used: &UseBody) -> UseStart
    requires lawful { IsLawfulUse used.now }
    requires child { used.now.child.0 < length library.now.contents }
    requires elements { start.element + length (displacements used.now.grid) * length (standings (tree_at (seen library.now) used.now.child.0))
        ≤ MOST_ELEMENTS_BELOW }
    requires positions { start.position + length (displacements used.now.grid) ≤ MOST_ELEMENTS_BELOW }
    ensures { result ≡ start_behind (tree_at (seen library.now)) start used.now }
{
    let count = element_count(used);
    UseStart {
        element: start.element + count * library.standing_count(used.child),
        position: start.position + count,
    }
}

/// Where the elements of each use of the cell begin, in the order of uses. Want of memory alone refuses.
pub fn starts_of(
    alloc: Global,
    library: &Reader<'_>,
    cell: CellKey,
) -> Result<Vec<UseStart>, AllocError>
    requires { cell.0 < length library.now.contents }
    ensures { IfOk result (λ starts. AreStartsIn (seen library.now) cell.0 starts.items) }
{
    library.lawful();
    let mut starts = Vec::new(alloc);
    let mut start = UseStart {
        element: 1,
        position: 0,
    };
    while let Some((_, used)) = library.use_at(cell, starts.len()) {
        starts.push(start)?;
        start = behind(library, start, used);
    }
    Ok(starts)
}
