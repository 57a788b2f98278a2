//! Paths of elements.
ghost use Rattle.std.specs.Prelude.{◌≡◌, ◌<◌, length, IfOk};
ghost use Rattle.library_trees.specs.LayoutModel.CellTrees.{standings};
ghost use Rattle.library_trees.specs.CellLibrary.LayoutTrees.{tree_at};
ghost use Rattle.element_paths.specs.ElementPaths.{AreStepsTo};

use crate::descents::UseStarts;
use crate::steps::Step;
use ext_model::CellKey;
use library_trees::cell_library::Reader;
use std::alloc::{AllocError, Global};
use std::marker::Model;

/// Finds the elements that lead from a cell down to what stands at or below it. Contracts see it as its library.
///
/// For each cell that it went through, it keeps where the elements of the cell's uses begin. So one of these is to find all paths that belong
/// together.
#[derive(Drop)]
pub struct ElementPaths<'a> {
    alloc: Global,
    library: &'a Reader<'a>,
    starts: UseStarts,
}

impl<'a> Model for ElementPaths<'a> {
    ghost use Rattle.library_trees.specs.CellLibrary.Libraries.{LibraryParts, parts_code, seen};
    ghost use Rattle.element_paths.specs.UseStarts.{AreStartsOf};

    ghost Value = { LibraryParts };

    ghost coded = { parts_code };

    ghost view = { λ paths. paths.library.now };

    ghost invariant = { λ paths. AreStartsOf (seen paths.library.now) paths.starts };
}

impl<'a> ElementPaths<'a> {
    ghost use Rattle.library_trees.specs.CellLibrary.Libraries.{seen};

    /// Paths in this library. It takes no memory now.
    pub fn of(alloc: Global, library: &'a Reader<'a>) -> ElementPaths<'a>
        ensures { result ≡ library.now }
    {
        ElementPaths {
            alloc,
            library,
            starts: UseStarts::new(alloc),
        }
    }

    /// The steps that lead from the cell to what stands there with this number, each by the name of an element: none for the cell itself,
    /// which has the number 0. Want of memory alone refuses.
    ///
    /// A step searches for its use among the uses of its cell by halves. Where a cell is entered for the first time, all its uses are
    /// counted.
    pub fn steps_to(&mut self, cell: CellKey, element: usize) -> Result<Vec<Step>, AllocError>
        requires cell { cell.0 < length self.old.contents }
        requires element { element < length (standings (tree_at (seen self.old) cell.0)) }
        ensures same { self.new ≡ self.old }
        ensures steps { IfOk result (λ steps. AreStepsTo (seen self.old) cell.0 element steps.items) }
    {
        self.starts
            .steps_to(self.alloc, self.library, cell, element)
    }
}
