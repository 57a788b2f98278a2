//! The step down from a cell to the element below which something stands.
ghost use Rattle.std.specs.Prelude.{◌≡◌, ◌<◌, ◌≤◌, [], length, nat_eq, IfOk, OnOk, IsSome};
ghost use Rattle.std.specs.HashMap.{get};
ghost use Rattle.std.specs.List.Sorted.{IsNonDecreasingBy};
ghost use Rattle.library_trees.specs.LayoutModel.CellTrees.{standings};
ghost use Rattle.library_trees.specs.CellLibrary.LayoutTrees.{tree_at};
ghost use Rattle.library_trees.specs.CellLibrary.Libraries.{seen};
ghost use Rattle.element_paths.specs.ElementPaths.{AreStepsTo};
ghost use Rattle.element_paths.specs.UseStarts.{AreStartsIn, AreStartsOf, HasBegun, IsLastBegun, IsStepDown};

use crate::element_names::element_name;
use crate::starts::{UseStart, starts_of};
use crate::steps::Step;
use ext_model::CellKey;
use library_trees::cell_library::Reader;
use std::alloc::{AllocError, Global};
use std::collections::HashMap;

/// Where the elements of the uses of some cells begin, by the position of the cell.
#[derive(Drop)]
pub struct UseStarts {
    entries: HashMap<usize, Vec<UseStart>>,
}

impl UseStarts {
    /// The uses of no cell. It takes no memory.
    pub fn new(alloc: Global) -> UseStarts
        ensures { result.entries.entries ≡ [] }
    {
        UseStarts {
            entries: HashMap::new(alloc),
        }
    }

    /// Finds out where the elements of the uses of the cell begin, unless it is known. Want of memory alone refuses.
    fn enter(
        &mut self,
        alloc: Global,
        library: &Reader<'_>,
        cell: CellKey,
    ) -> Result<(), AllocError>
        requires starts { AreStartsOf (seen library.now) self.old }
        requires cell { cell.0 < length library.now.contents }
        ensures starts { AreStartsOf (seen library.now) self.new }
        ensures entered { OnOk result (IsSome (get nat_eq self.new.entries cell.0)) }
    {
        if !self.entries.contains_key(&cell.0) {
            let starts = starts_of(alloc, library, cell)?;
            self.entries.insert(cell.0, starts)?;
        }
        Ok(())
    }

    /// The step from the cell towards what stands below it with this number. Want of memory alone refuses.
    fn step_down(
        &mut self,
        alloc: Global,
        library: &Reader<'_>,
        cell: CellKey,
        element: usize,
    ) -> Result<Step, AllocError>
        requires starts { AreStartsOf (seen library.now) self.old }
        requires cell { cell.0 < length library.now.contents }
        requires below { 0 < element }
        requires element { element < length (standings (tree_at (seen library.now) cell.0)) }
        ensures starts { AreStartsOf (seen library.now) self.new }
        ensures step { IfOk result (IsStepDown library.now cell.0 element) }
    {
        self.enter(alloc, library, cell)?;
        match self.entries.get(&cell.0) {
            Some(starts) => step_among(alloc, library, starts.as_slice(), cell, element),
            None => unreachable!(),
        }
    }

    /// The steps that lead from the cell to what stands there with this number. Want of memory alone refuses.
    pub fn steps_to(
        &mut self,
        alloc: Global,
        library: &Reader<'_>,
        cell: CellKey,
        element: usize,
    ) -> Result<Vec<Step>, AllocError>
        requires starts { AreStartsOf (seen library.now) self.old }
        requires cell { cell.0 < length library.now.contents }
        requires element { element < length (standings (tree_at (seen library.now) cell.0)) }
        ensures starts { AreStartsOf (seen library.now) self.new }
        ensures steps { IfOk result (λ steps. AreStepsTo (seen library.now) cell.0 element steps.items) }
    {
        let mut steps = Vec::new(alloc);
        let mut upper = cell;
        let mut below = element;
        while below > 0 {
            let step = self.step_down(alloc, library, upper, below)?;
            upper = step.child;
            below = step.element;
            steps.push(step)?;
        }
        Ok(steps)
    }
}

// The place of the last use that begins no later than this number, where later uses begin no earlier.
fn last_begun(starts: &[UseStart], element: usize) -> usize
    requires rise { IsNonDecreasingBy (λ start. start.element) starts.now }
    requires begun { HasBegun starts.now element }
    ensures within { result < length starts.now }
    ensures last { IsLastBegun starts.now element result }
{
    starts.partition_point(|start| start.element <= element) - 1
}

// The step from the cell, whose uses begin here, towards what stands below it with this number. Want of memory alone refuses.
fn step_among(
    alloc: Global,
    library: &Reader<'_>,
    starts: &[UseStart],
    cell: CellKey,
    element: usize,
) -> Result<Step, AllocError>
    requires starts { AreStartsIn (seen library.now) cell.0 starts.now }
    requires cell { cell.0 < length library.now.contents }
    requires below { 0 < element }
    requires element { element < length (standings (tree_at (seen library.now) cell.0)) }
    ensures { IfOk result (IsStepDown library.now cell.0 element) }
{
    library.lawful();
    let k = last_begun(starts, element);
    let start = &starts[k];
    match library.use_at(cell, k) {
        Some((id, used)) => {
            let size = library.standing_count(used.child);
            let past = element - start.element;
            let n = past / size;
            Ok(Step {
                position: start.position + n,
                id: element_name(alloc, id, &used.grid, n)?,
                child: used.child,
                element: past % size,
            })
        }
        None => unreachable!(),
    }
}
