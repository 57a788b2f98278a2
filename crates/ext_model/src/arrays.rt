//! The record of a cell, as its circuit file has it: an array is one use there, and a row of equal merges along an array one record.

ghost use Rattle.std.specs.Prelude.{◌≡◌, IfOk};

use crate::records::{FetRec, NodeRec, Part, copy_numbers, copy_parts};
use geo_core::Grid;
use names_lists::{List, Name};
use std::alloc::{AllocError, Global};

/// A use: a child that stands in the cell, once or in the rows and columns of a grid.
///
/// `cell` is the child's cell, and `id` the name of the use's one element, or what the names of its elements begin with. The six
/// numbers are `a b c d e f` of `x' = a*x + b*y + c` and `y' = d*x + e*y + f`, from the child's coordinates to the cell's, in lambda;
/// an element of a grid is displaced before them.
#[derive(Debug)]
pub struct ArrayUse {
    pub cell: Name,
    pub id: Name,
    pub six: [i64; 6],
    pub grid: Option<Grid>,
}

impl Drop for ArrayUse {
    fn drop(self) {
        let ArrayUse {
            cell: _,
            id: _,
            six: _,
            grid: _,
        } = self;
    }
}

/// A row of merges: so many with one first path, whose second paths differ by the index i of their first name. It is one more from
/// each to the next, and `second` is the path of the first of them.
///
/// What each adds to the sum of the parts' measures: a capacitance in attofarads, and for each class an area in square lambda and a
/// perimeter in lambda. Each may be negative.
#[derive(Debug)]
pub struct MergeRow {
    pub first: Name,
    pub second: Name,
    pub count: u64,
    pub cap: i128,
    pub measures: List<(i128, i128)>,
}

impl Drop for MergeRow {
    fn drop(self) {
        let MergeRow {
            first: _,
            second: _,
            count: _,
            cap: _,
            measures: _,
        } = self;
    }
}

/// The record of a cell with its arrays and rows.
///
/// It has the cell's name, the technology's name, and the values of the technology's classes, in milliohms per square and in
/// the order in which all measures have them. Uses stand in their order, nodes and transistors by their least places, and merges in
/// the name order of their groups. What it says is said by its plain form, in which each element is a use and each merge a record of
/// its own (`specs/Plain.antt`).
#[derive(Debug)]
pub struct ArrayExt {
    pub cell: Name,
    pub tech: Name,
    pub classes: List<u64>,
    pub uses: List<ArrayUse>,
    pub nodes: List<NodeRec>,
    pub fets: List<FetRec>,
    pub merges: List<MergeRow>,
}

impl Drop for ArrayExt {
    fn drop(self) {
        let ArrayExt {
            cell: _,
            tech: _,
            classes: _,
            uses: _,
            nodes: _,
            fets: _,
            merges: _,
        } = self;
    }
}

impl Part for ArrayUse {
    fn copy(&self, alloc: Global) -> Result<ArrayUse, AllocError> {
        Ok(ArrayUse {
            cell: self.cell.copy(alloc)?,
            id: self.id.copy(alloc)?,
            six: self.six,
            grid: self.grid,
        })
    }
}

impl Part for MergeRow {
    fn copy(&self, alloc: Global) -> Result<MergeRow, AllocError> {
        Ok(MergeRow {
            first: self.first.copy(alloc)?,
            second: self.second.copy(alloc)?,
            count: self.count,
            cap: self.cap,
            measures: copy_numbers(alloc, &self.measures)?,
        })
    }
}

impl ArrayExt {
    /// An equal record.
    pub fn copy(&self, alloc: Global) -> Result<ArrayExt, AllocError>
        ensures { IfOk result (λ copy. copy ≡ self.now) }
    {
        Ok(ArrayExt {
            cell: self.cell.copy(alloc)?,
            tech: self.tech.copy(alloc)?,
            classes: copy_numbers(alloc, &self.classes)?,
            uses: copy_parts(alloc, &self.uses)?,
            nodes: copy_parts(alloc, &self.nodes)?,
            fets: copy_parts(alloc, &self.fets)?,
            merges: copy_parts(alloc, &self.merges)?,
        })
    }
}
