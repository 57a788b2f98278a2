//! The record of a cell in its plain form: each element is a use, and each merge a record of its own.
ghost use Rattle.std.specs.Prelude.{◌≡◌, IfOk};

use names_lists::{List, Name};
use std::alloc::{AllocError, Global};

/// An element of a use: a child that stands in the cell.
///
/// `cell` is the child's cell, and `id` the element's name, with its indices where the use is an array. The six numbers are
/// `a b c d e f` of `x' = a*x + b*y + c` and `y' = d*x + e*y + f`, from the child's coordinates to the cell's, in lambda.
#[derive(Debug)]
pub struct UseRec {
    pub cell: Name,
    pub id: Name,
    pub six: [i64; 6],
}

impl Drop for UseRec {
    fn drop(self) {
        let UseRec {
            cell: _,
            id: _,
            six: _,
        } = self;
    }
}

/// A node.
///
/// It has its preferred name and its other names in name order, its capacitance in attofarads, its least place in lambda with
/// the name of the type there, and for each class its area in square lambda and its perimeter in lambda.
#[derive(Debug)]
pub struct NodeRec {
    pub name: Name,
    pub aliases: List<Name>,
    pub cap: i128,
    pub x: i64,
    pub y: i64,
    pub kind: Name,
    pub measures: List<(i128, i128)>,
}

impl Drop for NodeRec {
    fn drop(self) {
        let NodeRec {
            name: _,
            aliases: _,
            cap: _,
            x: _,
            y: _,
            kind: _,
            measures: _,
        } = self;
    }
}

/// A node beside the channel of a transistor, and a length in lambda: of a terminal how much of the channel's outline it
/// takes, of the gate what the terminals leave of it.
#[derive(Debug, Drop)]
pub struct TermRec {
    pub node: Name,
    pub length: i128,
}

/// A transistor.
///
/// It has its name in the technology, its point in lambda, which is its least place, the area of its channel in square lambda,
/// the perimeter in lambda, the name of its substrate, its gate, and its terminals in the order of their nodes' least places.
#[derive(Debug)]
pub struct FetRec {
    pub kind: Name,
    pub x: i64,
    pub y: i64,
    pub area: i128,
    pub perimeter: i128,
    pub substrate: Name,
    pub gate: TermRec,
    pub terminals: List<TermRec>,
}

impl Drop for FetRec {
    fn drop(self) {
        let FetRec {
            kind: _,
            x: _,
            y: _,
            area: _,
            perimeter: _,
            substrate: _,
            gate: _,
            terminals: _,
        } = self;
    }
}

/// Two nodes of the cell and the cells below it that are one, each by its path from the cell.
///
/// What is to be added to the sum of the parts' measures: a capacitance in attofarads, and for each class an area in square
/// lambda and a perimeter in lambda. Each may be negative.
#[derive(Debug, Drop)]
pub struct MergeRec {
    pub first: Name,
    pub second: Name,
    pub cap: i128,
    pub measures: List<(i128, i128)>,
}

/// The record of a cell.
///
/// It has the cell's name, the technology's name, and the values of the technology's classes, in milliohms per square and in
/// the order in which all measures have them. Elements of uses stand in element order, nodes and transistors by their least
/// places, and merges in the name order of their groups.
#[derive(Debug, Drop)]
pub struct CellExt {
    pub cell: Name,
    pub tech: Name,
    pub classes: List<u64>,
    pub uses: List<UseRec>,
    pub nodes: List<NodeRec>,
    pub fets: List<FetRec>,
    pub merges: List<MergeRec>,
}

/// What the lists of a record have.
pub trait Part: Drop {
    /// An equal part.
    fn copy(&self, alloc: Global) -> Result<Self, AllocError>
        ensures { IfOk result (λ copy. copy ≡ self.now) };
}

/// The list of equal parts.
pub fn copy_parts<P: Part>(alloc: Global, parts: &List<P>) -> Result<List<P>, AllocError>
    ensures { IfOk result (λ copy. copy ≡ parts.now) }
{
    let parts = parts.items();
    let mut copies = Vec::with_capacity(alloc, parts.len())?;
    for part in parts {
        copies.push_reserved(part.copy(alloc)?);
    }
    Ok(List::of(copies))
}

/// The list of the same numbers.
pub fn copy_numbers<N: Copy>(alloc: Global, numbers: &List<N>) -> Result<List<N>, AllocError>
    ensures { IfOk result (λ copy. copy ≡ numbers.now) }
{
    Ok(List::of(Vec::from_slice(alloc, numbers.items())?))
}

impl Part for Name {
    fn copy(&self, alloc: Global) -> Result<Name, AllocError> {
        Name::copy(self, alloc)
    }
}

impl Part for NodeRec {
    fn copy(&self, alloc: Global) -> Result<NodeRec, AllocError> {
        Ok(NodeRec {
            name: self.name.copy(alloc)?,
            aliases: copy_parts(alloc, &self.aliases)?,
            cap: self.cap,
            x: self.x,
            y: self.y,
            kind: self.kind.copy(alloc)?,
            measures: copy_numbers(alloc, &self.measures)?,
        })
    }
}

impl Part for TermRec {
    fn copy(&self, alloc: Global) -> Result<TermRec, AllocError> {
        Ok(TermRec {
            node: self.node.copy(alloc)?,
            length: self.length,
        })
    }
}

impl Part for FetRec {
    fn copy(&self, alloc: Global) -> Result<FetRec, AllocError> {
        Ok(FetRec {
            kind: self.kind.copy(alloc)?,
            x: self.x,
            y: self.y,
            area: self.area,
            perimeter: self.perimeter,
            substrate: self.substrate.copy(alloc)?,
            gate: self.gate.copy(alloc)?,
            terminals: copy_parts(alloc, &self.terminals)?,
        })
    }
}
