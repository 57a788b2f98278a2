//! The uses of cells, which are found by area.
ghost use Rattle.std.specs.Prelude.{◌≡◌, ◌<◌, ◌≤◌, ◌+◌, ◌*◌, [], length, nat_eq, IfOk, OnOk, IsSome};
ghost use Rattle.std.specs.HashMap.{get};
ghost use Rattle.cell_tree.specs.declared.limits.TheConstants.{MOST_ELEMENTS_BELOW};
ghost use Rattle.cell_tree.specs.Sizes.{size_at};
ghost use Rattle.cell_tree.specs.Trees.{IsLawfulTree};
ghost use Rattle.cell_tree.specs.Uses.{displacements, IsLawfulUse};
ghost use Rattle.cell_library.specs.steps.Spans.{SpansFar};
ghost use Rattle.cell_library.specs.Spots.{AreSiftedBy};
ghost use Rattle.cell_library.specs.steps.UsePlaces.{IsApart, HasRoomBelow, spots_under};
ghost use Rattle.cell_library.specs.UseTrees.{use_box, place_at, start_behind, AreUseTrees, IsUseTree};

use crate::spots::{Spot, UsePlace, add_use, element_count, use_of};
use cell_tree::{CellTree, UseBody, hull_below};
use ext_model::CellKey;
use geo_core::Rect;
use rect_trees::RectTree;
use std::alloc::{AllocError, Global};
use std::collections::HashMap;

/// The box of a use that has none, which meets no area.
pub const NO_BOX: Rect = Rect {
    xlo: 0,
    ylo: 0,
    xhi: 0,
    yhi: 0,
};

/// Where the elements of a use begin: how many elements the uses before it have, and how many cells stand at and below those.
#[derive(Clone, Copy)]
pub struct UseStart {
    pub elements: u32,
    pub standing: u32,
}

/// The uses of a cell, each found by the box round its elements, and where their elements begin.
#[derive(Drop)]
pub struct UseTree {
    boxes: RectTree,
    starts: Vec<UseStart>,
}

/// The uses of cells that were entered, by the position of the cell.
#[derive(Drop)]
pub struct UseTrees {
    entries: HashMap<usize, UseTree>,
}

/// The smallest rectangle round the elements of the use, and one without squares where its child has no hull.
fn box_of(tree: &CellTree, used: &UseBody) -> Rect
    requires lawful { IsLawfulTree tree.now }
    requires child { used.now.child.0 < length tree.now.cells }
    requires used { IsLawfulUse used.now }
    ensures { result ≡ use_box tree.now.sizes used.now }
{
    hull_below(used, tree.hull(used.child.0)).unwrap_or(NO_BOX)
}

/// Where the elements of the next use begin.
fn behind(start: UseStart, tree: &CellTree, used: &UseBody) -> UseStart
    requires lawful { IsLawfulTree tree.now }
    requires child { used.now.child.0 < length tree.now.cells }
    requires used { IsLawfulUse used.now }
    requires elements { start.elements + length (displacements used.now.grid) ≤ MOST_ELEMENTS_BELOW }
    requires standing { start.standing + length (displacements used.now.grid) * (size_at tree.now.sizes used.now.child.0).elements
        ≤ MOST_ELEMENTS_BELOW }
    ensures { result ≡ start_behind tree.now.sizes start used.now }
{
    let count = element_count(used) as u32;
    let size = tree.elements(used.child.0) as u32;
    UseStart {
        elements: start.elements + count,
        standing: start.standing + count * size,
    }
}

/// Where the elements of a use stand of the cell at a spot. The parts of the elements of that cell rise by this step, and the first has the
/// next part after that of the spot.
fn place_at(part_step: u32, spot: &Spot, start: &UseStart) -> UsePlace
    requires part { spot.now.part + part_step + start.now.elements * part_step ≤ MOST_ELEMENTS_BELOW }
    requires element { spot.now.element + 1 + start.now.standing ≤ MOST_ELEMENTS_BELOW }
    ensures { result ≡ place_at part_step spot.now start.now }
{
    UsePlace {
        outer: spot.to_top,
        part: spot.part + part_step + start.elements * part_step,
        part_step,
        element: spot.element + 1 + start.standing,
    }
}

impl UseTree {
    /// The uses of the cell. Want of memory alone refuses. It takes time for a sort.
    fn of(alloc: Global, tree: &CellTree, cell: CellKey) -> Result<UseTree, AllocError>
        requires lawful { IsLawfulTree tree.now }
        requires cell { cell.0 < length tree.now.cells }
        ensures { IfOk result (IsUseTree tree.now cell.0) }
    {
        let count = tree.use_count(cell.0);
        let mut boxes = Vec::with_capacity(alloc, count)?;
        let mut starts = Vec::with_capacity(alloc, count)?;
        let mut start = UseStart {
            elements: 0,
            standing: 0,
        };
        for k in 0..count {
            let used = use_of(tree, cell, k);
            boxes.push(box_of(tree, used))?;
            starts.push(start)?;
            start = behind(start, tree, used);
        }
        Ok(UseTree {
            boxes: RectTree::new(alloc, boxes.as_slice())?,
            starts,
        })
    }

    /// The spots of the elements of the cell at a spot that may meet an area, which is given in the coordinates of that cell. The parts of the
    /// elements rise by this step, and the first has the next part after that of the spot. Want of memory alone refuses.
    fn spots_below(
        &self,
        alloc: Global,
        tree: &CellTree,
        spot: &Spot,
        part_step: u32,
        back: Rect,
    ) -> Result<Vec<Spot>, AllocError>
        requires uses { IsUseTree tree.now spot.now.cell.0 self.now }
        requires lawful { IsLawfulTree tree.now }
        requires room { HasRoomBelow tree.now part_step spot.now }
        requires back { SpansFar back }
        ensures { IfOk result (λ found. AreSiftedBy (IsApart tree.now.sizes spot.now.to_top back) (spots_under tree.now part_step spot.now) found.items) }
    {
        let mut found = Vec::new(alloc);
        let met = self.boxes.meeting(alloc, back)?;
        for k in met.iter() {
            let from = place_at(part_step, spot, &self.starts[*k]);
            add_use(&mut found, tree, &from, use_of(tree, spot.cell, *k), back)?;
        }
        Ok(found)
    }
}

impl UseTrees {
    /// The uses of no cell. It takes no memory.
    pub fn new(alloc: Global) -> UseTrees
        ensures { result.entries.entries ≡ [] }
    {
        UseTrees {
            entries: HashMap::new(alloc),
        }
    }

    /// Finds out about the uses of the cell, unless it is known. Want of memory alone refuses.
    fn enter(&mut self, alloc: Global, tree: &CellTree, cell: CellKey) -> Result<(), AllocError>
        requires trees { AreUseTrees tree.now self.old }
        requires lawful { IsLawfulTree tree.now }
        requires cell { cell.0 < length tree.now.cells }
        ensures trees { AreUseTrees tree.now self.new }
        ensures entered { OnOk result (IsSome (get nat_eq self.new.entries cell.0)) }
    {
        if !self.entries.contains_key(&cell.0) {
            let uses = UseTree::of(alloc, tree, cell)?;
            self.entries.insert(cell.0, uses)?;
        }
        Ok(())
    }

    /// The spots of the elements of the cell at a spot that may meet an area, which is given in the coordinates of that cell. The parts of the
    /// elements rise by this step, and the first has the next part after that of the spot. Want of memory alone refuses. Of a cell without
    /// uses nothing is found out.
    pub fn spots_below(
        &mut self,
        alloc: Global,
        tree: &CellTree,
        spot: &Spot,
        part_step: u32,
        back: Rect,
    ) -> Result<Vec<Spot>, AllocError>
        requires trees { AreUseTrees tree.now self.old }
        requires lawful { IsLawfulTree tree.now }
        requires room { HasRoomBelow tree.now part_step spot.now }
        requires back { SpansFar back }
        ensures trees { AreUseTrees tree.now self.new }
        ensures found { IfOk result (λ found. AreSiftedBy (IsApart tree.now.sizes spot.now.to_top back) (spots_under tree.now part_step spot.now)
            found.items) }
    {
        if tree.use_count(spot.cell.0) == 0 {
            return Ok(Vec::new(alloc));
        }
        self.enter(alloc, tree, spot.cell)?;
        match self.entries.get(&spot.cell.0) {
            Some(uses) => uses.spots_below(alloc, tree, spot, part_step, back),
            None => unreachable!(),
        }
    }
}
