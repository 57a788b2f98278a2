//! Reading a library.
ghost use Rattle.std.specs.Prelude.{◌≡◌, ◌+◌, ◌<◌, ℕ, All, map, IfOk, OnErr, length, slice_get};
ghost use Rattle.std.specs.Option.{option_map};
ghost use Rattle.geo_core.specs.FiniteSets.Lists.{Lists};
ghost use Rattle.geo_core.specs.Areas.{IsNear};
ghost use Rattle.geo_core.specs.Covering.{Covers};
ghost use Rattle.cell_bodies.specs.LayoutModel.Places.{Place};
ghost use Rattle.cell_bodies.specs.LayoutModel.CellTrees.{standings};
ghost use Rattle.cell_bodies.specs.LayoutModel.CellTrees.CellTree.{cell_tree};
ghost use Rattle.cell_bodies.specs.LayoutModel.FlatSets.{element_parts, elements_in, parts_in, IsTyped};
ghost use Rattle.cell_bodies.specs.CellPaint.Paints.{layout_of};
ghost use Rattle.cell_tree.specs.Hulls.{IsLawfulBox};
ghost use Rattle.cell_tree.specs.Trees.{stamp_at};
ghost use Rattle.cell_tree.specs.UseOrders.LibraryOrder.{IsLibraryOrder};
ghost use Rattle.cell_library.specs.Additions.{children_in};
ghost use Rattle.cell_library.specs.ElementBoxes.{AreElementBoxes, HoldParts};
ghost use Rattle.cell_library.specs.LayoutTrees.{elements_from, own_cell, tree_at};
ghost use Rattle.cell_library.specs.Limits.{HullIs};
ghost use Rattle.cell_library.specs.PartTiles.{set_of_part, set_of_tiles, IsPartTileIn};
ghost use Rattle.cell_library.specs.Views.{cell_named, view_at};

use crate::element_boxes::{boxes_of, element_count};
use crate::library::Library;
use crate::opened::Opened;
use crate::part_tiles::PartTile;
use crate::visitor::Visitor;
use cell_bodies::cell_paint::CellPaint;
use cell_tree::UseBody;
use ext_model::CellKey;
use geo_core::Rect;
use names_lists::Name;
use std::alloc::AllocError;
use std::marker::Model;
use std::sync::ledger::Ledger;
use tech_model::{Label, Tech};

/// A reader of a library: it tells what the library does, but hands out a cell's paint for a step alone.
#[derive(Drop)]
pub struct Reader<'a> {
    library: &'a Library,
}

impl<'a> Model for Reader<'a> {
    ghost use Rattle.cell_library.specs.Libraries.{LibraryParts, parts_code};

    ghost Value = { LibraryParts };

    ghost coded = { parts_code };

    ghost view = { λ reader. reader.library.now };
}

impl<'a> Reader<'a> {
    ghost use Rattle.cell_library.specs.Libraries.{seen, IsLawfulLibrary};

    /// A reader of this library. It takes no memory.
    pub fn of(library: &'a Library) -> Reader<'a>
        ensures { result ≡ library.now }
    {
        Reader { library }
    }

    /// What holds of each library.
    pub fn lawful(&self)
        ensures { IsLawfulLibrary self.now }
    {
        let library = self.library;
        library.lawful()
    }

    /// The cell of this name.
    pub fn find(&self, name: &[u8]) -> Option<CellKey>
        ensures { option_map (λ key. key.0) result ≡ cell_named (seen self.now) name.now }
    {
        let library = self.library;
        library.find(name)
    }

    /// How many cells there are.
    pub fn cell_count(&self) -> usize
        ensures { result ≡ length self.now.contents }
    {
        let library = self.library;
        library.cell_count()
    }

    /// The scale, two numbers that are compared one by one. None exactly where there is no cell.
    pub fn scale(&self) -> Option<(u32, u32)>
        ensures { result ≡ self.now.scale }
    {
        let library = self.library;
        library.scale()
    }

    /// The technology.
    pub fn tech(&self) -> &Tech
        ensures { result.now ≡ self.now.tech }
    {
        let library = self.library;
        library.tech()
    }

    /// The number of the edit that last changed the cell or a cell below it.
    pub fn stamp(&self, cell: CellKey) -> u64
        requires { cell.0 < length self.now.contents }
        ensures { result ≡ stamp_at self.now.tree.stamps cell.0 }
    {
        let library = self.library;
        library.stamp(cell)
    }

    /// The smallest rectangle that holds the cell's own material, its labels and the hulls of its elements.
    pub fn hull(&self, cell: CellKey) -> Option<Rect>
        requires { cell.0 < length self.now.contents }
        ensures { HullIs (seen self.now) cell.0 result }
    {
        let library = self.library;
        library.hull(cell)
    }

    /// The name of the cell.
    pub fn name_of(&self, cell: CellKey) -> &Name
        requires { cell.0 < length self.now.contents }
        ensures { result.now ≡ (view_at (seen self.now) cell.0).name }
    {
        let library = self.library;
        library.name_of(cell)
    }

    /// The cell's labels, in order of arrival.
    pub fn labels_of(&self, cell: CellKey) -> &[Label]
        requires { cell.0 < length self.now.contents }
        ensures { result.now ≡ (view_at (seen self.now) cell.0).labels }
    {
        let library = self.library;
        library.labels_of(cell)
    }

    /// The id and the body of the k-th use of the cell, counted from 0. None exactly past the last.
    pub fn use_at(&self, cell: CellKey, k: usize) -> Option<(&[u8], &UseBody)>
        requires { cell.0 < length self.now.contents }
        ensures { option_map (λ found. (found.0.now, found.1.now)) result ≡ slice_get (view_at (seen self.now) cell.0).uses k }
    {
        let library = self.library;
        library.use_at(cell, k)
    }

    /// The cells at and below the root in library order: in the order of uses, children before parents, each once, and the root last. Want of
    /// memory alone refuses.
    pub fn below(&self, root: CellKey) -> Result<Vec<CellKey>, AllocError>
        requires { root.0 < length self.now.contents }
        ensures { IfOk result (λ order. IsLibraryOrder (children_in (seen self.now)) root.0 (map (λ key. key.0) order.items)) }
    {
        let library = self.library;
        library.below(root)
    }

    /// The cell's own paint, for one step.
    pub fn open<L: Ledger>(&self, cell: CellKey, steps: &mut Opened<L>) -> &CellPaint
        requires { cell.0 < length self.now.contents }
        ensures own { layout_of result.now ≡ (view_at (seen self.now) cell.0).own }
        ensures kinds { result.now.kinds ≡ self.now.tech.types }
        ensures planes { length result.now.planes ≡ length self.now.tech.planes }
        ensures step { steps.new ≡ steps.old + 1 }
    {
        steps.tick();
        let library = self.library;
        library.paint_of(cell)
    }

    /// The boxes of the elements of the cell's uses, in order: the hull of the child as the element stands, where the child has one. Want
    /// of memory alone refuses.
    pub fn element_boxes(&self, cell: CellKey) -> Result<Vec<Rect>, AllocError>
        requires { cell.0 < length self.now.contents }
        ensures boxes { IfOk result (λ boxes. AreElementBoxes (seen self.now) cell.0 boxes.items) }
        ensures hold { IfOk result (λ boxes. HoldParts boxes.items (element_parts self.now.tech (elements_in (tree_at (seen self.now) cell.0)))) }
        ensures lawful { IfOk result (λ boxes. All IsLawfulBox boxes.items) }
    {
        let library = self.library;
        library.lawful();
        boxes_of(library, cell)
    }

    /// How many parts the cell has: its own paint, and each element of its uses.
    pub fn part_count(&self, cell: CellKey) -> usize
        requires { cell.0 < length self.now.contents }
        ensures { result ≡ length (parts_in self.now.tech (tree_at (seen self.now) cell.0)) }
    {
        let library = self.library;
        1 + element_count(library, cell)
    }

    /// How many cells stand at and below the cell, the cell itself among them.
    pub fn standing_count(&self, cell: CellKey) -> usize
        requires { cell.0 < length self.now.contents }
        ensures { result ≡ length (standings (tree_at (seen self.now) cell.0)) }
    {
        let library = self.library;
        library.lawful();
        library.tree().elements(cell.0) as usize
    }

    /// What holds of each tree of cells: its types are the technology's. It does nothing.
    pub fn typed(&self, cell: CellKey)
        requires { cell.0 < length self.now.contents }
        ensures { IsTyped self.now.tech (tree_at (seen self.now) cell.0) }
    {
        let library = self.library;
        library.lawful();
        library.all_sound();
    }

    /// The tree of each cell has the trees of its children. It does nothing.
    pub fn unfolded(&self)
        ensures { (cell : ℕ) → cell < length self.now.contents → tree_at (seen self.now) cell
            ≡ cell_tree (own_cell (seen self.now) cell) (elements_from (tree_at (seen self.now)) (view_at (seen self.now) cell).uses) }
    {
        let library = self.library;
        library.lawful()
    }

    /// A visitor of this library. It takes no memory.
    pub fn visitor(&self) -> Visitor<'a>
        ensures { result ≡ self.now }
    {
        Visitor::of(self.library)
    }

    /// The tiles of all parts of the cell that meet the area, as a visitor that comes for this one visit hands them out.
    pub fn visit<L: Ledger>(
        &self,
        cell: CellKey,
        area: Rect,
        steps: &mut Opened<L>,
    ) -> Result<Vec<PartTile>, AllocError>
        requires cell { cell.0 < length self.now.contents }
        requires near { IsNear area }
        ensures tiles { IfOk result (λ tiles. Lists (IsPartTileIn (tree_at (seen self.now) cell.0) area) tiles.items) }
        ensures sets { IfOk result (λ tiles. (part : ℕ) (place : Place) → Covers area place.square
            → set_of_tiles self.now.tech tiles.items part place ≡ set_of_part self.now.tech (tree_at (seen self.now) cell.0) part place) }
        ensures steps { IfOk result (λ tiles. steps.new ≡ steps.old + length tiles.items) }
        ensures refused { OnErr result (steps.new ≡ steps.old) }
    {
        let mut visitor = self.visitor();
        visitor.visit(cell, area, steps)
    }
}
