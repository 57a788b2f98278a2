//! Visits of areas of the cells of a library.
ghost use Rattle.std.specs.Prelude.{◌≡◌, ◌+◌, ◌<◌, ℕ, IfOk, OnErr, length};
ghost use Rattle.geo_core.specs.FiniteSets.Lists.{Lists};
ghost use Rattle.geo_core.specs.Areas.{IsNear};
ghost use Rattle.geo_core.specs.Covering.{Covers};
ghost use Rattle.cell_bodies.specs.LayoutModel.Places.{Place};
ghost use Rattle.cell_library.specs.LayoutTrees.{tree_at};
ghost use Rattle.cell_library.specs.PartTiles.{set_of_part, set_of_tiles, IsPartTileIn};

use crate::library::Library;
use crate::opened::Opened;
use crate::part_tiles::PartTile;
use crate::use_trees::UseTrees;
use crate::visiting::visit_cell;
use ext_model::CellKey;
use geo_core::Rect;
use std::alloc::AllocError;
use std::marker::Model;
use std::sync::ledger::Ledger;

/// A visitor of a library: it hands out the tiles of areas of its cells. Contracts see it as its library.
///
/// Where it enters a cell for the first time, it sorts the uses of that cell by where they stand, and keeps that for later visits. So one
/// visitor is to make all visits that belong together.
#[derive(Drop)]
pub struct Visitor<'a> {
    library: &'a Library,
    use_trees: UseTrees,
}

impl<'a> Model for Visitor<'a> {
    ghost use Rattle.cell_library.specs.Libraries.{LibraryParts, parts_code};
    ghost use Rattle.cell_library.specs.UseTrees.{AreUseTrees};

    ghost Value = { LibraryParts };

    ghost coded = { parts_code };

    ghost view = { λ visitor. visitor.library.now };

    ghost invariant = { λ visitor. AreUseTrees visitor.library.now.tree visitor.use_trees };
}

impl<'a> Visitor<'a> {
    ghost use Rattle.cell_library.specs.Libraries.{seen};

    /// A visitor of this library. It takes no memory.
    pub fn of(library: &'a Library) -> Visitor<'a>
        ensures { result ≡ library.now }
    {
        Visitor {
            library,
            use_trees: UseTrees::new(library.alloc()),
        }
    }

    /// The tiles of all parts of the cell that meet the area, cut to it, each once, for one step each. At each place
    /// of the area the tiles of a part together have the part's set. Want of memory alone refuses.
    ///
    /// It enters no element whose hull misses the area, and looks at no use whose elements miss it: uses are found by where they stand, and
    /// the elements of a grid by their indices.
    pub fn visit<L: Ledger>(
        &mut self,
        cell: CellKey,
        area: Rect,
        steps: &mut Opened<L>,
    ) -> Result<Vec<PartTile>, AllocError>
        requires cell { cell.0 < length self.old.contents }
        requires near { IsNear area }
        ensures same { self.new ≡ self.old }
        ensures tiles { IfOk result (λ tiles. Lists (IsPartTileIn (tree_at (seen self.old) cell.0) area) tiles.items) }
        ensures sets { IfOk result (λ tiles. (part : ℕ) (place : Place) → Covers area place.square
            → set_of_tiles self.old.tech tiles.items part place ≡ set_of_part self.old.tech (tree_at (seen self.old) cell.0) part place) }
        ensures steps { IfOk result (λ tiles. steps.new ≡ steps.old + length tiles.items) }
        ensures refused { OnErr result (steps.new ≡ steps.old) }
    {
        let tiles = visit_cell(self.library, &mut self.use_trees, cell, area)?;
        steps.add(tiles.len() as u64);
        Ok(tiles)
    }
}
