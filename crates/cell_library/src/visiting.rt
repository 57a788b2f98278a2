//! A visit of a cell: the tiles of all that stands at and below it, where they meet an area.
//!
//! A cell that stands somewhere below looks at the area in its own coordinates. Where its hull does not meet it, nothing below does. Else
//! its own tiles are told, and then those at the spots of its elements that may meet the area, which are found by where uses
//! stand and by the indices of grids.
ghost use Rattle.std.specs.Prelude.{◌≡◌, ◌<◌, ◌∷◌, [], ℕ, length, IfOk, IfSome, IfNone, OnOk, Some};
ghost use Rattle.geo_core.specs.FiniteSets.Lists.{Lists};
ghost use Rattle.geo_core.specs.declared.squares.Rect.{Rect as IsRect};
ghost use Rattle.geo_core.specs.Areas.{common_rect, IsNear};
ghost use Rattle.geo_core.specs.Covering.{Covers, IsProper};
ghost use Rattle.geo_core.specs.Reach.{MovesInReach};
ghost use Rattle.cell_bodies.specs.LayoutModel.Places.{Place};
ghost use Rattle.cell_bodies.specs.CellPaint.Paints.{layout_of};
ghost use Rattle.cell_tree.specs.Trees.{IsLawfulTree};
ghost use Rattle.cell_library.specs.LayoutTrees.{tree_at, tree_to};
ghost use Rattle.cell_library.specs.Libraries.{seen};
ghost use Rattle.cell_library.specs.PartTiles.{set_of_part, set_of_tiles, IsPartTileIn};
ghost use Rattle.cell_library.specs.Spots.{standing_at, tile_at, CanBeVisited};
ghost use Rattle.cell_library.specs.steps.Visits.{AddsPlane, HullIsAt, IsNearPart, IsNearSpot};
ghost use Rattle.cell_library.specs.steps.VisitedTiles.{placed_cells, AddsTiles};
ghost use Rattle.cell_library.specs.UseTrees.{AreUseTrees};

use crate::library::Library;
use crate::part_tiles::PartTile;
use crate::spots::Spot;
use crate::use_trees::UseTrees;
use cell_bodies::cell_paint::CellPaint;
use cell_tree::{CellTree, MOST_DEPTH};
use ext_model::CellKey;
use geo_core::{Orient, Piece, Rect, Transform};
use std::alloc::AllocError;
use tech_model::TypeId;

/// Where the hull of the cell meets an area that is given in the cell's coordinates.
fn near_part(tree: &CellTree, cell: CellKey, back: Rect) -> Option<Rect>
    requires lawful { IsLawfulTree tree.now }
    requires cell { cell.0 < length tree.now.cells }
    ensures some { IfSome result (IsNearPart tree.now.sizes cell.0 back) }
    ensures none { IfNone result ((hull : IsRect) → HullIsAt tree.now.sizes cell.0 hull → IsProper (common_rect back hull) → ⊥) }
{
    let hull = tree.hull(cell.0)?;
    let near = back.common(&hull);
    if near.has_square() { Some(near) } else { None }
}

/// The tile of the cell at a spot that a piece of one of its planes is.
fn tile_of(spot: &Spot, plane: u8, piece: &Piece) -> PartTile
    requires moves { MovesInReach spot.now.to_top }
    requires near { IsNear piece.now.area }
    ensures { result ≡ tile_at spot.now plane piece.now }
{
    PartTile {
        part: spot.part,
        element: spot.element,
        of: spot.cell,
        to_cell: spot.to_top,
        plane,
        area: spot.to_top.rect(piece.area),
        kind: TypeId(piece.value),
    }
}

/// Adds the tiles of a plane of the paint of the cell at a spot, in an area that is given in its coordinates.
fn add_plane(
    paint: &CellPaint,
    spot: &Spot,
    plane: u8,
    near: Rect,
    tiles: &mut Vec<PartTile>,
) -> Result<(), AllocError>
    requires moves { MovesInReach spot.now.to_top }
    requires plane { plane < length paint.now.planes }
    requires proper { IsProper near }
    requires near { IsNear near }
    ensures { OnOk result (AddsPlane (layout_of paint.now) spot.now plane near tiles.old.items tiles.new.items) }
{
    let Ok(pieces) = paint.tiles_in(plane, near) else {
        return Err(AllocError);
    };
    for piece in pieces.iter() {
        tiles.push(tile_of(spot, plane, piece))?;
    }
    Ok(())
}

/// Adds the tiles that the cell at a spot has of its own in an area, which is given in its coordinates within its hull.
fn add_own(
    library: &Library,
    spot: &Spot,
    near: Rect,
    tiles: &mut Vec<PartTile>,
) -> Result<(), AllocError>
    requires cell { spot.now.cell.0 < length library.now.contents }
    requires moves { MovesInReach spot.now.to_top }
    requires proper { IsProper near }
    requires near { IsNear near }
    ensures { OnOk result ((area : IsRect) → IsNearSpot library.now.tree.sizes spot.now area near
        → AddsTiles (standing_at (seen library.now) spot.now ∷ []) spot.now.element area tiles.old.items tiles.new.items) }
{
    library.lawful();
    let paint = library.paint_of(spot.cell);
    let planes = library.tech().raw().planes.items().len() as u8;
    for plane in 0..planes {
        add_plane(paint, spot, plane, near, tiles)?;
    }
    Ok(())
}

/// Adds the tiles of all that stands at and below a spot, below which are at most so many levels of cells. The parts of its elements rise
/// by this step. What it learns of the uses of cells is kept.
fn visit_spot(
    levels: u64,
    library: &Library,
    use_trees: &mut UseTrees,
    area: Rect,
    part_step: u32,
    spot: &Spot,
    tiles: &mut Vec<PartTile>,
) -> Result<(), AllocError>
    requires uses { AreUseTrees library.now.tree use_trees.old }
    requires spot { CanBeVisited library.now.tree levels part_step spot.now }
    requires near { IsNear area }
    ensures uses { AreUseTrees library.now.tree use_trees.new }
    ensures tiles { OnOk result (AddsTiles
        (placed_cells part_step spot.now.part spot.now.to_top (tree_to (seen library.now) levels spot.now.cell.0))
        spot.now.element area tiles.old.items tiles.new.items) }
{
    library.lawful();
    let back = spot.to_top.inverse().rect(area);
    let near = match near_part(library.tree(), spot.cell, back) {
        Some(near) => near,
        None => return Ok(()),
    };
    add_own(library, spot, near, tiles)?;
    if levels == 0 {
        return Ok(());
    }
    let below = use_trees.spots_below(library.alloc(), library.tree(), spot, part_step, back)?;
    for next in below.iter() {
        visit_spot(levels - 1, library, use_trees, area, 0, next, tiles)?;
    }
    Ok(())
}

/// The tiles of all parts of the cell that meet the area, cut to it, in the order of their elements.
pub fn visit_cell(
    library: &Library,
    use_trees: &mut UseTrees,
    cell: CellKey,
    area: Rect,
) -> Result<Vec<PartTile>, AllocError>
    requires uses { AreUseTrees library.now.tree use_trees.old }
    requires cell { cell.0 < length library.now.contents }
    requires near { IsNear area }
    ensures uses { AreUseTrees library.now.tree use_trees.new }
    ensures tiles { IfOk result (λ tiles. Lists (IsPartTileIn (tree_at (seen library.now) cell.0) area) tiles.items) }
    ensures sets { IfOk result (λ tiles. (part : ℕ) (place : Place) → Covers area place.square
        → set_of_tiles library.now.tech tiles.items part place ≡ set_of_part library.now.tech (tree_at (seen library.now) cell.0) part place) }
{
    library.lawful();
    let spot = Spot {
        cell,
        to_top: Transform {
            orient: Orient::R0,
            dx: 0,
            dy: 0,
        },
        part: 0,
        element: 0,
    };
    let mut tiles = Vec::new(library.alloc());
    visit_spot(MOST_DEPTH, library, use_trees, area, 1, &spot, &mut tiles)?;
    Ok(tiles)
}
