//! The bodies of the cells that are made.
ghost use Rattle.std.specs.Prelude.{◌≡◌, ◌<◌, ◌≤◌, [], ◌∷◌, ◌++◌, true, length, unwrap_or, Some, IfOk, OnOk};
ghost use Rattle.geo_core.specs.Areas.{has_square};
ghost use Rattle.cell_library.specs.LayoutModel.Places.{Place};
ghost use Rattle.cell_library.specs.CellPaint.Painting.{is_in_range, with_paint};
ghost use Rattle.cell_library.specs.CellPaint.Paints.{layout_of};
ghost use Rattle.layout_gen.specs.steps.Bodies.{AreLayers, AreMade, IsMade, array_use};
ghost use Rattle.layout_gen.specs.Generated.{no_paint, row_grid, stack_grid, tile_labels, tile_layout};

use crate::checks::TileLayers;
use crate::limits::{MOST_TILES, TILE_SIDE};
use crate::words::{ROW, STACK, TILE};
use cell_library::Library;
use cell_library::cell_bodies::{CellBody, CellUse};
use cell_library::cell_paint::{CellPaint, PaintFault};
use geo_core::{Grid, Rect};
use names_lists::{List, Name};
use std::alloc::{AllocError, Global};
use tech_model::{Label, LayerId, Tech};

// Where poly goes through a tile.
const POLY_AREA: Rect = Rect {
    xlo: 0,
    ylo: 2,
    xhi: TILE_SIDE,
    yhi: 4,
};

// Where diffusion goes through it.
const DIFF_AREA: Rect = Rect {
    xlo: 2,
    ylo: 0,
    xhi: 4,
    yhi: TILE_SIDE,
};

// The left end of the poly.
const LEFT_END: Rect = Rect {
    xlo: 0,
    ylo: 2,
    xhi: 0,
    yhi: 4,
};

// The lower end of the diffusion.
const LOWER_END: Rect = Rect {
    xlo: 2,
    ylo: 0,
    xhi: 4,
    yhi: 0,
};

// The positions of texts to the west and to the south of what they name.
const WEST: u8 = 7;

const SOUTH: u8 = 5;

// The six numbers by which a child stands where it is.
const IN_PLACE: [i64; 6] = [1, 0, 0, 0, 1, 0];

// No paint.
fn empty_paint(alloc: Global, tech: &Tech) -> Result<CellPaint, AllocError>
    ensures kinds { IfOk result (λ paint. paint.kinds ≡ tech.now.types) }
    ensures planes { IfOk result (λ paint. length paint.planes ≡ length tech.now.planes) }
    ensures empty { IfOk result (λ paint. (place : Place) → layout_of paint place ≡ 0) }
{
    CellPaint::new(alloc, tech).map_err(|_| AllocError)
}

// Paints the layer over the area, which paint may go over.
fn paint_over(
    paint: &mut CellPaint,
    tech: &Tech,
    layer: LayerId,
    area: Rect,
) -> Result<(), AllocError>
    requires kinds { paint.old.kinds ≡ tech.now.types }
    requires layer { layer.0 < length tech.now.layers }
    requires proper { has_square area ≡ true }
    requires near { is_in_range area ≡ true }
    ensures painted { OnOk result ((place : Place) → layout_of paint.new place ≡ with_paint tech.now layer.0 area (layout_of paint.old) place) }
    ensures kinds { paint.new.kinds ≡ paint.old.kinds }
    ensures planes { length paint.new.planes ≡ length paint.old.planes }
{
    match paint.paint(tech, layer, area) {
        Ok(()) => Ok(()),
        Err(PaintFault::Memory) => Err(AllocError),
        Err(_) => unreachable!(),
    }
}

// The paint of a tile.
fn tile_paint(alloc: Global, tech: &Tech, layers: &TileLayers) -> Result<CellPaint, AllocError>
    requires layers { AreLayers tech.now layers.now }
    ensures kinds { IfOk result (λ paint. paint.kinds ≡ tech.now.types) }
    ensures planes { IfOk result (λ paint. length paint.planes ≡ length tech.now.planes) }
    ensures layout { IfOk result (λ paint. (place : Place) → layout_of paint place ≡ tile_layout tech.now layers.now.poly.0 layers.now.diff.0 place) }
{
    let mut paint = empty_paint(alloc, tech)?;
    paint_over(&mut paint, tech, layers.poly, POLY_AREA)?;
    paint_over(&mut paint, tech, layers.diff, DIFF_AREA)?;
    Ok(paint)
}

// A label of a layer.
fn label_of(
    alloc: Global,
    layer: LayerId,
    area: Rect,
    position: u8,
    text: &[u8],
) -> Result<Label, AllocError>
    ensures { IfOk result (λ label. label ≡ record { layer = Some layer; area = area; position = position; text = text.now }) }
{
    let text = Name::of(alloc, text)?;
    Ok(Label {
        layer: Some(layer),
        area,
        position,
        text,
    })
}

// The labels of a tile.
fn tile_labels(alloc: Global, layers: &TileLayers) -> Result<Vec<Label>, AllocError>
    ensures { IfOk result (λ labels. labels.items ≡ tile_labels layers.now.poly.0 layers.now.diff.0) }
{
    let mut labels = Vec::new(alloc);
    labels.push(label_of(alloc, layers.poly, LEFT_END, WEST, b"w")?)?;
    labels.push(label_of(alloc, layers.diff, LOWER_END, SOUTH, b"b")?)?;
    Ok(labels)
}

// A body with this paint.
fn body_of(
    paint: CellPaint,
    labels: Vec<Label>,
    uses: Vec<CellUse>,
    scale: (u32, u32),
    tech: &Tech,
) -> CellBody
    requires kinds { paint.kinds ≡ tech.now.types }
    requires planes { length paint.planes ≡ length tech.now.planes }
    ensures { IsMade tech.now (layout_of paint) labels.items uses.items scale result }
{
    // The proof takes from these calls what holds of all paint.
    let _ = tech.raw();
    let _ = paint.box_of();
    CellBody {
        paint,
        uses: List::of(uses),
        labels: List::of(labels),
        scale,
    }
}

// The body of the tile.
fn tile_body(
    alloc: Global,
    tech: &Tech,
    layers: &TileLayers,
    scale: (u32, u32),
) -> Result<CellBody, AllocError>
    requires layers { AreLayers tech.now layers.now }
    ensures { IfOk result (IsMade tech.now (tile_layout tech.now layers.now.poly.0 layers.now.diff.0)
        (tile_labels layers.now.poly.0 layers.now.diff.0) [] scale) }
{
    let paint = tile_paint(alloc, tech, layers)?;
    let labels = tile_labels(alloc, layers)?;
    Ok(body_of(paint, labels, Vec::new(alloc), scale, tech))
}

// A use of the cell in a grid.
fn array_use(alloc: Global, cell: &[u8], id: &[u8], grid: Grid) -> Result<CellUse, AllocError>
    ensures { IfOk result (λ used. used ≡ array_use cell.now id.now grid) }
{
    let cell = Name::of(alloc, cell)?;
    let id = Name::of(alloc, id)?;
    Ok(CellUse {
        cell,
        id,
        six: IN_PLACE,
        grid: Some(grid),
    })
}

// The body of a cell that has nothing but a use of the cell in a grid.
fn array_body(
    alloc: Global,
    tech: &Tech,
    cell: &[u8],
    id: &[u8],
    grid: Grid,
    scale: (u32, u32),
) -> Result<CellBody, AllocError>
    ensures { IfOk result (IsMade tech.now no_paint [] (array_use cell.now id.now grid ∷ []) scale) }
{
    let paint = empty_paint(alloc, tech)?;
    let mut uses = Vec::new(alloc);
    uses.push(array_use(alloc, cell, id, grid)?)?;
    Ok(body_of(paint, Vec::new(alloc), uses, scale, tech))
}

// So many elements side by side.
fn row_grid(n: u32) -> Grid
    requires { 1 ≤ n }
    ensures { result ≡ row_grid n }
{
    Grid {
        xlo: 0,
        xhi: i64::from(n - 1),
        xsep: TILE_SIDE,
        ylo: 0,
        yhi: 0,
        ysep: 0,
    }
}

// So many elements one above the other.
fn stack_grid(n: u32) -> Grid
    requires { 1 ≤ n }
    ensures { result ≡ stack_grid n }
{
    Grid {
        xlo: 0,
        xhi: 0,
        xsep: 0,
        ylo: 0,
        yhi: i64::from(n - 1),
        ysep: TILE_SIDE,
    }
}

// Adds a cell.
fn add_cell(
    alloc: Global,
    cells: &mut Vec<(Name, CellBody)>,
    name: &[u8],
    body: CellBody,
) -> Result<(), AllocError>
    ensures { OnOk result (cells.new.items ≡ cells.old.items ++ (name.now, body) ∷ []) }
{
    cells.push((Name::of(alloc, name)?, body))?;
    Ok(())
}

// The cells with their names.
fn made_cells(
    alloc: Global,
    tech: &Tech,
    layers: &TileLayers,
    scale: (u32, u32),
    n: u32,
) -> Result<Vec<(Name, CellBody)>, AllocError>
    requires layers { AreLayers tech.now layers.now }
    requires some { 1 ≤ n }
    ensures { IfOk result (λ cells. AreMade tech.now layers.now scale n cells.items) }
{
    let tile = tile_body(alloc, tech, layers, scale)?;
    let row = array_body(alloc, tech, TILE, b"t", row_grid(n), scale)?;
    let stack = array_body(alloc, tech, ROW, b"r", stack_grid(n), scale)?;
    let mut cells = Vec::new(alloc);
    add_cell(alloc, &mut cells, TILE, tile)?;
    add_cell(alloc, &mut cells, ROW, row)?;
    add_cell(alloc, &mut cells, STACK, stack)?;
    Ok(cells)
}

// The scale of a cell that comes next.
fn next_scale(library: &Library) -> (u32, u32)
    ensures { result ≡ unwrap_or library.now.scale (1, 1) }
{
    library.scale().unwrap_or((1, 1))
}

/// The cells with their names, as the library may have them.
pub(crate) fn cells_for(
    alloc: Global,
    library: &Library,
    layers: &TileLayers,
    n: u32,
) -> Result<Vec<(Name, CellBody)>, AllocError>
    requires layers { AreLayers library.now.tech layers.now }
    requires some { 1 ≤ n }
    ensures { IfOk result (λ cells. AreMade library.now.tech layers.now (unwrap_or library.now.scale (1, 1)) n cells.items) }
{
    let scale = next_scale(library);
    made_cells(alloc, library.tech(), layers, scale, n)
}
