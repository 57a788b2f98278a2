//! The measures of all regions in all classes.
ghost use Rattle.std.specs.Prelude.{◌≡◌, ◌<◌, All, length, map, IfOk};
ghost use Rattle.geo_core.specs.FiniteSets.Lists.{Lists};
ghost use Rattle.layout_model.specs.Layouts.{Layout as OneLayout};
ghost use Rattle.layout_model.specs.RegionTiles.{AreLayoutTiles, AreMeasured};
ghost use Rattle.layout_model.specs.Technologies.{class_of};
ghost use Rattle.flood_nodes.specs.SoundTiles.{IsSoundTile};
ghost use Rattle.flood_nodes.specs.TileShares.{IsTileContact};
ghost use Rattle.measures.specs.steps.Columns.{AreColumns, pairs_at};

use crate::columns::{Column, measured_in};
use flood_nodes::Regions;
use flood_nodes::rect_contacts::Contact;
use layout_model::RegionTile;
use names_lists::List;
use std::alloc::{AllocError, Global};
use tech_model::{ClassRec, Tech};

/// The measures of a region: an area and a perimeter for each class, in the order of the technology's classes.
#[derive(Debug, Drop)]
pub struct MeasureRow {
    pub pairs: List<(i128, i128)>,
}

/// A row for each region, in their order.
#[derive(Debug, Drop)]
pub struct Measures {
    pub rows: List<MeasureRow>,
}

/// The measures in each class.
fn columns_of(
    alloc: Global,
    classes: &[ClassRec],
    tiles: &[RegionTile],
    contacts: &[Contact],
    count: usize,
) -> Result<Vec<Column>, AllocError>
    requires sound { All (IsSoundTile count) tiles.now }
    requires contacts { Lists (IsTileContact tiles.now) contacts.now }
    ensures { IfOk result (λ columns. AreColumns classes.now tiles.now contacts.now count columns.items) }
{
    let mut columns = Vec::with_capacity(alloc, classes.len())?;
    for class in classes {
        columns.push(measured_in(alloc, tiles, contacts, count, class)?)?;
    }
    Ok(columns)
}

/// The measures of a region.
fn row_at(alloc: Global, columns: &[Column], region: usize) -> Result<Vec<(i128, i128)>, AllocError>
    requires areas { All (λ column. region < length column.areas.items) columns.now }
    requires perimeters { All (λ column. region < length column.perimeters.items) columns.now }
    ensures { IfOk result (λ row. row.items ≡ pairs_at region columns.now) }
{
    let mut row = Vec::with_capacity(alloc, columns.len())?;
    for column in columns {
        row.push((column.areas[region], column.perimeters[region]))?;
    }
    Ok(row)
}

/// The areas and perimeters of groups of tiles, by class, in lambda: how many squares of the group are of the class, and how many
/// edges lead from these to squares of the plane that are not. The region of a tile is the number of its group. Want of memory
/// alone refuses. For each class it takes a step for each tile and for each edge that two share.
pub fn measure_tiles(
    alloc: Global,
    tech: &Tech,
    tiles: &[RegionTile],
    contacts: &[Contact],
    count: usize,
) -> Result<Measures, AllocError>
    requires sound { All (IsSoundTile count) tiles.now }
    requires contacts { Lists (IsTileContact tiles.now) contacts.now }
    ensures { IfOk result (λ made. (layout : OneLayout) → AreLayoutTiles layout tiles.now
        → AreMeasured (map class_of tech.now.classes) layout tiles.now count (map (λ row. row.pairs) made.rows)) }
{
    let classes = tech.raw().classes.items();
    let columns = columns_of(alloc, classes, tiles, contacts, count)?;
    let mut rows = Vec::with_capacity(alloc, count)?;
    for region in 0..count {
        let row = row_at(alloc, columns.as_slice(), region)?;
        rows.push(MeasureRow {
            pairs: List::of(row),
        })?;
    }
    Ok(Measures {
        rows: List::of(rows),
    })
}

/// The areas and perimeters of regions, by class, as `measure_tiles` gives them. Want of memory alone refuses.
pub fn measure(alloc: Global, tech: &Tech, regions: &Regions) -> Result<Measures, AllocError>
    ensures { IfOk result (λ made. (layout : OneLayout) → AreLayoutTiles layout regions.now.tiles
        → AreMeasured (map class_of tech.now.classes) layout regions.now.tiles regions.now.count (map (λ row. row.pairs) made.rows)) }
{
    let tiles = regions.tiles.items();
    measure_tiles(alloc, tech, tiles, regions.contacts(), regions.count)
}
