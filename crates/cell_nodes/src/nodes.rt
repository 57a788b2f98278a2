//! The nodes of a cell's own paint.
ghost use Rattle.std.specs.Prelude.{◌≡◌, ◌<◌, ℕ, All, IfOk, length, slice_index_or};
ghost use Rattle.cell_paint.specs.Paints.{layout_of};
ghost use Rattle.tech_model.specs.Types.{connects};
ghost use Rattle.tech_model.specs.WellFormed.{IsWellFormed};
ghost use Rattle.layout_model.specs.LayerTypes.{HasTypesOf};
ghost use Rattle.layout_model.specs.Layouts.{IsMaterial};
ghost use Rattle.layout_model.specs.Places.{Place};
ghost use Rattle.layout_model.specs.RegionTiles.{AreRegions};
ghost use Rattle.measures.specs.Bounds.{IsNearPlace};
ghost use Rattle.names.specs.Attachments.{AreUnattached};
ghost use Rattle.names.specs.Labels.{IsLabelOf};
ghost use Rattle.names.specs.declared.nodes.NamedNode.{NamedNode as OneNode};
ghost use Rattle.cell_nodes.specs.steps.NodeNumbers.{AreNodeNumbers, AreNodeMeasures};
ghost use Rattle.cell_nodes.specs.NodeRecords.{AreNodeRecords};
ghost use Rattle.cell_nodes.specs.RegionNodes.{AreNodesOfRegions};
ghost use Rattle.cell_nodes.specs.steps.Records.{AreMade, AreRecordsOf};

use crate::groups::{grouped, node_numbers};
use crate::records::record_of;
use cell_paint::{CellPaint, PAINT_RANGE};
use ext_model::NodeRec;
use measures::flood_nodes::{Regions, regions};
use measures::{MeasureRow, Measures, measure_tiles};
use names::{NamedNode, name_nodes};
use names_lists::{List, Name};
use std::alloc::{AllocError, Global};
use tech_model::{Label, Tech};

/// The nodes of a cell's own paint by their least places, and the texts of the labels that name none of them, in the order of
/// the labels.
#[derive(Debug, Drop)]
pub struct CellNodes {
    pub nodes: List<NodeRec>,
    pub unattached: List<Name>,
}

/// The regions of a cell's own paint, the records of the nodes that they make by their least places, for each region the number
/// of its node's record, and the texts of the labels that name no node, in the order of the labels.
#[derive(Debug, Drop)]
pub struct CellRegions {
    pub regions: Regions,
    pub nodes: List<NodeRec>,
    pub numbers: Vec<usize>,
    pub unattached: List<Name>,
}

/// The regions of the paint.
fn regions_of(alloc: Global, tech: &Tech, paint: &CellPaint) -> Result<Regions, AllocError>
    requires kinds { paint.now.kinds ≡ tech.now.types }
    requires planes { length paint.now.planes ≡ length tech.now.planes }
    ensures regions { IfOk result (λ found. AreRegions (connects tech.now) (layout_of paint.now) found.tiles found.count) }
    ensures types { HasTypesOf tech.now (layout_of paint.now) }
    ensures near { (place : Place) → IsMaterial (layout_of paint.now) place → IsNearPlace place }
    ensures well_formed { IsWellFormed tech.now }
{
    // The proof takes from these calls that the technology is well formed and the paint sound.
    let _ = tech.raw();
    let _ = paint.box_of();
    let found = regions(alloc, tech, paint, PAINT_RANGE)?;
    Ok(found)
}

/// The measures of the tiles of each node, and of those of none.
fn node_measures(
    alloc: Global,
    tech: &Tech,
    regions: &Regions,
    nodes: &[NamedNode],
    numbers: &[usize],
) -> Result<Measures, AllocError>
    requires { AreNodeNumbers nodes.now regions.now.count numbers.now }
    ensures { IfOk result (λ made. AreNodeMeasures tech.now regions.now.tiles regions.now.count nodes.now made.rows) }
{
    let groups = grouped(alloc, regions.tiles.items(), numbers)?;
    measure_tiles(
        alloc,
        tech,
        groups.as_slice(),
        regions.contacts(),
        nodes.len() + 1,
    )
}

/// The records of nodes with these measures.
fn records_of(
    alloc: Global,
    tech: &Tech,
    nodes: &[NamedNode],
    rows: &[MeasureRow],
) -> Result<Vec<NodeRec>, AllocError>
    requires { AreMade tech.now nodes.now rows.now }
    ensures { IfOk result (λ made. AreRecordsOf tech.now nodes.now rows.now made.items) }
{
    let mut records = Vec::with_capacity(alloc, nodes.len())?;
    for (k, node) in nodes.iter().enumerate() {
        records.push(record_of(alloc, tech, node, rows[k].pairs.items())?)?;
    }
    Ok(records)
}

/// The regions of a cell's own paint, and the nodes that they make, with the names that its labels give them.
///
/// The paint is of the technology, and so are the layers of the labels. Areas of labels have bounds below 2^28 in absolute
/// value. Want of memory alone refuses.
pub fn cell_regions(
    alloc: Global,
    tech: &Tech,
    paint: &CellPaint,
    labels: &[Label],
) -> Result<CellRegions, AllocError>
    requires kinds { paint.now.kinds ≡ tech.now.types }
    requires planes { length paint.now.planes ≡ length tech.now.planes }
    requires labels { All (IsLabelOf tech.now) labels.now }
    ensures regions { IfOk result (λ found. AreRegions (connects tech.now) (layout_of paint.now) found.regions.tiles found.regions.count) }
    ensures nodes { IfOk result (λ found. AreNodesOfRegions tech.now (layout_of paint.now) labels.now found.regions.tiles found.regions.count
        found.nodes found.numbers.items) }
    ensures unattached { IfOk result (λ found. AreUnattached tech.now (layout_of paint.now) labels.now found.unattached) }
{
    let regions = regions_of(alloc, tech, paint)?;
    let named = name_nodes(alloc, tech, &regions, labels)?;
    let nodes = named.nodes.items();
    let numbers = node_numbers(alloc, nodes, regions.count)?;
    let measures = node_measures(alloc, tech, &regions, nodes, numbers.as_slice())?;
    let records = records_of(alloc, tech, nodes, measures.rows.items())?;
    Ok(CellRegions {
        regions,
        nodes: List::of(records),
        numbers,
        unattached: named.unattached,
    })
}

/// The nodes of a cell's own paint, with the names that its labels give them.
///
/// The paint is of the technology, and so are the layers of the labels. Areas of labels have bounds below 2^28 in absolute
/// value. Want of memory alone refuses.
pub fn cell_nodes(
    alloc: Global,
    tech: &Tech,
    paint: &CellPaint,
    labels: &[Label],
) -> Result<CellNodes, AllocError>
    requires kinds { paint.now.kinds ≡ tech.now.types }
    requires planes { length paint.now.planes ≡ length tech.now.planes }
    requires labels { All (IsLabelOf tech.now) labels.now }
    ensures nodes { IfOk result (λ found. AreNodeRecords tech.now (layout_of paint.now) labels.now found.nodes) }
    ensures unattached { IfOk result (λ found. AreUnattached tech.now (layout_of paint.now) labels.now found.unattached) }
{
    let found = cell_regions(alloc, tech, paint, labels)?;
    Ok(CellNodes {
        nodes: found.nodes,
        unattached: found.unattached,
    })
}
