//! Tiles with the numbers of their nodes.
ghost use Rattle.std.specs.Prelude.{◌<◌, ℕ, All, IfOk, length, slice_index_or};
ghost use Rattle.measures.specs.FloodNodes.Renumbered.{AreRenumbered};
ghost use Rattle.cell_nodes.specs.steps.NodeNumbers.{AreNodeNumbers, AreNumbered, numbers_at};
ghost use Rattle.names.specs.declared.nodes.NamedNode.{NamedNode as OneNode};

use layout_model::RegionTile;
use names::NamedNode;
use std::alloc::{AllocError, Global};

/// Gives regions a number.
fn number_regions(numbers: &mut [usize], regions: &[usize], number: usize)
    requires { All (λ region. region < length numbers.old) regions.now }
    ensures { AreNumbered regions.now number numbers.old numbers.new }
{
    for region in regions {
        numbers[*region] = number;
    }
}

/// The number of the node of each region.
pub fn node_numbers(
    alloc: Global,
    nodes: &[NamedNode],
    count: usize,
) -> Result<Vec<usize>, AllocError>
    requires { (k : ℕ) (node : OneNode) → k < length nodes.now → All (λ region. region < count) (slice_index_or nodes.now k node).regions }
    ensures { IfOk result (λ numbers. AreNodeNumbers nodes.now count numbers.items) }
{
    let mut numbers = vec![in alloc; nodes.len(); count]?;
    for (number, node) in nodes.iter().enumerate() {
        number_regions(&mut numbers, node.regions.items(), number);
    }
    Ok(numbers)
}

/// The tiles with the numbers of their regions' nodes.
pub fn grouped(
    alloc: Global,
    tiles: &[RegionTile],
    numbers: &[usize],
) -> Result<Vec<RegionTile>, AllocError>
    requires { All (λ tile. tile.region < length numbers.now) tiles.now }
    ensures { IfOk result (λ grouped. AreRenumbered tiles.now (numbers_at numbers.now tiles.now) grouped.items) }
{
    let mut grouped = Vec::with_capacity(alloc, tiles.len())?;
    for tile in tiles {
        let RegionTile {
            plane,
            area,
            kind,
            region,
        } = *tile;
        grouped.push(RegionTile {
            plane,
            area,
            kind,
            region: numbers[region],
        })?;
    }
    Ok(grouped)
}
