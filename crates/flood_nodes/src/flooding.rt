//! The regions of a layout: classes of tiles that chains of links join.
ghost use Rattle.std.specs.Prelude.{◌≡◌, ◌≤◌, ℕ, List, length, IfOk, All, AllPairs};
ghost use Rattle.geo_core.specs.Areas.{IsNear};
ghost use Rattle.geo_core.specs.Covering.{IsProper};
ghost use Rattle.tech_model.specs.Types.{connects};
ghost use Rattle.layout_model.specs.Layouts.{Layout};
ghost use Rattle.layout_model.specs.LayerTypes.{AreTypesOf, seen_in};
ghost use Rattle.layout_model.specs.RegionTiles.{LieApart, AreLayoutTiles, AreRegions};
ghost use Rattle.flood_nodes.specs.Renumbered.{AreRenumbered};
ghost use Rattle.flood_nodes.specs.Stacking.{AreTyped};

use crate::found::Regions;
use crate::gathering::gather;
use crate::linking::links;
use crate::sharing::contacts_of;
use geo_core::Rect;
use layout_model::RegionTile;
use names_lists::List;
use partition::{Labelling, classes};
use std::alloc::{AllocError, Global};
use tech_model::{Layers, Tech};

/// The tiles with these numbers.
fn renumbered(
    alloc: Global,
    tiles: &[RegionTile],
    labels: &[usize],
) -> Result<Vec<RegionTile>, AllocError>
    requires { length labels.now ≡ length tiles.now }
    ensures { IfOk result (λ numbered. AreRenumbered tiles.now labels.now numbered.items) }
{
    let mut numbered = Vec::with_capacity(alloc, tiles.len())?;
    for (place, tile) in tiles.iter().enumerate() {
        let RegionTile {
            plane,
            area,
            kind,
            region: _,
        } = *tile;
        numbered.push(RegionTile {
            plane,
            area,
            kind,
            region: labels[place],
        })?;
    }
    Ok(numbered)
}

/// The regions of tiles that are given plane by plane: each tile keeps its place in the list and gets the number of its
/// region. Two tiles have one number exactly where a chain of links joins them, in each layout of which they are the tiles.
///
/// Tiles have a square and bounds in lambda below 2^28 in absolute value, no place lies in two, and the type of each is the
/// technology's and of its plane; the numbers that they come with are not read. Want of memory alone refuses. It takes time
/// for a sort of the tiles of each plane, for each edge that two share, and for each square of contacts that two planes have
/// in common.
pub fn regions_of_tiles(
    alloc: Global,
    tech: &Tech,
    tiles: &[RegionTile],
) -> Result<Regions, AllocError>
    requires proper { All (λ tile. IsProper tile.area) tiles.now }
    requires near { All (λ tile. IsNear tile.area) tiles.now }
    requires apart { AllPairs LieApart tiles.now }
    requires typed { AreTyped tech.now tiles.now }
    requires by_plane { AllPairs (λ a b. a.plane ≤ b.plane) tiles.now }
    ensures same { IfOk result (λ found. (labels : List ℕ) × AreRenumbered tiles.now labels found.tiles) }
    ensures regions { IfOk result (λ found. (layout : Layout) → AreLayoutTiles layout tiles.now
        → AreRegions (connects tech.now) layout found.tiles found.count) }
{
    let planes = tech.raw().planes.items().len() as u8;
    let contacts = contacts_of(alloc, tiles, planes)?;
    let links = links(alloc, tech, tiles, contacts.as_slice())?;
    let Labelling { labels, count } = classes(alloc, tiles.len(), links.as_slice())?;
    let numbered = renumbered(alloc, tiles, labels.as_slice())?;
    Ok(Regions {
        tiles: List::of(numbered),
        count,
        contacts: List::of(contacts),
    })
}

/// The regions of what is seen of layers in an area: two places have one number exactly where a chain of links joins
/// them. Links join edge neighbours of one plane whose types connect, and places of one square on two planes whose
/// types connect.
///
/// The area has a square and bounds below 2^28 in absolute value, and each type of the layers is the technology's and
/// of its plane. Want of memory alone refuses. It takes time for a sort of the tiles of each plane, for each edge that
/// two share, and for each square of contacts that two planes have in common.
pub fn regions<Y: Layers>(
    alloc: Global,
    tech: &Tech,
    layers: &Y,
    area: Rect,
) -> Result<Regions, AllocError>
    requires proper { IsProper area }
    requires near { IsNear area }
    requires types { AreTypesOf tech.now (Y.kind layers.now) }
    ensures { IfOk result (λ found. AreRegions (connects tech.now) (seen_in area (Y.kind layers.now)) found.tiles found.count) }
{
    let tiles = gather(alloc, tech, layers, area)?;
    regions_of_tiles(alloc, tech, tiles.as_slice())
}
