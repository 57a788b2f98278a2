//! Which tiles are linked: those that share an edge on one plane, or a square on two, and whose types connect.
ghost use Rattle.std.specs.Prelude.{◌≡◌, ◌<◌, ◌++◌, map, filter, length, IfOk, OnOk, All, IsTrue};
ghost use Rattle.geo_core.specs.FiniteSets.Lists.{Lists};
ghost use Rattle.tech_model.specs.Types.{connects, is_type, layer_of};
ghost use Rattle.tech_model.specs.WellFormed.{IsWellFormed};
ghost use Rattle.partition.specs.Divides.{IsPair};
ghost use Rattle.flood_nodes.specs.TileShares.{IsTileContact};
ghost use Rattle.flood_nodes.specs.steps.LinkedTiles.{JoinTiles};
ghost use Rattle.flood_nodes.specs.Stacking.{AreTyped, AreSpread, has_other_images, reaches, IsCrossing, IsReaching, areas_at, placed_in, pairs_beside, connected};
ghost use Rattle.flood_nodes.specs.Stacking.{AddsStacked, AddsStackedAbove, AddsAllStacked};

use geo_core::Rect;
use layout_model::RegionTile;
use rect_contacts::{Contact, overlaps};
use std::alloc::{AllocError, Global};
use tech_model::{LayerId, Tech, TypeId};

/// Two tiles, by their places in the list.
pub type Link = (usize, usize);

/// The layer of a type.
fn layer_of(tech: &Tech, kind: TypeId) -> LayerId
    requires { IsTrue (is_type tech.now kind.0) }
    ensures layer { result.0 ≡ layer_of tech.now kind.0 }
    ensures within { result.0 < length tech.now.layers }
{
    tech.raw().types.items()[usize::from(kind.0) - 1].layer
}

/// Whether the layer of a type has images on several planes.
fn has_other_images(tech: &Tech, kind: TypeId) -> bool
    requires { IsTrue (is_type tech.now kind.0) }
    ensures { result ≡ has_other_images tech.now kind.0 }
{
    let layer = layer_of(tech, kind);
    tech.raw().layers.items()[usize::from(layer.0)]
        .images
        .items()
        .len()
        > 1
}

/// Whether the layer of a type has an image on the plane.
fn reaches(tech: &Tech, kind: TypeId, plane: u8) -> bool
    requires { IsTrue (is_type tech.now kind.0) }
    ensures { result ≡ reaches tech.now plane kind.0 }
{
    let layer = layer_of(tech, kind);
    tech.image(layer, plane).is_some()
}

/// The places of the tiles whose layer has images on several planes.
fn crossings(alloc: Global, tech: &Tech, tiles: &[RegionTile]) -> Result<Vec<usize>, AllocError>
    requires { AreTyped tech.now tiles.now }
    ensures { IfOk result (λ places. Lists (IsCrossing tech.now tiles.now) places.items) }
{
    let mut places = Vec::new(alloc);
    for (place, tile) in tiles.iter().enumerate() {
        if has_other_images(tech, tile.kind) {
            places.push(place)?;
        }
    }
    Ok(places)
}

/// Of tiles of these places, those of a plane whose layer has an image on another.
fn reaching(
    alloc: Global,
    tech: &Tech,
    tiles: &[RegionTile],
    crossings: &[usize],
    plane: u8,
    other: u8,
) -> Result<Vec<usize>, AllocError>
    requires typed { AreTyped tech.now tiles.now }
    requires within { All (λ place. place < length tiles.now) crossings.now }
    requires crossings { Lists (IsCrossing tech.now tiles.now) crossings.now }
    ensures { IfOk result (λ places. Lists (IsReaching tech.now tiles.now plane other) places.items) }
{
    let mut places = Vec::new(alloc);
    for place in crossings {
        let tile = tiles[*place];
        if tile.plane == plane && reaches(tech, tile.kind, other) {
            places.push(*place)?;
        }
    }
    Ok(places)
}

/// The rectangles of the tiles at these places.
fn areas_at(alloc: Global, tiles: &[RegionTile], places: &[usize]) -> Result<Vec<Rect>, AllocError>
    requires { All (λ place. place < length tiles.now) places.now }
    ensures { IfOk result (λ areas. areas.items ≡ areas_at tiles.now places.now) }
{
    let mut areas = Vec::new(alloc);
    for place in places {
        areas.push(tiles[*place].area)?;
    }
    Ok(areas)
}

/// Adds pairs of places in two lists, as pairs of what stands there.
fn push_placed(
    links: &mut Vec<Link>,
    lows: &[usize],
    highs: &[usize],
    pairs: &[(usize, usize)],
) -> Result<(), AllocError>
    requires { All (λ pair. (pair.0 < length lows.now) × (pair.1 < length highs.now)) pairs.now }
    ensures { OnOk result (links.new.items ≡ links.old.items ++ placed_in lows.now highs.now pairs.now) }
{
    for &(low, high) in pairs {
        links.push((lows[low], highs[high]))?;
    }
    Ok(())
}

/// Adds the tiles of a plane and of one above it that have a square in common, if a contact may link them.
fn add_stacked(
    alloc: Global,
    links: &mut Vec<Link>,
    tech: &Tech,
    tiles: &[RegionTile],
    crossings: &[usize],
    low: u8,
    high: u8,
) -> Result<(), AllocError>
    requires well_formed { IsWellFormed tech.now }
    requires typed { AreTyped tech.now tiles.now }
    requires spread { AreSpread tiles.now }
    requires crossings { Lists (IsCrossing tech.now tiles.now) crossings.now }
    requires above { low < high }
    ensures { OnOk result (AddsStacked tech.now tiles.now low high links.old.items links.new.items) }
{
    let lows = reaching(alloc, tech, tiles, crossings, low, high)?;
    let highs = reaching(alloc, tech, tiles, crossings, high, low)?;
    let low_areas = areas_at(alloc, tiles, lows.as_slice())?;
    let high_areas = areas_at(alloc, tiles, highs.as_slice())?;
    let pairs = overlaps(alloc, low_areas.as_slice(), high_areas.as_slice())?;
    push_placed(links, lows.as_slice(), highs.as_slice(), pairs.as_slice())?;
    Ok(())
}

/// Adds those of a plane and of all above it.
fn add_stacked_above(
    alloc: Global,
    links: &mut Vec<Link>,
    tech: &Tech,
    tiles: &[RegionTile],
    crossings: &[usize],
    low: u8,
    planes: u8,
) -> Result<(), AllocError>
    requires well_formed { IsWellFormed tech.now }
    requires typed { AreTyped tech.now tiles.now }
    requires spread { AreSpread tiles.now }
    requires crossings { Lists (IsCrossing tech.now tiles.now) crossings.now }
    requires above { low < planes }
    ensures { OnOk result (AddsStackedAbove tech.now tiles.now low planes links.old.items links.new.items) }
{
    for high in low + 1..planes {
        add_stacked(alloc, links, tech, tiles, crossings, low, high)?;
    }
    Ok(())
}

/// Adds those of each plane and of all above it.
fn add_all_stacked(
    alloc: Global,
    links: &mut Vec<Link>,
    tech: &Tech,
    tiles: &[RegionTile],
) -> Result<(), AllocError>
    requires well_formed { IsWellFormed tech.now }
    requires typed { AreTyped tech.now tiles.now }
    requires spread { AreSpread tiles.now }
    ensures { OnOk result (AddsAllStacked tech.now tiles.now (length tech.now.planes) links.old.items links.new.items) }
{
    let crossings = crossings(alloc, tech, tiles)?;
    let planes = tech.raw().planes.items().len() as u8;
    for low in 0..planes {
        add_stacked_above(alloc, links, tech, tiles, crossings.as_slice(), low, planes)?;
    }
    Ok(())
}

/// The pairs of tiles that share an edge.
fn beside(alloc: Global, contacts: &[Contact]) -> Result<Vec<Link>, AllocError>
    ensures { IfOk result (λ links. links.items ≡ pairs_beside contacts.now) }
{
    contacts
        .iter()
        .map(|contact| (contact.first, contact.second))
        .collect(alloc)
}

/// The pairs of tiles whose types connect.
fn connected(
    alloc: Global,
    tech: &Tech,
    tiles: &[RegionTile],
    pairs: &[Link],
) -> Result<Vec<Link>, AllocError>
    requires { All (λ pair. (pair.0 < length tiles.now) × (pair.1 < length tiles.now)) pairs.now }
    ensures { IfOk result (λ links. links.items ≡ connected tech.now tiles.now pairs.now) }
{
    let mut links = Vec::new(alloc);
    for &(first, second) in pairs {
        if tech.connects(tiles[first].kind, tiles[second].kind) {
            links.push((first, second))?;
        }
    }
    Ok(links)
}

/// Links that join the tiles: each two linked tiles have one.
pub fn links(
    alloc: Global,
    tech: &Tech,
    tiles: &[RegionTile],
    contacts: &[Contact],
) -> Result<Vec<Link>, AllocError>
    requires well_formed { IsWellFormed tech.now }
    requires typed { AreTyped tech.now tiles.now }
    requires spread { AreSpread tiles.now }
    requires contacts { Lists (IsTileContact tiles.now) contacts.now }
    ensures { IfOk result (λ links. JoinTiles (connects tech.now) tiles.now (IsPair links.items)) }
{
    let mut pairs = beside(alloc, contacts)?;
    add_all_stacked(alloc, &mut pairs, tech, tiles)?;
    let links = connected(alloc, tech, tiles, pairs.as_slice())?;
    Ok(links)
}
