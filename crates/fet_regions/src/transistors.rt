//! The transistors of regions.
ghost use Rattle.std.specs.Prelude.{◌≡◌, ◌<◌, pos, ◌<ℤ◌, All, length, map, IfOk, slice_index};
ghost use Rattle.std.specs.BTreeMap.{get};
ghost use Rattle.geo_core.specs.Areas.{IsNear};
ghost use Rattle.geo_core.specs.Covering.{IsProper};
ghost use Rattle.finite_sets.specs.Lists.{Lists};
ghost use Rattle.tech_model.specs.Rules.{KeepsRules};
ghost use Rattle.tech_model.specs.Types.{connects};
ghost use Rattle.tech_model.specs.WellFormed.{IsWellFormed};
ghost use Rattle.flood_nodes.specs.SoundTiles.{IsSoundTile};
ghost use Rattle.flood_nodes.specs.TileShares.{IsTileContact};
ghost use Rattle.fet_regions.specs.steps.Roles.{channel_in, terminal_in};
ghost use Rattle.layout_model.specs.Layouts.{Layout as OneLayout};
ghost use Rattle.layout_model.specs.LayerTypes.{HasTypesOf};
ghost use Rattle.layout_model.specs.RegionTiles.{AreRegions, AreLayoutTiles, IsInRegion};
ghost use Rattle.layout_model.specs.Transistors.{AreTransistors};
ghost use Rattle.fet_regions.specs.Lengths.{AreByRegion, key_cmp};
ghost use Rattle.fet_regions.specs.Transistors.{transistor_of, IsFoundAt, AreFoundAt, AreFets};

use crate::channels::label_alike;
use crate::lengths::{Lengths, terminal_lengths, terminals_of};
use crate::lowest::lowest_tiles;
use crate::roles::Roles;
use crate::sizes::{Sizes, sizes_of};
use flood_nodes::Regions;
use geo_core::Square;
use layout_model::RegionTile;
use names_lists::List;
use partition::Labelling;
use rect_contacts::Contact;
use std::alloc::{AllocError, Global};
use tech_model::{RawTech, Tech, TypeId};

/// A transistor: a maximal edge-connected set of squares of one channel type on its plane.
#[derive(Debug, Drop)]
pub struct Fet {
    /// The type of its channel.
    pub kind: TypeId,
    /// Its first square, by y and then by x.
    pub point: Square,
    /// How many squares it has.
    pub area: i128,
    /// How many edges lead out of it, in lambda.
    pub perimeter: i128,
    /// The region of its channel.
    pub gate: usize,
    /// The regions beside it that are terminals, in their order, each with the number of edges that lead to it.
    pub terminals: List<(usize, i128)>,
}

/// The transistor whose first square is the corner of the tile at this place.
fn fet_at(
    alloc: Global,
    tiles: &[RegionTile],
    labels: &[usize],
    sizes: &Sizes,
    lengths: &Lengths,
    place: usize,
) -> Result<Fet, AllocError>
    requires within { place < length tiles.now }
    requires labelled { place < length labels.now }
    requires areas { slice_index labels.now place < length sizes.now.areas.items }
    requires perimeters { slice_index labels.now place < length sizes.now.perimeters.items }
    ensures { IfOk result (λ fet. IsFoundAt tiles.now labels.now sizes.now (get key_cmp lengths.now) place fet) }
{
    let tile = tiles[place];
    let label = labels[place];
    let terminals = terminals_of(alloc, lengths, label)?;
    Ok(Fet {
        kind: tile.kind,
        point: tile.area.corner(),
        area: sizes.areas[label],
        perimeter: sizes.perimeters[label],
        gate: tile.region,
        terminals: List::of(terminals),
    })
}

/// The transistors whose first squares are the corners of these tiles.
fn fets_at(
    alloc: Global,
    tiles: &[RegionTile],
    labels: &[usize],
    sizes: &Sizes,
    lengths: &Lengths,
    lowest: &[usize],
) -> Result<Vec<Fet>, AllocError>
    requires within { All (λ place. place < length tiles.now) lowest.now }
    requires long { length labels.now ≡ length tiles.now }
    requires areas { All (λ label. label < length sizes.now.areas.items) labels.now }
    requires perimeters { All (λ label. label < length sizes.now.perimeters.items) labels.now }
    ensures { IfOk result (λ found. AreFoundAt tiles.now labels.now sizes.now (get key_cmp lengths.now) lowest.now found.items) }
{
    let mut found = Vec::with_capacity(alloc, lowest.len())?;
    for place in lowest {
        found.push(fet_at(alloc, tiles, labels, sizes, lengths, *place)?)?;
    }
    Ok(found)
}

/// The transistors whose channels have these labels.
fn labelled_fets(
    alloc: Global,
    roles: &Roles,
    tiles: &[RegionTile],
    contacts: &[Contact],
    labels: &[usize],
    count: usize,
) -> Result<Vec<Fet>, AllocError>
    requires near { All (λ tile. IsProper tile.area × IsNear tile.area) tiles.now }
    requires within { All (λ contact. (contact.first < length tiles.now) × (contact.second < length tiles.now)) contacts.now }
    requires some { All (λ contact. pos 0 <ℤ contact.length) contacts.now }
    requires long { length labels.now ≡ length tiles.now }
    requires below { All (λ label. label < count) labels.now }
    ensures { IfOk result (λ found. AreFets (channel_in roles.now) (terminal_in roles.now) tiles.now contacts.now labels.now count found.items) }
{
    let sizes = sizes_of(alloc, tiles, contacts, labels, count)?;
    let lengths = terminal_lengths(alloc, roles, tiles, labels, contacts)?;
    let lowest = lowest_tiles(alloc, tiles, labels, count, roles)?;
    let found = fets_at(alloc, tiles, labels, &sizes, &lengths, lowest.as_slice())?;
    Ok(found)
}

/// The transistors of tiles that share these edges.
fn fets_of(
    alloc: Global,
    raw: &RawTech,
    tiles: &[RegionTile],
    contacts: &[Contact],
    count: usize,
) -> Result<Vec<Fet>, AllocError>
    requires well_formed { IsWellFormed raw.now }
    requires rules { KeepsRules raw.now }
    requires sound { All (IsSoundTile count) tiles.now }
    requires contacts { Lists (IsTileContact tiles.now) contacts.now }
    ensures transistors { IfOk result (λ found. (layout : OneLayout) → AreLayoutTiles layout tiles.now → HasTypesOf raw.now layout
        → AreTransistors raw.now layout (IsInRegion tiles.now) (map (transistor_of raw.now) found.items)) }
    ensures by_region { IfOk result (λ found. All (λ fet. AreByRegion fet.terminals) found.items) }
{
    let roles = Roles::of(alloc, raw)?;
    let Labelling { labels, count } = label_alike(alloc, tiles, contacts)?;
    let found = labelled_fets(alloc, &roles, tiles, contacts, labels.as_slice(), count)?;
    Ok(found)
}

/// The transistors of regions, by their first squares: by plane, then y, then x. Each node is named by its region.
///
/// A transistor is a maximal edge-connected set of squares of one channel type on its plane. Its terminals are the regions of
/// the squares beside it whose type the technology lists as a terminal for that type, each once, with the number of edges that
/// lead there. Want of memory alone refuses. It takes time for a sort of the tiles of channels, a step for each tile and for
/// each edge that two share, and a search among the terminals for each edge that leads to one.
pub fn fets(alloc: Global, tech: &Tech, regions: &Regions) -> Result<Vec<Fet>, AllocError>
    ensures transistors { IfOk result (λ found. (layout : OneLayout) → AreRegions (connects tech.now) layout regions.now.tiles regions.now.count
        → HasTypesOf tech.now layout
        → AreTransistors tech.now layout (IsInRegion regions.now.tiles) (map (transistor_of tech.now) found.items)) }
    ensures by_region { IfOk result (λ found. All (λ fet. AreByRegion fet.terminals) found.items) }
{
    let tiles = regions.tiles.items();
    fets_of(alloc, tech.raw(), tiles, regions.contacts(), regions.count)
}
