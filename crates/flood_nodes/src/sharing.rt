//! The edges that tiles share: each plane is swept once.
ghost use Rattle.std.specs.Prelude.{◌≡◌, ◌+◌, ◌<◌, ◌≤◌, ◌^◌, ◌++◌, map, length, take, drop, IfOk, OnOk, All, AllPairs};
ghost use Rattle.geo_core.specs.FiniteSets.Lists.{Lists};
ghost use Rattle.geo_core.specs.Areas.{AreDisjoint, IsNear};
ghost use Rattle.geo_core.specs.Covering.{IsProper};
ghost use Rattle.flood_nodes.specs.steps.Runs.{shifted, areas_of, AddsContacts};
ghost use Rattle.flood_nodes.specs.Stacking.{AreSpread};
ghost use Rattle.flood_nodes.specs.TileShares.{IsTileContact};

use geo_core::Rect;
use layout_model::RegionTile;
use rect_contacts::{Contact, touching};
use std::alloc::{AllocError, Global};

/// The rectangles of tiles.
fn areas_of(alloc: Global, tiles: &[RegionTile]) -> Result<Vec<Rect>, AllocError>
    ensures { IfOk result (λ areas. areas.items ≡ areas_of tiles.now) }
{
    tiles.iter().map(|tile| tile.area).collect(alloc)
}

/// Adds contacts of tiles that stand in a list from a place on.
fn push_contacts(
    contacts: &mut Vec<Contact>,
    found: &[Contact],
    start: usize,
) -> Result<(), AllocError>
    requires { All (λ contact. (contact.first + start < 2 ^ 64) × (contact.second + start < 2 ^ 64)) found.now }
    ensures { OnOk result (contacts.new.items ≡ contacts.old.items ++ map (shifted start) found.now) }
{
    for contact in found {
        contacts.push(Contact {
            first: contact.first + start,
            second: contact.second + start,
            length: contact.length,
        })?;
    }
    Ok(())
}

/// Adds the contacts of the tiles of one plane, which stand in a list from a place on.
fn add_contacts(
    alloc: Global,
    contacts: &mut Vec<Contact>,
    run: &[RegionTile],
    start: usize,
) -> Result<(), AllocError>
    requires proper { All (λ tile. IsProper tile.area) run.now }
    requires near { All (λ tile. IsNear tile.area) run.now }
    requires apart { AllPairs (λ a b. AreDisjoint a.area b.area) run.now }
    requires fits { length run.now + start < 2 ^ 64 }
    ensures { OnOk result (AddsContacts run.now start contacts.old.items contacts.new.items) }
{
    let areas = areas_of(alloc, run)?;
    let found = touching(alloc, areas.as_slice())?;
    push_contacts(contacts, found.as_slice(), start)?;
    Ok(())
}

/// How many tiles lie on the planes up to this one.
fn tiles_up_to(tiles: &[RegionTile], plane: u8) -> usize
    requires by_plane { AllPairs (λ a b. a.plane ≤ b.plane) tiles.now }
    ensures within { result ≤ length tiles.now }
    ensures below { All (λ tile. tile.plane ≤ plane) (take result tiles.now) }
    ensures above { All (λ tile. plane < tile.plane) (drop result tiles.now) }
{
    tiles.partition_point(|tile| tile.plane <= plane)
}

/// The contacts of tiles that are given plane by plane.
pub fn contacts_of(
    alloc: Global,
    tiles: &[RegionTile],
    planes: u8,
) -> Result<Vec<Contact>, AllocError>
    requires spread { AreSpread tiles.now }
    requires by_plane { AllPairs (λ a b. a.plane ≤ b.plane) tiles.now }
    requires planes { All (λ tile. tile.plane < planes) tiles.now }
    ensures { IfOk result (λ contacts. Lists (IsTileContact tiles.now) contacts.items) }
{
    let mut contacts = Vec::new(alloc);
    let mut start = 0;
    for plane in 0..planes {
        let end = tiles_up_to(tiles, plane);
        add_contacts(alloc, &mut contacts, &tiles[start..end], start)?;
        start = end;
    }
    Ok(contacts)
}
