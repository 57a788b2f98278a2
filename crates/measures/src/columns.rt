//! The measures of all regions in one class.
ghost use Rattle.std.specs.Prelude.{◌≡◌, ◌<◌, ◌<ℤ◌, ◌++◌, pos, All, length, IfOk, OnOk};
ghost use Rattle.geo_core.specs.Areas.{IsNear};
ghost use Rattle.geo_core.specs.Covering.{IsProper};
ghost use Rattle.geo_core.specs.FiniteSets.Lists.{Lists};
ghost use Rattle.layout_model.specs.Technologies.{class_of};
ghost use Rattle.flood_nodes.specs.SoundTiles.{IsSoundTile};
ghost use Rattle.flood_nodes.specs.TileShares.{IsTileContact};
ghost use Rattle.measures.specs.steps.Sizes.{area_amounts, perimeter_amounts, shared_amounts};
ghost use Rattle.measures.specs.steps.Columns.{IsColumn};

use crate::sizes::{area_in, perimeter_in, shared_in};
use flood_nodes::rect_contacts::Contact;
use key_sums::{Amount, sums_by_key};
use layout_model::RegionTile;
use std::alloc::{AllocError, Global};
use tech_model::ClassRec;

/// The area and the perimeter of each region in a class.
#[derive(Drop)]
pub struct Column {
    pub areas: Vec<i128>,
    pub perimeters: Vec<i128>,
}

/// The areas of tiles.
fn area_amounts(
    alloc: Global,
    tiles: &[RegionTile],
    class: &ClassRec,
) -> Result<Vec<Amount>, AllocError>
    requires { All (λ tile. IsProper tile.area × IsNear tile.area) tiles.now }
    ensures { IfOk result (λ amounts. amounts.items ≡ area_amounts (class_of class.now).contains tiles.now) }
{
    let mut amounts = Vec::with_capacity(alloc, tiles.len())?;
    for tile in tiles {
        amounts.push(Amount {
            key: tile.region,
            value: area_in(class, tile),
        })?;
    }
    Ok(amounts)
}

/// The perimeters of tiles.
fn perimeter_amounts(
    alloc: Global,
    tiles: &[RegionTile],
    class: &ClassRec,
) -> Result<Vec<Amount>, AllocError>
    requires { All (λ tile. IsProper tile.area × IsNear tile.area) tiles.now }
    ensures { IfOk result (λ amounts. amounts.items ≡ perimeter_amounts (class_of class.now).contains tiles.now) }
{
    let mut amounts = Vec::with_capacity(alloc, tiles.len())?;
    for tile in tiles {
        amounts.push(Amount {
            key: tile.region,
            value: perimeter_in(class, tile),
        })?;
    }
    Ok(amounts)
}

/// Adds what contacts take off the perimeters.
fn push_shared(
    amounts: &mut Vec<Amount>,
    tiles: &[RegionTile],
    contacts: &[Contact],
    class: &ClassRec,
) -> Result<(), AllocError>
    requires within { All (λ contact. (contact.first < length tiles.now) × (contact.second < length tiles.now)) contacts.now }
    requires some { All (λ contact. pos 0 <ℤ contact.length) contacts.now }
    ensures { OnOk result (amounts.new.items ≡ amounts.old.items ++ shared_amounts (class_of class.now).contains tiles.now contacts.now) }
{
    for contact in contacts {
        let first = tiles[contact.first];
        let second = tiles[contact.second];
        let value = shared_in(class, &first, &second, contact.length);
        amounts.push(Amount {
            key: first.region,
            value,
        })?;
        amounts.push(Amount {
            key: second.region,
            value,
        })?;
    }
    Ok(())
}

/// The measures in a class.
pub fn measured_in(
    alloc: Global,
    tiles: &[RegionTile],
    contacts: &[Contact],
    count: usize,
    class: &ClassRec,
) -> Result<Column, AllocError>
    requires sound { All (IsSoundTile count) tiles.now }
    requires contacts { Lists (IsTileContact tiles.now) contacts.now }
    ensures { IfOk result (λ column. IsColumn (class_of class.now).contains tiles.now contacts.now count column) }
{
    let areas = area_amounts(alloc, tiles, class)?;
    let mut perimeters = perimeter_amounts(alloc, tiles, class)?;
    push_shared(&mut perimeters, tiles, contacts, class)?;
    Ok(Column {
        areas: sums_by_key(alloc, count, areas.as_slice())?,
        perimeters: sums_by_key(alloc, count, perimeters.as_slice())?,
    })
}
