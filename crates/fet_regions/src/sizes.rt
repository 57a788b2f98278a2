//! Areas and perimeters of the tiles of each label.
ghost use Rattle.std.specs.Prelude.{◌≡◌, ◌<◌, ◌++◌, pos, ◌<ℤ◌, All, length, IfOk, OnOk};
ghost use Rattle.geo_core.specs.Areas.{IsNear};
ghost use Rattle.geo_core.specs.Covering.{IsProper};
ghost use Rattle.fet_regions.specs.steps.Sizes.{area_amounts, perimeter_amounts, taken_off, shared_amounts, AreSizes};

use key_sums::{Amount, sums_by_key};
use layout_model::RegionTile;
use measures::{area_of, perimeter_of};
use rect_contacts::Contact;
use std::alloc::{AllocError, Global};

/// The area and the perimeter of each label.
#[derive(Drop)]
pub struct Sizes {
    pub areas: Vec<i128>,
    pub perimeters: Vec<i128>,
}

/// The areas of tiles.
fn area_amounts(
    alloc: Global,
    tiles: &[RegionTile],
    labels: &[usize],
) -> Result<Vec<Amount>, AllocError>
    requires near { All (λ tile. IsProper tile.area × IsNear tile.area) tiles.now }
    requires long { length labels.now ≡ length tiles.now }
    ensures { IfOk result (λ amounts. amounts.items ≡ area_amounts tiles.now labels.now) }
{
    let mut amounts = Vec::with_capacity(alloc, tiles.len())?;
    for (place, tile) in tiles.iter().enumerate() {
        amounts.push(Amount {
            key: labels[place],
            value: area_of(&tile.area),
        })?;
    }
    Ok(amounts)
}

/// The perimeters of tiles.
fn perimeter_amounts(
    alloc: Global,
    tiles: &[RegionTile],
    labels: &[usize],
) -> Result<Vec<Amount>, AllocError>
    requires near { All (λ tile. IsProper tile.area × IsNear tile.area) tiles.now }
    requires long { length labels.now ≡ length tiles.now }
    ensures { IfOk result (λ amounts. amounts.items ≡ perimeter_amounts tiles.now labels.now) }
{
    let mut amounts = Vec::with_capacity(alloc, tiles.len())?;
    for (place, tile) in tiles.iter().enumerate() {
        amounts.push(Amount {
            key: labels[place],
            value: perimeter_of(&tile.area),
        })?;
    }
    Ok(amounts)
}

/// Takes the length of an edge off two sums.
fn push_both(
    amounts: &mut Vec<Amount>,
    first: usize,
    second: usize,
    edge: i64,
) -> Result<(), AllocError>
    requires { pos 0 <ℤ edge }
    ensures { OnOk result (amounts.new.items ≡ amounts.old.items ++ taken_off first second edge) }
{
    let value = -edge;
    amounts.push(Amount { key: first, value })?;
    amounts.push(Amount { key: second, value })?;
    Ok(())
}

/// Adds what contacts between tiles of one type take off the perimeters.
fn push_shared(
    amounts: &mut Vec<Amount>,
    tiles: &[RegionTile],
    labels: &[usize],
    contacts: &[Contact],
) -> Result<(), AllocError>
    requires long { length labels.now ≡ length tiles.now }
    requires within { All (λ contact. (contact.first < length tiles.now) × (contact.second < length tiles.now)) contacts.now }
    requires some { All (λ contact. pos 0 <ℤ contact.length) contacts.now }
    ensures { OnOk result (amounts.new.items ≡ amounts.old.items ++ shared_amounts tiles.now labels.now contacts.now) }
{
    for contact in contacts {
        let Contact {
            first,
            second,
            length,
        } = *contact;
        if tiles[first].kind == tiles[second].kind {
            push_both(amounts, labels[first], labels[second], length)?;
        }
    }
    Ok(())
}

/// The areas and perimeters of the tiles of each label, where the edges that two tiles of one type share are inside.
pub fn sizes_of(
    alloc: Global,
    tiles: &[RegionTile],
    contacts: &[Contact],
    labels: &[usize],
    count: usize,
) -> Result<Sizes, AllocError>
    requires near { All (λ tile. IsProper tile.area × IsNear tile.area) tiles.now }
    requires within { All (λ contact. (contact.first < length tiles.now) × (contact.second < length tiles.now)) contacts.now }
    requires some { All (λ contact. pos 0 <ℤ contact.length) contacts.now }
    requires long { length labels.now ≡ length tiles.now }
    requires below { All (λ label. label < count) labels.now }
    ensures { IfOk result (λ sizes. AreSizes tiles.now contacts.now labels.now count sizes) }
{
    let areas = area_amounts(alloc, tiles, labels)?;
    let mut perimeters = perimeter_amounts(alloc, tiles, labels)?;
    push_shared(&mut perimeters, tiles, labels, contacts)?;
    Ok(Sizes {
        areas: sums_by_key(alloc, count, areas.as_slice())?,
        perimeters: sums_by_key(alloc, count, perimeters.as_slice())?,
    })
}
