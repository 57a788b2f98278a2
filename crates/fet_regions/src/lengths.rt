//! The lengths of terminals: how many edges lead from the tiles of a label to each region that is a terminal beside them.
ghost use Rattle.std.specs.Prelude.{◌≡◌, ◌<◌, ◌+◌, ◌++◌, ℕ, pos, All, length, map, unwrap_or, IfOk, OnOk};
ghost use Rattle.std.specs.BTreeMap.{get, IsOrdered};
ghost use Rattle.std.specs.BTreeMap.Range.{entries_between};
ghost use Rattle.std.specs.declared.ops.Bound.TheVariants.{Included, Excluded};
ghost use Rattle.fet_regions.specs.Lengths.{parts_beside, parts_of, key_cmp, summed, AreTerminals};
ghost use Rattle.fet_regions.specs.steps.Roles.{terminal_in};

use crate::roles::Roles;
use layout_model::RegionTile;
use rect_contacts::Contact;
use std::alloc::{AllocError, Global};
use std::collections::BTreeMap;

/// What one contact adds to the length from a label to a region.
#[derive(Clone, Copy, Debug, PartialEq, Eq)]
pub struct Part {
    pub label: usize,
    pub region: usize,
    pub length: i64,
}

/// Lengths by label and region.
pub type Lengths = BTreeMap<(usize, usize), i128>;

/// Adds the length of a shared edge, if the second tile is of a type that is a terminal beside the first.
fn push_part(
    parts: &mut Vec<Part>,
    roles: &Roles,
    tiles: &[RegionTile],
    labels: &[usize],
    channel: usize,
    beside: usize,
    edge: i64,
) -> Result<(), AllocError>
    requires long { length labels.now ≡ length tiles.now }
    requires channel { channel < length tiles.now }
    requires beside { beside < length tiles.now }
    ensures { OnOk result (parts.new.items ≡ parts.old.items ++ parts_beside (terminal_in roles.now) tiles.now labels.now channel beside edge) }
{
    let other = tiles[beside];
    if roles.is_terminal(tiles[channel].kind, other.kind) {
        parts.push(Part {
            label: labels[channel],
            region: other.region,
            length: edge,
        })?;
    }
    Ok(())
}

/// What the contacts add to the lengths of terminals.
fn parts_of(
    alloc: Global,
    roles: &Roles,
    tiles: &[RegionTile],
    labels: &[usize],
    contacts: &[Contact],
) -> Result<Vec<Part>, AllocError>
    requires long { length labels.now ≡ length tiles.now }
    requires within { All (λ contact. (contact.first < length tiles.now) × (contact.second < length tiles.now)) contacts.now }
    ensures { IfOk result (λ parts. parts.items ≡ parts_of (terminal_in roles.now) tiles.now labels.now contacts.now) }
{
    let mut parts = Vec::new(alloc);
    for contact in contacts {
        let Contact {
            first,
            second,
            length,
        } = *contact;
        push_part(&mut parts, roles, tiles, labels, first, second, length)?;
        push_part(&mut parts, roles, tiles, labels, second, first, length)?;
    }
    Ok(parts)
}

/// The length to a key, and 0 where it has none.
fn length_at(lengths: &Lengths, key: (usize, usize)) -> i128
    ensures { result ≡ unwrap_or (get key_cmp lengths.now key) (pos 0) }
{
    match lengths.get(&key) {
        Some(length) => *length,
        None => 0,
    }
}

/// The sums of the parts of each length.
fn lengths_of(alloc: Global, parts: &[Part]) -> Result<Lengths, AllocError>
    ensures { IfOk result (λ lengths. (key : ℕ × ℕ) → get key_cmp lengths key ≡ summed parts.now key) }
{
    let mut lengths = BTreeMap::new(alloc);
    for part in parts {
        let key = (part.label, part.region);
        let before = length_at(&lengths, key);
        lengths.insert(key, before + i128::from(part.length))?;
    }
    Ok(lengths)
}

/// The lengths of terminals that the contacts give: from each label of a channel's tiles to each region that is a terminal
/// beside them.
pub fn terminal_lengths(
    alloc: Global,
    roles: &Roles,
    tiles: &[RegionTile],
    labels: &[usize],
    contacts: &[Contact],
) -> Result<Lengths, AllocError>
    requires long { length labels.now ≡ length tiles.now }
    requires within { All (λ contact. (contact.first < length tiles.now) × (contact.second < length tiles.now)) contacts.now }
    ensures { IfOk result (λ lengths. (key : ℕ × ℕ) → get key_cmp lengths key
        ≡ summed (parts_of (terminal_in roles.now) tiles.now labels.now contacts.now) key) }
{
    let parts = parts_of(alloc, roles, tiles, labels, contacts)?;
    lengths_of(alloc, parts.as_slice())
}

/// The entries of a label in a map of lengths, each as a region and a length.
fn entries_of(
    alloc: Global,
    lengths: &Lengths,
    label: usize,
) -> Result<Vec<(usize, i128)>, AllocError>
    requires { label < usize.MAX }
    ensures listed { IfOk result (λ listed. listed.items ≡ map (λ entry. (entry.0.1, entry.1))
        (entries_between key_cmp (Included (label, 0)) (Excluded (label + 1, 0)) lengths.now.entries)) }
    ensures ordered { IsOrdered key_cmp lengths.now }
{
    lengths
        .range((label, 0)..(label + 1, 0))
        .map(|(key, length)| (key.1, *length))
        .collect(alloc)
}

/// The regions that a label has a length to, each with its length, in their order.
pub fn terminals_of(
    alloc: Global,
    lengths: &Lengths,
    label: usize,
) -> Result<Vec<(usize, i128)>, AllocError>
    requires { label < usize.MAX }
    ensures { IfOk result (λ terminals. AreTerminals (get key_cmp lengths.now) label terminals.items) }
{
    entries_of(alloc, lengths, label)
}
