//! Pieces of a plane on whose squares each part has one type.
ghost use Rattle.std.specs.Prelude.{◌≡◌, ◌<◌, ◌==◌, All, AllPairs, find, length, map, IfOk};
ghost use Rattle.geo_core.specs.Areas.{IsNear};
ghost use Rattle.rect_overlays.specs.Stacks.{AreStacks};
ghost use Rattle.offences.specs.PartSets.{AreInPartOrder};
ghost use Rattle.offences.specs.TypedStacks.{kind_of, has_kind, owner_of, StandsFor, StandForAll, StandForTiles, HasMembers};

use crate::part_sets::{PartSum, all_sets, list_part_sets};
use crate::set_tiles::SetTile;
use geo_core::Rect;
use names_lists::List;
use rect_overlays::{Stack, overlay};
use std::alloc::{AllocError, Global};
use tech_model::{RawTech, Tech, TypeId};

/// A part and the type that it has.
#[derive(Clone, Copy, Debug, PartialEq, Eq)]
pub struct PartKind {
    pub part: usize,
    pub kind: TypeId,
}

/// What the parts have at each square of a piece of a plane.
#[derive(Debug, Drop)]
pub struct TypedStack {
    pub area: Rect,
    /// The type whose set all parts have together, if there is one.
    pub flat: Option<TypeId>,
    /// The type of each part that has material there, in the order of parts.
    pub kinds: List<PartKind>,
    /// The first part that has the flat type, where that is a channel's.
    pub owner: Option<PartKind>,
    /// The numbers of the tiles that cover the piece, rising.
    pub members: List<usize>,
}

/// The type of a part with this set, which has one: none is taken for space.
fn kind_of(tech: &Tech, sum: &PartSum, plane: u8) -> PartKind
    ensures { result ≡ kind_of tech.now plane sum.now }
{
    PartKind {
        part: sum.part,
        kind: tech.joined(plane, sum.set).unwrap_or(TypeId(0)),
    }
}

/// The types of parts with these sets. The list has room for them alone, since it is kept for each piece.
fn kinds_of(
    alloc: Global,
    tech: &Tech,
    sums: &[PartSum],
    plane: u8,
) -> Result<Vec<PartKind>, AllocError>
    ensures { IfOk result (λ kinds. kinds.items ≡ map (kind_of tech.now plane) sums.now) }
{
    let mut kinds = Vec::with_capacity(alloc, sums.len())?;
    for sum in sums {
        kinds.push(kind_of(tech, sum, plane))?;
    }
    Ok(kinds)
}

/// The first part that has the type.
fn first_with(kinds: &[PartKind], kind: TypeId) -> Option<PartKind>
    ensures { result ≡ find (has_kind kind.0) kinds.now }
{
    kinds.iter().copied().find(|entry| entry.kind.0 == kind.0)
}

/// The first part that has the flat type, where that is a channel's.
fn owner_of(raw: &RawTech, flat: Option<TypeId>, kinds: &[PartKind]) -> Option<PartKind>
    ensures { result ≡ owner_of raw.now flat kinds.now }
{
    match flat {
        None => None,
        Some(flat) => {
            if raw.is_channel(flat) {
                first_with(kinds, flat)
            } else {
                None
            }
        }
    }
}

/// What the members of a stack make. The list is for what the parts have, and is used again for the next stack.
fn typed_stack_of(
    alloc: Global,
    tech: &Tech,
    tiles: &[SetTile],
    stack: Stack,
    plane: u8,
    sums: &mut Vec<PartSum>,
) -> Result<TypedStack, AllocError>
    requires within { All (λ member. member < length tiles.now) stack.members.items }
    requires ordered { AreInPartOrder tiles.now }
    requires ascending { AllPairs ◌<◌ stack.members.items }
    ensures { IfOk result (StandsFor tech.now plane tiles.now stack) }
{
    let Stack { area, members } = stack;
    list_part_sets(tiles, members.as_slice(), sums)?;
    let flat = tech.joined(plane, all_sets(sums.as_slice()));
    let kinds = kinds_of(alloc, tech, sums.as_slice(), plane)?;
    let owner = owner_of(tech.raw(), flat, kinds.as_slice());
    Ok(TypedStack {
        area,
        flat,
        kinds: List::of(kinds),
        owner,
        members: List::of(members),
    })
}

/// The areas of tiles.
fn tile_areas(alloc: Global, tiles: &[SetTile]) -> Result<Vec<Rect>, AllocError>
    ensures { IfOk result (λ areas. areas.items ≡ map (λ tile. tile.area) tiles.now) }
{
    tiles.iter().map(|tile| tile.area).collect(alloc)
}

/// What the members of each stack make. The stacks give their members away.
fn typed_stacks_of(
    alloc: Global,
    tech: &Tech,
    tiles: &[SetTile],
    stacks: Vec<Stack>,
    plane: u8,
) -> Result<Vec<TypedStack>, AllocError>
    requires ordered { AreInPartOrder tiles.now }
    requires stacks { AreStacks (map (λ tile. tile.area) tiles.now) stacks.items }
    ensures { IfOk result (λ typed_stacks. StandForAll tech.now plane tiles.now stacks.items typed_stacks.items) }
{
    let mut sums = Vec::new(alloc);
    let mut typed_stacks = Vec::with_capacity(alloc, stacks.len())?;
    for stack in stacks {
        let typed_stack = typed_stack_of(alloc, tech, tiles, stack, plane, &mut sums)?;
        typed_stacks.push(typed_stack)?;
    }
    Ok(typed_stacks)
}

/// The pieces that the tiles of a plane make, each with what the parts have there and the numbers of the tiles that cover it.
///
/// The pieces lie apart. The tiles stand in the order of their parts, which have types wherever they stand, and the bounds of areas are
/// below 2^28 in absolute value. Tiles of one part may overlap. Want of memory alone refuses.
pub fn typed_stacks(
    alloc: Global,
    tech: &Tech,
    tiles: &[SetTile],
    plane: u8,
) -> Result<Vec<TypedStack>, AllocError>
    requires near { All (λ tile. IsNear tile.area) tiles.now }
    requires ordered { AreInPartOrder tiles.now }
    ensures stand { IfOk result (λ typed_stacks. StandForTiles tech.now plane tiles.now typed_stacks.items) }
    ensures members { IfOk result (λ typed_stacks. All (HasMembers tiles.now) typed_stacks.items) }
{
    let areas = tile_areas(alloc, tiles)?;
    let stacks = overlay(alloc, areas.as_slice())?;
    typed_stacks_of(alloc, tech, tiles, stacks, plane)
}
