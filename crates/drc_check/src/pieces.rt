//! The pieces that tiles make, as far as some rule lists their types.
ghost use Rattle.std.specs.Prelude.{◌≡◌, ◌<◌, ◌++◌, ℕ, All, IfOk, OnOk, length, map};
ghost use Rattle.std.specs.List.{filter_map};
ghost use Rattle.rect_overlays.specs.declared.stacks.Stack.{Stack as OneStack};
ghost use Rattle.tech_model.specs.declared.raw.TypeId.{TypeId as Kind};
ghost use Rattle.drc_rules.specs.LawfulRules.{IsLawfulRule};
ghost use Rattle.drc_check.specs.steps.Listed.{IsListedType, IsMarkedType};
ghost use Rattle.drc_check.specs.declared.marks.TheConstants.{TYPE_NUMBERS};
ghost use Rattle.drc_check.specs.steps.Pieces.{tile_area, member_union, stack_piece, set_in, tiles_of_plane, AddsListed, AddsOfPlane, HasMembersIn};

use crate::marks::names_plane;
use cell_library::PartTile;
use drc_rules::Rule;
use geo_core::Rect;
use rect_overlays::{Stack, overlay};
use std::alloc::{AllocError, Global};
use tech_model::{PartSet, RawTech, Tech, TypeId};

/// A piece of a plane, and the flat type that each square of it has.
#[derive(Clone, Copy, Debug, PartialEq, Eq)]
pub struct ListedPiece {
    pub plane: u8,
    pub kind: TypeId,
    pub area: Rect,
}

/// The areas of the tiles of the plane.
fn areas_on(alloc: Global, tiles: &[PartTile], plane: u8) -> Result<Vec<Rect>, AllocError>
    ensures { IfOk result (λ areas. areas.items ≡ map tile_area (tiles_of_plane plane tiles.now)) }
{
    tiles
        .iter()
        .filter(|tile| tile.plane == plane)
        .map(|tile| tile.area)
        .collect(alloc)
}

/// The sets of the tiles of the plane.
fn sets_on(
    alloc: Global,
    raw: &RawTech,
    tiles: &[PartTile],
    plane: u8,
) -> Result<Vec<PartSet>, AllocError>
    ensures { IfOk result (λ sets. sets.items ≡ map (set_in raw.now) (tiles_of_plane plane tiles.now)) }
{
    tiles
        .iter()
        .filter(|tile| tile.plane == plane)
        .map(|tile| raw.parts_of(tile.kind))
        .collect(alloc)
}

/// The union of the sets at these places of the list.
fn union_of(sets: &[PartSet], members: &[usize]) -> PartSet
    requires { All (λ member. member < length sets.now) members.now }
    ensures { result.0 ≡ member_union sets.now members.now }
{
    let mut all = 0;
    for member in members {
        all |= sets[*member].0;
    }
    PartSet(all)
}

/// The piece that a stack is, if the type of what its members have together is marked.
fn stack_piece(
    tech: &Tech,
    marks: &[bool],
    plane: u8,
    sets: &[PartSet],
    stack: &Stack,
) -> Option<ListedPiece>
    requires marks { length marks.now ≡ TYPE_NUMBERS }
    requires members { HasMembersIn sets.now stack.now }
    ensures { result ≡ stack_piece tech.now marks.now plane sets.now stack.now }
{
    let kind = tech.joined(plane, union_of(sets, stack.members.as_slice()))?;
    if marks[usize::from(kind.0)] {
        Some(ListedPiece {
            plane,
            kind,
            area: stack.area,
        })
    } else {
        None
    }
}

/// Adds the pieces that stacks are, as far as their types are marked.
fn add_marked(
    tech: &Tech,
    marks: &[bool],
    plane: u8,
    sets: &[PartSet],
    stacks: &[Stack],
    pieces: &mut Vec<ListedPiece>,
) -> Result<(), AllocError>
    requires marks { length marks.now ≡ TYPE_NUMBERS }
    requires members { All (HasMembersIn sets.now) stacks.now }
    ensures { OnOk result (pieces.new.items ≡ pieces.old.items ++ filter_map (stack_piece tech.now marks.now plane sets.now) stacks.now) }
{
    for stack in stacks {
        if let Some(piece) = stack_piece(tech, marks, plane, sets, stack) {
            pieces.push(piece)?;
        }
    }
    Ok(())
}

/// Adds the pieces that the tiles make on the plane, as far as their types are marked.
fn add_of_plane(
    alloc: Global,
    tech: &Tech,
    marks: &[bool],
    tiles: &[PartTile],
    plane: u8,
    pieces: &mut Vec<ListedPiece>,
) -> Result<(), AllocError>
    requires { length marks.now ≡ TYPE_NUMBERS }
    ensures { OnOk result (AddsOfPlane tech.now marks.now tiles.now plane pieces.old.items pieces.new.items) }
{
    let areas = areas_on(alloc, tiles, plane)?;
    let sets = sets_on(alloc, tech.raw(), tiles, plane)?;
    let stacks = overlay(alloc, areas.as_slice())?;
    add_marked(
        tech,
        marks,
        plane,
        sets.as_slice(),
        stacks.as_slice(),
        pieces,
    )
}

/// Adds the pieces that the tiles make, plane by plane, as far as some rule lists their types. It drops what it needs for one plane before
/// it begins the next.
pub fn add_listed(
    alloc: Global,
    tech: &Tech,
    rules: &[Rule],
    marks: &[bool],
    tiles: &[PartTile],
    pieces: &mut Vec<ListedPiece>,
) -> Result<(), AllocError>
    requires lawful { All (IsLawfulRule tech.now) rules.now }
    requires marks { length marks.now ≡ TYPE_NUMBERS }
    requires marked { (plane : ℕ) (kind : Kind) → IsListedType rules.now plane kind → IsMarkedType marks.now kind.0 }
    ensures { OnOk result (AddsListed tech.now rules.now tiles.now pieces.old.items pieces.new.items) }
{
    for plane in 0..tech.raw().planes.items().len() {
        let plane = plane as u8;
        if names_plane(rules, plane) {
            add_of_plane(alloc, tech, marks, tiles, plane, pieces)?;
        }
    }
    Ok(())
}
