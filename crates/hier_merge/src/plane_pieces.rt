//! The pieces at which the parts of a cell meet on one plane, and the squares of them that offend.
ghost use Rattle.std.specs.Prelude.{◌≡◌, ◌≤◌, ◌<◌, ◌^◌, ◌++◌, All, IfOk, OnOk, length, map, slice_index};
ghost use Rattle.geo_core.specs.Areas.{IsNear};
ghost use Rattle.hier_merge.specs.steps.PlanePieces.{HasPlanePieces, HaveTypedParts};
ghost use Rattle.hier_merge.specs.steps.Seams.{AddsPieces, AreSeams, renumbered};

use crate::plane_tiles::{numbered_on, numbers_of, set_tiles};
use cell_library::PartTile;
use geo_core::Rect;
use meeting_laws::offences::{TypedStack, offending_stacks, typed_stacks};
use names_lists::List;
use std::alloc::{AllocError, Global};
use tech_model::Tech;

/// The pieces of a plane, and what offends of them.
#[derive(Drop)]
pub struct PlanePieces {
    /// The members of a piece are numbers of tiles.
    pub stacks: Vec<TypedStack>,
    /// The strips of the squares that offend.
    pub offending: Vec<Rect>,
}

/// The pieces that the tiles of a plane make, and the strips of what offends of them.
///
/// The tiles between two seams make pieces by themselves, which takes less time and memory than laying all of them over each other. Want of memory
/// alone refuses.
pub fn plane_pieces(
    alloc: Global,
    tech: &Tech,
    tiles: &[PartTile],
    seams: &[usize],
    plane: u8,
) -> Result<PlanePieces, AllocError>
    requires few { length tiles.now < 2 ^ 64 }
    requires typed { HaveTypedParts tech.now tiles.now }
    requires seams { AreSeams tiles.now seams.now }
    ensures { IfOk result (λ pieces. HasPlanePieces tech.now tiles.now plane pieces.stacks.items pieces.offending.items) }
{
    let mut stacks = Vec::new(alloc);
    let mut start = 0;
    for seam in seams {
        add_pieces(alloc, tech, tiles, start, *seam, plane, &mut stacks)?;
        start = *seam;
    }
    add_pieces(alloc, tech, tiles, start, tiles.len(), plane, &mut stacks)?;
    let offending = offending_stacks(alloc, tech, stacks.as_slice())?;
    Ok(PlanePieces { stacks, offending })
}

// Adds the pieces that the tiles from one number on and below another make on the plane. The tiles are put in the order of their
// parts first.
fn add_pieces(
    alloc: Global,
    tech: &Tech,
    tiles: &[PartTile],
    start: usize,
    next: usize,
    plane: u8,
    stacks: &mut Vec<TypedStack>,
) -> Result<(), AllocError>
    requires few { length tiles.now < 2 ^ 64 }
    requires near { All (λ tile. IsNear tile.area) tiles.now }
    requires order { start ≤ next }
    requires within { next ≤ length tiles.now }
    ensures { OnOk result (AddsPieces tech.now tiles.now start next plane stacks.old.items stacks.new.items) }
{
    let mut numbered = numbered_on(alloc, tech, &tiles[start..next], start, plane)?;
    numbered.sort_by_cached_key(|entry| entry.tile.part)?;
    let here = set_tiles(alloc, numbered.as_slice())?;
    let numbers = numbers_of(alloc, numbered.as_slice())?;
    let found = typed_stacks(alloc, tech, here.as_slice(), plane)?;
    add_all(alloc, numbers.as_slice(), stacks, found)?;
    Ok(())
}

// Adds the pieces, whose members are places of these numbers, with the numbers for members.
fn add_all(
    alloc: Global,
    numbers: &[usize],
    stacks: &mut Vec<TypedStack>,
    found: Vec<TypedStack>,
) -> Result<(), AllocError>
    requires { All (λ stack. All (λ member. member < length numbers.now) stack.members) found.items }
    ensures { OnOk result (stacks.new.items ≡ stacks.old.items ++ map (renumbered numbers.now) found.items) }
{
    for stack in found {
        let numbered = with_numbers(alloc, numbers, stack)?;
        stacks.push(numbered)?;
    }
    Ok(())
}

// The piece with the numbers at the places that it has as members.
fn with_numbers(
    alloc: Global,
    numbers: &[usize],
    stack: TypedStack,
) -> Result<TypedStack, AllocError>
    requires { All (λ member. member < length numbers.now) stack.members }
    ensures { IfOk result (λ made. made ≡ renumbered numbers.now stack) }
{
    let TypedStack {
        area,
        flat,
        kinds,
        owner,
        members,
    } = stack;
    let members = numbers_at(alloc, numbers, members.items())?;
    Ok(TypedStack {
        area,
        flat,
        kinds,
        owner,
        members: List::of(members),
    })
}

// The numbers at these places.
fn numbers_at(alloc: Global, numbers: &[usize], places: &[usize]) -> Result<Vec<usize>, AllocError>
    requires { All (λ place. place < length numbers.now) places.now }
    ensures { IfOk result (λ found. found.items ≡ map (slice_index numbers.now) places.now) }
{
    let mut found = Vec::with_capacity(alloc, places.len())?;
    for place in places {
        found.push(numbers[*place])?;
    }
    Ok(found)
}

/// Adds the strips of a plane.
pub fn add_strips(found: &mut Vec<(u8, Rect)>, plane: u8, strips: &[Rect]) -> Result<(), AllocError>
    ensures { OnOk result (found.new.items ≡ found.old.items ++ map (λ area. (plane, area)) strips.now) }
{
    for area in strips {
        found.push((plane, *area))?;
    }
    Ok(())
}
