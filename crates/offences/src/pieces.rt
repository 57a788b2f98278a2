//! The pieces of a plane that offend.
ghost use Rattle.std.specs.Prelude.{◌≡◌, ℕ, List, All, AllPairs, IfOk};
ghost use Rattle.std.specs.List.{list_any};
ghost use Rattle.geo_core.specs.Areas.{IsNear, AreDisjoint};
ghost use Rattle.geo_core.specs.Covering.{IsProper};
ghost use Rattle.geo_core.specs.Strips.{IsStrips};
ghost use Rattle.offences.specs.Offences.{SetLayout, OffendsOn, HaveTypes};
ghost use Rattle.offences.specs.steps.Pieces.{has_owner, CoverExactly, AreFoundChanges};
ghost use Rattle.offences.specs.SetTiles.{AreTilesOfParts, tile_parts};
ghost use Rattle.offences.specs.TypedStacks.{typed_stack_areas, AreByPart, AreTypedStacks};

use crate::changes::changed_pieces;
use crate::set_tiles::{SetTile, by_part};
use crate::spoiled::spoiled_areas;
use crate::stacks::{TypedStack, typed_stacks};
use geo_core::Rect;
use rect_overlays::geo_strips::strips;
use rect_overlays::rect_contacts::touching;
use std::alloc::{AllocError, Global};
use tech_model::{RawTech, Tech};

/// The areas of pieces.
fn typed_stack_areas(alloc: Global, typed_stacks: &[TypedStack]) -> Result<Vec<Rect>, AllocError>
    ensures { IfOk result (λ areas. areas.items ≡ typed_stack_areas typed_stacks.now) }
{
    typed_stacks
        .iter()
        .map(|typed_stack| typed_stack.area)
        .collect(alloc)
}

/// Whether some piece is of a channel.
fn have_channel(typed_stacks: &[TypedStack]) -> bool
    ensures { result ≡ list_any has_owner typed_stacks.now }
{
    typed_stacks
        .iter()
        .any(|typed_stack| typed_stack.owner.is_some())
}

/// The pieces that offend for what stands beside them. Where no piece is of a channel there are none.
fn changes(
    alloc: Global,
    raw: &RawTech,
    typed_stacks: &[TypedStack],
) -> Result<Vec<Rect>, AllocError>
    requires ordered { All (λ typed_stack. AreByPart typed_stack.kinds) typed_stacks.now }
    requires near { All (λ typed_stack. IsNear typed_stack.area) typed_stacks.now }
    requires proper { All (λ typed_stack. IsProper typed_stack.area) typed_stacks.now }
    requires apart { AllPairs AreDisjoint (typed_stack_areas typed_stacks.now) }
    ensures { IfOk result (λ pieces. AreFoundChanges raw.now typed_stacks.now pieces.items) }
{
    if !have_channel(typed_stacks) {
        return Ok(Vec::new(alloc));
    }
    let areas = typed_stack_areas(alloc, typed_stacks)?;
    let contacts = touching(alloc, areas.as_slice())?;
    changed_pieces(alloc, raw, typed_stacks, contacts.as_slice())
}

/// Rectangles that cover exactly the squares of the plane that offend, where these are the pieces of its parts. They may overlap.
fn bad_stacks(
    alloc: Global,
    tech: &Tech,
    typed_stacks: &[TypedStack],
) -> Result<Vec<Rect>, AllocError>
    requires sound { All (λ s. IsProper s.area × IsNear s.area × AreByPart s.kinds) typed_stacks.now }
    requires apart { AllPairs AreDisjoint (typed_stack_areas typed_stacks.now) }
    ensures { IfOk result (λ pieces. (parts : List SetLayout) (plane : ℕ) → AreTypedStacks tech.now parts plane typed_stacks.now
        → CoverExactly (OffendsOn tech.now parts plane) pieces.items) }
{
    let mut pieces = spoiled_areas(alloc, tech, typed_stacks)?;
    let changes = changes(alloc, tech.raw(), typed_stacks)?;
    pieces.extend_from_slice(changes.as_slice())?;
    Ok(pieces)
}

/// The strips of the squares of the plane that offend, where these are the pieces of its parts.
///
/// The pieces lie apart, each has a square, and its bounds are below 2^28 in absolute value. What a part has outside of all pieces is
/// nothing. Want of memory alone refuses. It takes time for a sort, for each piece, and for each two that share an edge.
pub fn offending_stacks(
    alloc: Global,
    tech: &Tech,
    typed_stacks: &[TypedStack],
) -> Result<Vec<Rect>, AllocError>
    requires sound { All (λ s. IsProper s.area × IsNear s.area × AreByPart s.kinds) typed_stacks.now }
    requires apart { AllPairs AreDisjoint (typed_stack_areas typed_stacks.now) }
    ensures { IfOk result (λ found. (parts : List SetLayout) (plane : ℕ) → AreTypedStacks tech.now parts plane typed_stacks.now
        → IsStrips (OffendsOn tech.now parts plane) found.items) }
{
    let pieces = bad_stacks(alloc, tech, typed_stacks)?;
    let found = strips(alloc, pieces.as_slice())?;
    Ok(found)
}

/// Rectangles that cover exactly the squares of the plane that offend, where each part has types. They may overlap.
pub fn bad_pieces(
    alloc: Global,
    tech: &Tech,
    tiles: &[SetTile],
    plane: u8,
    count: usize,
) -> Result<Vec<Rect>, AllocError>
    requires parts { AreTilesOfParts count tiles.now }
    requires types { HaveTypes tech.now (tile_parts tiles.now plane count) }
    ensures { IfOk result (λ pieces. CoverExactly (OffendsOn tech.now (tile_parts tiles.now plane count) plane) pieces.items) }
{
    let sorted = by_part(alloc, tiles)?;
    let typed_stacks = typed_stacks(alloc, tech, sorted.as_slice(), plane)?;
    bad_stacks(alloc, tech, typed_stacks.as_slice())
}
