//! What two lists of rectangles cover together, and what one of them covers alone.
ghost use Rattle.std.specs.Prelude.{◌≡◌, ◌++◌, IfOk, filter, map};
ghost use Rattle.geo_core.specs.Strips.{IsStrips};
ghost use Rattle.rect_overlays.specs.Stacks.{AreStacks};
ghost use Rattle.square_sets.specs.steps.Combined.{area_of, has_first, has_second, is_lone, is_shared, IsInBoth, IsInFirstAlone};

use geo_core::Rect;
use geo_strips::strips;
use rect_overlays::{Stack, overlay};
use std::alloc::{AllocError, Global};

/// The strips of the squares that the first rectangles cover and the second do not. It takes time for each piece that they make where they
/// lie over each other.
pub fn difference(alloc: Global, first: &[Rect], second: &[Rect]) -> Result<Vec<Rect>, AllocError>
    ensures { IfOk result (λ found. IsStrips (IsInFirstAlone first.now second.now) found.items) }
{
    let stacks = laid_over(alloc, first, second)?;
    let areas = lone_areas(alloc, stacks, first.len())?;
    strips(alloc, areas.as_slice())
}

/// The strips of the squares that both cover. It takes time as a difference does.
pub fn common(alloc: Global, first: &[Rect], second: &[Rect]) -> Result<Vec<Rect>, AllocError>
    ensures { IfOk result (λ found. IsStrips (IsInBoth first.now second.now) found.items) }
{
    let stacks = laid_over(alloc, first, second)?;
    let areas = shared_areas(alloc, stacks, first.len())?;
    strips(alloc, areas.as_slice())
}

/// The pieces that the two lists make, as those of one behind the other.
fn laid_over(alloc: Global, first: &[Rect], second: &[Rect]) -> Result<Vec<Stack>, AllocError>
    ensures { IfOk result (λ stacks. AreStacks (first.now ++ second.now) stacks.items) }
{
    let both = one_list(alloc, first, second)?;
    overlay(alloc, both.as_slice())
}

/// One list behind the other.
fn one_list(alloc: Global, first: &[Rect], second: &[Rect]) -> Result<Vec<Rect>, AllocError>
    ensures { IfOk result (λ both. both.items ≡ first.now ++ second.now) }
{
    let mut both = Vec::from_slice(alloc, first)?;
    both.extend_from_slice(second)?;
    Ok(both)
}

/// The areas of the stacks all of whose members are among so many first rectangles.
fn lone_areas(alloc: Global, stacks: Vec<Stack>, count: usize) -> Result<Vec<Rect>, AllocError>
    ensures { IfOk result (λ areas. areas.items ≡ map area_of (filter (is_lone count) stacks.items)) }
{
    stacks
        .iter()
        .filter(|stack| is_lone(stack, count))
        .map(|stack| stack.area)
        .collect(alloc)
}

/// The areas of the stacks of which some member is among so many first rectangles, and some other is not.
fn shared_areas(alloc: Global, stacks: Vec<Stack>, count: usize) -> Result<Vec<Rect>, AllocError>
    ensures { IfOk result (λ areas. areas.items ≡ map area_of (filter (is_shared count) stacks.items)) }
{
    stacks
        .iter()
        .filter(|stack| is_shared(stack, count))
        .map(|stack| stack.area)
        .collect(alloc)
}

/// Whether all members of the stack are among so many first rectangles.
fn is_lone(stack: &Stack, count: usize) -> bool
    ensures { result ≡ is_lone count stack.now }
{
    stack.members.iter().all(|member| *member < count)
}

/// Whether some member is, and some other is not.
fn is_shared(stack: &Stack, count: usize) -> bool
    ensures { result ≡ is_shared count stack.now }
{
    has_first(stack, count) && has_second(stack, count)
}

/// Whether some member is.
fn has_first(stack: &Stack, count: usize) -> bool
    ensures { result ≡ has_first count stack.now }
{
    stack.members.iter().any(|member| *member < count)
}

/// Whether some member is not.
fn has_second(stack: &Stack, count: usize) -> bool
    ensures { result ≡ has_second count stack.now }
{
    stack.members.iter().any(|member| count <= *member)
}
