//! Regions whose members lie apart, so that each member makes a stack of its own.
ghost use Rattle.std.specs.Prelude.{◌≡◌, ◌<◌, All, IfOk, OnOk, length, true};
ghost use Rattle.std.specs.List.{list_any};
ghost use Rattle.rect_overlays.specs.steps.Regions.{meets_at};
ghost use Rattle.rect_overlays.specs.steps.Singles.{single_of, contents_of, AddsSingles, AreApart};

use crate::stacks::Stack;
use geo_core::Rect;
use std::alloc::{AllocError, Global};

/// At most so many members are compared, each with each: with more it would take longer than to cut the region.
const FEW: usize = 8;

/// Whether the members are few, and no two of their rectangles have a square in common.
pub fn lie_apart(rects: &[Rect], members: &[usize]) -> bool
    requires { All (λ member. member < length rects.now) members.now }
    ensures { result ≡ true → AreApart rects.now members.now }
{
    if members.len() > FEW {
        return false;
    }
    for (index, member) in members.iter().enumerate() {
        if any_meets(rects, &rects[*member], &members[..index]) {
            return false;
        }
    }
    true
}

/// Whether the rectangle of one of the members has a square in the area.
fn any_meets(rects: &[Rect], area: &Rect, members: &[usize]) -> bool
    requires { All (λ member. member < length rects.now) members.now }
    ensures { result ≡ list_any (meets_at rects.now area.now) members.now }
{
    members
        .iter()
        .any(|member| rects[*member].common(area).has_square())
}

/// Adds a stack for each member.
pub fn push_singles(
    alloc: Global,
    rects: &[Rect],
    area: &Rect,
    members: &[usize],
    stacks: &mut Vec<Stack>,
) -> Result<(), AllocError>
    requires { All (λ member. member < length rects.now) members.now }
    ensures { OnOk result (AddsSingles rects.now area.now members.now stacks.old.items stacks.new.items) }
{
    for member in members {
        let stack = single(alloc, rects, area, *member)?;
        stacks.push(stack)?;
    }
    Ok(())
}

/// What the rectangle of a member has of an area, with that member alone.
fn single(alloc: Global, rects: &[Rect], area: &Rect, member: usize) -> Result<Stack, AllocError>
    requires { member < length rects.now }
    ensures { IfOk result (λ stack. contents_of stack ≡ single_of rects.now area.now member) }
{
    Ok(Stack {
        area: rects[member].common(area),
        members: vec![in alloc; member]?,
    })
}
