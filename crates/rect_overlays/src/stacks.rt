//! The pieces that rectangles make where they lie over each other.
ghost use Rattle.std.specs.Prelude.{◌≡◌, ◌<◌, All, IfOk, OnOk, filter, length};
ghost use Rattle.geo_core.specs.Covering.{IsProper};
ghost use Rattle.rect_overlays.specs.steps.Cuts.{low_half, high_half, IsInside};
ghost use Rattle.rect_overlays.specs.steps.Regions.{goes_round_at, AllMeet, IsGathered};
ghost use Rattle.rect_overlays.specs.steps.Splits.{CutsInTwo};
ghost use Rattle.rect_overlays.specs.Stacks.{AreStacks};

use crate::cuts::{Cut, goes_round, next_cut};
use crate::regions::{Part, Regions, move_last};
use crate::singles::{lie_apart, push_singles};
use geo_core::Rect;
use std::alloc::{AllocError, Global};

/// A piece of the grid that rectangles of a list cover whole.
#[derive(Debug, Drop)]
pub struct Stack {
    /// The squares of the piece.
    pub area: Rect,
    /// The indices in the list of the rectangles that cover it, in order.
    pub members: Vec<usize>,
}

/// Where the halves of a region are gathered, kept from one region to the next.
#[derive(Drop)]
struct Halves {
    low: Part,
    high: Part,
}

/// The pieces of what the rectangles cover, in no order that callers may count on: they lie apart, each is covered whole by its members, and
/// no other rectangle covers a square of it.
///
/// The rectangles may overlap, and one without a square adds nothing. Want of memory alone refuses.
pub fn overlay(alloc: Global, rects: &[Rect]) -> Result<Vec<Stack>, AllocError>
    ensures { IfOk result (λ stacks. AreStacks rects.now stacks.items) }
{
    let mut regions = Regions::around(alloc, rects)?;
    let mut taken = Vec::new(alloc);
    let mut halves = Halves {
        low: Part::new(alloc),
        high: Part::new(alloc),
    };
    let mut stacks = Vec::new(alloc);
    while let Some(span) = regions.spans.pop() {
        move_last(&mut regions.members, span.count, &mut taken)?;
        let members = taken.as_slice();
        if lie_apart(rects, members) {
            push_singles(alloc, rects, &span.area, members, &mut stacks)?;
            continue;
        }
        match next_cut(rects, &span.area, members) {
            Some(cut) => cut_in_two(rects, &span.area, members, &cut, &mut halves, &mut regions)?,
            None => stacks.push(stack_of(alloc, &span.area, members)?)?,
        }
    }
    Ok(stacks)
}

/// Adds what is in the two halves of a region.
fn cut_in_two(
    rects: &[Rect],
    area: &Rect,
    members: &[usize],
    cut: &Cut,
    halves: &mut Halves,
    regions: &mut Regions,
) -> Result<(), AllocError>
    requires within { All (λ member. member < length rects.now) members.now }
    requires meet { AllMeet rects.now area.now members.now }
    requires proper { IsProper area.now }
    requires inside { IsInside area.now cut.now }
    ensures { OnOk result (CutsInTwo rects.now (record { area = area.now; members = members.now }) cut.now regions.old regions.new) }
{
    gather(rects, area, members, cut, halves)?;
    regions.push(&halves.low)?;
    regions.push(&halves.high)
}

/// Gathers what the members of a region have of either half.
fn gather(
    rects: &[Rect],
    area: &Rect,
    members: &[usize],
    cut: &Cut,
    halves: &mut Halves,
) -> Result<(), AllocError>
    requires within { All (λ member. member < length rects.now) members.now }
    requires meet { AllMeet rects.now area.now members.now }
    requires proper { IsProper area.now }
    requires inside { IsInside area.now cut.now }
    ensures low { OnOk result (IsGathered rects.now members.now (low_half area.now cut.now) halves.new.low) }
    ensures high { OnOk result (IsGathered rects.now members.now (high_half area.now cut.now) halves.new.high) }
{
    let low_area = cut.low_half(area);
    let high_area = cut.high_half(area);
    halves.low.clear(&low_area);
    halves.high.clear(&high_area);
    for member in members {
        let rect = rects[*member];
        let low = rect.common(&low_area);
        let high = rect.common(&high_area);
        halves.low.add_if(cut.is_past_low(&rect), *member, &low)?;
        halves.high.add_if(cut.is_past_high(&rect), *member, &high)?;
    }
    Ok(())
}

/// The area with the members, which go round it.
fn stack_of(alloc: Global, area: &Rect, members: &[usize]) -> Result<Stack, AllocError>
    ensures area { IfOk result (λ stack. stack.area ≡ area.now) }
    ensures members { IfOk result (λ stack. stack.members.items ≡ members.now) }
{
    Ok(Stack {
        area: *area,
        members: Vec::from_slice(alloc, members)?,
    })
}
