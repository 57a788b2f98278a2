//! Boxes of parts, and the areas in which they may interact.
ghost use Rattle.std.specs.Prelude.{IsTrue, All};
ghost use Rattle.interact.specs.NearBoxes.{IsNearBox};

use crate::rects::{Bounds, are_listed, rect, rects};
use geo_core::Rect;
use interact::areas;
use std::alloc::{AllocError, Global};
use std::test::Fail;

/// Boxes, and the strips in which they may interact.
type Row = (&'static [Bounds], &'static [Bounds]);

const ROWS: &[Row] = &[
    (&[], &[]),
    (&[[0, 0, 2, 2]], &[]),
    // Two that touch at a side, and two at a corner.
    (&[[0, 0, 2, 2], [2, 0, 4, 2]], &[[1, -1, 3, 3]]),
    (&[[0, 0, 2, 2], [2, 2, 4, 4]], &[[1, 1, 3, 3]]),
    // One apart, they have a column in common once they are grown; two apart or more, none.
    (&[[3, 0, 5, 2], [0, 0, 2, 2]], &[[2, -1, 3, 3]]),
    (&[[0, 0, 2, 2], [4, 0, 6, 2]], &[]),
    (&[[-9, -9, -8, -8], [8, 8, 9, 9]], &[]),
    // Equal boxes.
    (&[[0, 0, 1, 2], [0, 0, 1, 2]], &[[-1, -1, 2, 3]]),
    // Points, side by side and at one place.
    (&[[0, 0, 0, 0], [1, 0, 1, 0]], &[[0, -1, 1, 1]]),
    (&[[0, 0, 0, 0], [0, 0, 0, 0]], &[[-1, -1, 1, 1]]),
    // Three boxes round a corner: each strip is as wide as can be.
    (
        &[[0, 0, 2, 2], [2, 0, 4, 2], [0, 2, 2, 4]],
        &[[1, -1, 3, 1], [-1, 1, 3, 3]],
    ),
    // One inside another, which begins lower and ends higher.
    (&[[0, 0, 8, 8], [2, 2, 4, 4]], &[[1, 1, 5, 5]]),
    // A tall one across two wide ones: where the lower one ends the upper one begins.
    (
        &[[0, 0, 10, 2], [0, 4, 10, 6], [4, -4, 6, 12]],
        &[[3, -1, 7, 7]],
    ),
    // Three at one place, of which one goes on.
    (
        &[[0, 0, 2, 2], [0, 0, 2, 2], [0, 0, 2, 9]],
        &[[-1, -1, 3, 3]],
    ),
];

/// How far boxes go.
const EDGE: i64 = 1 << 20;

/// Whether it is a box as the call asks for.
fn is_box(area: &Rect) -> bool
    ensures { IsTrue result → IsNearBox area.now }
{
    -EDGE < area.xlo
        && -EDGE < area.ylo
        && area.xlo <= area.xhi
        && area.ylo <= area.yhi
        && area.xhi < EDGE
        && area.yhi < EDGE
}

fn are_boxes(areas: &[Rect]) -> bool
    ensures { IsTrue result → All IsNearBox areas.now }
{
    for area in areas {
        if !is_box(area) {
            return false;
        }
    }
    true
}

/// Whether the row's boxes may interact in its strips.
fn is_right(alloc: Global, row: &Row) -> Result<bool, AllocError> {
    let (boxes, strips) = *row;
    let boxes = rects(alloc, boxes)?;
    if !are_boxes(boxes.as_slice()) {
        return Ok(false);
    }
    let found = areas(alloc, boxes.as_slice())?;
    are_listed(alloc, found.as_slice(), strips)
}

#[test]
fn boxes_interact_where_they_are_near(rt: HostRuntime) -> Result<(), Fail> {
    for row in ROWS {
        assert!(rt; is_right(rt.alloc(), row)?);
    }
    Ok(())
}

/// So many boxes of a kind.
const MANY: u32 = 20000;

/// The box that is this block once it is grown by one on every side.
fn core_of(x: u32, y: u32, wide: u32, high: u32) -> Rect {
    let (x, y) = (i64::from(x), i64::from(y));
    rect([
        x + 1,
        y + 1,
        x + i64::from(wide) - 1,
        y + i64::from(high) - 1,
    ])
}

fn block(x: u32, y: u32, wide: u32, high: u32) -> Rect {
    let (x, y) = (i64::from(x), i64::from(y));
    rect([x, y, x + i64::from(wide), y + i64::from(high)])
}

fn have_areas(alloc: Global, boxes: &[Rect], strips: &[Rect]) -> Result<bool, AllocError> {
    if !are_boxes(boxes) {
        return Ok(false);
    }
    Ok(areas(alloc, boxes)?.as_slice() == strips)
}

/// Wide boxes, each over nine others, across tall ones.
fn woven(alloc: Global) -> Result<Vec<Rect>, AllocError> {
    let mut boxes = Vec::new(alloc);
    for k in 0..MANY {
        boxes.push(core_of(0, k, 3 * MANY, 10))?;
        boxes.push(core_of(3 * k, 0, 2, MANY + 9))?;
    }
    Ok(boxes)
}

/// What two of them share: all but the lowest row and the highest, and of these what the tall ones cover.
fn woven_areas(alloc: Global) -> Result<Vec<Rect>, AllocError> {
    let mut areas = Vec::new(alloc);
    for k in 0..MANY {
        areas.push(block(3 * k, 0, 2, 1))?;
    }
    areas.push(block(0, 1, 3 * MANY, MANY + 7))?;
    for k in 0..MANY {
        areas.push(block(3 * k, MANY + 8, 2, 1))?;
    }
    Ok(areas)
}

#[test]
fn many_wide_boxes_meet_each_other_and_tall_ones(rt: HostRuntime) -> Result<(), Fail> {
    let boxes = woven(rt.alloc())?;
    let areas = woven_areas(rt.alloc())?;
    assert!(rt; have_areas(rt.alloc(), boxes.as_slice(), areas.as_slice())?);
    Ok(())
}

/// Wide boxes, each beginning where the one below it ends, across tall ones, each of them so many times.
fn stacked(alloc: Global, times: u32) -> Result<Vec<Rect>, AllocError> {
    let mut boxes = Vec::new(alloc);
    for k in 0..MANY {
        boxes.push(core_of(0, 2 * k, 3 * MANY, 2))?;
        for _ in 0..times {
            boxes.push(core_of(3 * k, 0, 2, 2 * MANY))?;
        }
    }
    Ok(boxes)
}

/// What two of them share: the tall ones.
fn stacked_areas(alloc: Global) -> Result<Vec<Rect>, AllocError> {
    let mut areas = Vec::new(alloc);
    for k in 0..MANY {
        areas.push(block(3 * k, 0, 2, 2 * MANY))?;
    }
    Ok(areas)
}

#[test]
fn many_wide_boxes_in_a_stack_meet_tall_ones(rt: HostRuntime) -> Result<(), Fail> {
    let areas = stacked_areas(rt.alloc())?;
    for times in 1..3u32 {
        let boxes = stacked(rt.alloc(), times)?;
        assert!(rt; have_areas(rt.alloc(), boxes.as_slice(), areas.as_slice())?);
    }
    Ok(())
}
