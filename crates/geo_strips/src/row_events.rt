//! What happens at a row: rectangles begin there, and columns in which some ended.
ghost use Rattle.std.specs.Prelude.{◌≡◌, ℤ, ◌≤ℤ◌, ◌++◌, IfOk, OnOk, map, filter, AllPairs};
ghost use Rattle.geo_core.specs.FiniteSets.Lists.{In};
ghost use Rattle.geo_core.specs.Areas.{has_square};
ghost use Rattle.geo_strips.specs.steps.RowEvents.{begin_of, top_of, end_of, AreEvents, sides_of};

use crate::bars::{Bar, join, sorted};
use geo_core::Rect;
use std::alloc::{AllocError, Global};

/// In the columns from `from` on and before `to` a rectangle begins at the row `row` and goes on until the row
/// `top`, or rectangles end before the row. At one row the beginnings come first.
#[derive(Clone, Copy, Debug, PartialEq, Eq, PartialOrd, Ord)]
pub struct Event {
    pub row: i64,
    pub ends: bool,
    pub from: i64,
    pub to: i64,
    pub top: i64,
}

/// The beginnings of rectangles.
pub fn begins(alloc: Global, rects: &[Rect]) -> Result<Vec<Event>, AllocError>
    ensures { IfOk result (λ found. found.items ≡ map begin_of (filter has_square rects.now)) }
{
    rects
        .iter()
        .filter(|rect| rect.has_square())
        .map(|rect| Event {
            row: rect.ylo,
            ends: false,
            from: rect.xlo,
            to: rect.xhi,
            top: rect.yhi,
        })
        .collect(alloc)
}

/// The tops of rectangles.
fn tops(alloc: Global, rects: &[Rect]) -> Result<Vec<Bar>, AllocError>
    ensures { IfOk result (λ found. found.items ≡ map top_of (filter has_square rects.now)) }
{
    rects
        .iter()
        .filter(|rect| rect.has_square())
        .map(|rect| Bar {
            low: rect.yhi,
            high: rect.yhi,
            from: rect.xlo,
            to: rect.xhi,
        })
        .collect(alloc)
}

/// Adds the ends that bars stand for.
fn add_ends(events: &mut Vec<Event>, bars: &[Bar]) -> Result<(), AllocError>
    ensures { OnOk result (events.new.items ≡ events.old.items ++ map end_of bars.now) }
{
    for bar in bars {
        events.push(Event {
            row: bar.low,
            ends: true,
            from: bar.from,
            to: bar.to,
            top: bar.low,
        })?;
    }
    Ok(())
}

/// The events of rectangles in order.
pub fn events(alloc: Global, rects: &[Rect]) -> Result<Vec<Event>, AllocError>
    ensures { IfOk result (λ found. AreEvents rects.now found.items) }
{
    let mut found = begins(alloc, rects)?;
    let upper = sorted(tops(alloc, rects)?);
    let ends = join(alloc, upper.as_slice())?;
    add_ends(&mut found, ends.as_slice())?;
    found.sort_unstable();
    Ok(found)
}

/// The columns where rectangles that begin have their sides.
fn all_sides(alloc: Global, events: &[Event]) -> Result<Vec<i64>, AllocError>
    ensures { IfOk result (λ found. found.items ≡ sides_of events.now) }
{
    let mut found = Vec::new(alloc);
    for event in events {
        if !event.ends {
            found.push(event.from)?;
            found.push(event.to)?;
        }
    }
    Ok(found)
}

/// The columns where rectangles that begin have their sides, in order.
pub fn sides(alloc: Global, events: &[Event]) -> Result<Vec<i64>, AllocError>
    ensures all { IfOk result (λ found. (x : ℤ) → In x (sides_of events.now) → In x found.items) }
    ensures ordered { IfOk result (λ found. AllPairs ◌≤ℤ◌ found.items) }
{
    let mut found = all_sides(alloc, events)?;
    found.sort_unstable();
    found.dedup();
    Ok(found)
}
