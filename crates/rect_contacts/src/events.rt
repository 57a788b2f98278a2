//! Where rectangles of two lists begin and end, in order from below.
ghost use Rattle.std.specs.Prelude.{◌≡◌, ◌++◌, IfOk, OnOk};
ghost use Rattle.rect_contacts.specs.steps.Events.{events_from, AreEvents};

use geo_core::Rect;
use std::alloc::{AllocError, Global};

/// At a line a rectangle of one of two lists begins, or it ended below the line.
/// Events are in the order of their lines, and on one line the ends come first.
#[derive(Clone, Copy, Debug, PartialEq, Eq, PartialOrd, Ord)]
pub struct Event {
    pub line: i64,
    pub begins: bool,
    /// Whether the rectangle is one of the second list.
    pub of_second: bool,
    /// The place of the rectangle in its list.
    pub owner: usize,
    pub from: i64,
    pub to: i64,
}

/// Adds the events of the rectangles of one list.
fn add_events(events: &mut Vec<Event>, rects: &[Rect], of_second: bool) -> Result<(), AllocError>
    ensures { OnOk result (events.new.items ≡ events.old.items ++ events_from of_second 0 rects.now) }
{
    for (owner, rect) in rects.iter().enumerate() {
        let Rect { xlo, ylo, xhi, yhi } = *rect;
        events.push(Event {
            line: ylo,
            begins: true,
            of_second,
            owner,
            from: xlo,
            to: xhi,
        })?;
        events.push(Event {
            line: yhi,
            begins: false,
            of_second,
            owner,
            from: xlo,
            to: xhi,
        })?;
    }
    Ok(())
}

/// The events of the rectangles of two lists, in order.
pub fn events(alloc: Global, first: &[Rect], second: &[Rect]) -> Result<Vec<Event>, AllocError>
    ensures { IfOk result (λ events. AreEvents first.now second.now events.items) }
{
    let mut events = Vec::new(alloc);
    add_events(&mut events, first, false)?;
    add_events(&mut events, second, true)?;
    events.sort_unstable();
    Ok(events)
}
