//! The sides of rectangles, in order along their lines, and where sides of two such orders meet.
ghost use Rattle.std.specs.Prelude.{◌≡◌, ◌↔◌, IfOk, OnOk, IsTrue, All, AllPairs};
ghost use Rattle.geo_core.specs.Covering.{IsProper};
ghost use Rattle.geo_core.specs.FiniteSets.Lists.{Lists};
ghost use Rattle.geo_core.specs.Areas.{AreDisjoint, IsNear};
ghost use Rattle.rect_contacts.specs.steps.Sides.{side_of, AreSidesOf, ReachesNoFarther, AreSidesInOrder, AreOpposite, IsSpan, AddsContact, IsMeeting};

use crate::contacts::Contact;
use geo_core::Rect;
use std::alloc::{AllocError, Global};

/// One of the four edges of a rectangle.
#[derive(Clone, Copy, Debug, PartialEq, Eq)]
pub enum Edge {
    Left,
    Right,
    Bottom,
    Top,
}

/// An edge of a rectangle of a list: on the vertical or horizontal line at `line`, from `from` to `to`.
/// Sides are in the order of their lines, and on one line in that of their beginnings.
#[derive(Clone, Copy, Debug, PartialEq, Eq, PartialOrd, Ord)]
pub struct Side {
    pub line: i64,
    pub from: i64,
    pub to: i64,
    /// The place of the rectangle in the list.
    pub owner: usize,
}

impl Side {
    /// Whether this side ends no farther than another, on its line or on one before.
    fn reaches_no_farther(&self, other: &Side) -> bool
        ensures { IsTrue result ↔ ReachesNoFarther self.now other.now }
    {
        self.line < other.line || self.line == other.line && self.to <= other.to
    }
}

/// An edge of the rectangle at a place of a list, as a side.
fn side_at(rect: &Rect, edge: Edge, owner: usize) -> Side
    ensures { result ≡ side_of edge rect.now owner }
{
    let Rect { xlo, ylo, xhi, yhi } = *rect;
    let (line, from, to) = match edge {
        Edge::Left => (xlo, ylo, yhi),
        Edge::Right => (xhi, ylo, yhi),
        Edge::Bottom => (ylo, xlo, xhi),
        Edge::Top => (yhi, xlo, xhi),
    };
    Side {
        line,
        from,
        to,
        owner,
    }
}

/// That edge of each of the rectangles, in order.
pub fn sorted_sides(alloc: Global, rects: &[Rect], edge: Edge) -> Result<Vec<Side>, AllocError>
    requires proper { All IsProper rects.now }
    requires near { All IsNear rects.now }
    requires disjoint { AllPairs AreDisjoint rects.now }
    ensures { IfOk result (λ sides. AreSidesOf edge rects.now sides.items) }
{
    let mut sides = Vec::with_capacity(alloc, rects.len())?;
    for (owner, rect) in rects.iter().enumerate() {
        sides.push(side_at(rect, edge, owner))?;
    }
    sides.sort_unstable();
    Ok(sides)
}

/// Adds the contact of the owners of two sides, if the sides meet.
fn note_contact(contacts: &mut Vec<Contact>, lower: &Side, upper: &Side) -> Result<(), AllocError>
    requires lower_span { IsSpan lower.now }
    requires upper_span { IsSpan upper.now }
    ensures { OnOk result (AddsContact lower.now upper.now contacts.old.items contacts.new.items) }
{
    let from = lower.from.max(upper.from);
    let to = lower.to.min(upper.to);
    if lower.line == upper.line && from < to {
        contacts.push(Contact {
            first: lower.owner.min(upper.owner),
            second: lower.owner.max(upper.owner),
            length: to - from,
        })?;
    }
    Ok(())
}

/// The contacts of sides of one list with sides of the other that they meet, each once.
/// It takes a step for each side of the two lists.
pub fn meetings(alloc: Global, lowers: &[Side], uppers: &[Side]) -> Result<Vec<Contact>, AllocError>
    requires lowers_in_order { AreSidesInOrder lowers.now }
    requires uppers_in_order { AreSidesInOrder uppers.now }
    requires opposite { AreOpposite lowers.now uppers.now }
    ensures { IfOk result (λ contacts. Lists (IsMeeting lowers.now uppers.now) contacts.items) }
{
    let mut contacts = Vec::new(alloc);
    let mut below = 0;
    let mut above = 0;
    while below < lowers.len() && above < uppers.len() {
        let lower = lowers[below];
        let upper = uppers[above];
        note_contact(&mut contacts, &lower, &upper)?;
        if lower.reaches_no_farther(&upper) {
            below += 1;
        } else {
            above += 1;
        }
    }
    Ok(contacts)
}
