//! Which rectangles share part of an edge, and how much of it.
ghost use Rattle.std.specs.Prelude.{IfOk, All, AllPairs};
ghost use Rattle.geo_core.specs.Covering.{IsProper};
ghost use Rattle.geo_core.specs.FiniteSets.Lists.{Lists};
ghost use Rattle.geo_core.specs.Areas.{AreDisjoint, IsNear};
ghost use Rattle.rect_contacts.specs.Contacts.{shared_stacked, shared_abreast, IsSharedEdgeBy, IsSharedEdge};

use crate::sides::{Edge, meetings, sorted_sides};
use geo_core::Rect;
use std::alloc::{AllocError, Global};

/// Two rectangles of a list that share part of an edge.
#[derive(Clone, Copy, Debug, PartialEq, Eq)]
pub struct Contact {
    /// The place in the list of the rectangle that comes first there.
    pub first: usize,
    /// The place of the other.
    pub second: usize,
    /// The length of the edge that they share, in lambda. It is not 0.
    pub length: i64,
}

/// The contacts of rectangles, each once, in no order that callers may count on.
///
/// Each rectangle has a square, no two have one in common, and each bound is below 2^28 in absolute value.
/// Rectangles that have a corner alone in common don't touch, and two that touch share one edge.
/// Want of memory alone is an error. It takes time for a sort, and for each contact that it finds.
pub fn touching(alloc: Global, rects: &[Rect]) -> Result<Vec<Contact>, AllocError>
    requires proper { All IsProper rects.now }
    requires near { All IsNear rects.now }
    requires disjoint { AllPairs AreDisjoint rects.now }
    ensures { IfOk result (λ contacts. Lists (IsSharedEdge rects.now) contacts.items) }
{
    let mut contacts = stacked(alloc, rects)?;
    let side_by_side = abreast(alloc, rects)?;
    contacts.extend_from_slice(side_by_side.as_slice())?;
    Ok(contacts)
}

/// The contacts of rectangles of which one lies upon the other.
fn stacked(alloc: Global, rects: &[Rect]) -> Result<Vec<Contact>, AllocError>
    requires proper { All IsProper rects.now }
    requires near { All IsNear rects.now }
    requires disjoint { AllPairs AreDisjoint rects.now }
    ensures { IfOk result (λ contacts. Lists (IsSharedEdgeBy shared_stacked rects.now) contacts.items) }
{
    let tops = sorted_sides(alloc, rects, Edge::Top)?;
    let bottoms = sorted_sides(alloc, rects, Edge::Bottom)?;
    meetings(alloc, tops.as_slice(), bottoms.as_slice())
}

/// The contacts of rectangles that stand side by side.
fn abreast(alloc: Global, rects: &[Rect]) -> Result<Vec<Contact>, AllocError>
    requires proper { All IsProper rects.now }
    requires near { All IsNear rects.now }
    requires disjoint { AllPairs AreDisjoint rects.now }
    ensures { IfOk result (λ contacts. Lists (IsSharedEdgeBy shared_abreast rects.now) contacts.items) }
{
    let rights = sorted_sides(alloc, rects, Edge::Right)?;
    let lefts = sorted_sides(alloc, rects, Edge::Left)?;
    meetings(alloc, rights.as_slice(), lefts.as_slice())
}
