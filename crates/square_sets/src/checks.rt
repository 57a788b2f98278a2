//! The squares at which a set is too narrow, leaves too narrow a gap, or comes too near another.
ghost use Rattle.std.specs.Prelude.{◌≤ℤ◌, pos, All, IfOk};
ghost use Rattle.geo_core.specs.Covering.{IsProper};
ghost use Rattle.geo_core.specs.Strips.{IsInUnion, IsStrips};
ghost use Rattle.square_sets.specs.Boxes.{IsOutside, IsTooNarrow, IsTooNear, IsTooTight, LiesInBox, LiesInNoBox};
ghost use Rattle.square_sets.specs.Reaches.{IsBounded};

use crate::combining::{common, difference};
use crate::limits::{MOST_REACH, SET_EDGE};
use crate::reaches::{dilated, eroded};
use geo_core::Rect;
use geo_strips::strips;
use std::alloc::{AllocError, Global};

/// The strips of the squares of a set that lie in no box of d by d squares inside the set.
///
/// The rectangles may overlap, and one without a square adds nothing. No bound is past 2^27 in absolute value, and d is 1 to 64, in lambda.
/// Want of memory alone refuses.
pub fn narrow(alloc: Global, set: &[Rect], d: i64) -> Result<Vec<Rect>, AllocError>
    requires bounded { All (IsBounded SET_EDGE) set.now }
    requires d { (pos 1 ≤ℤ d) × (d ≤ℤ MOST_REACH) }
    ensures { IfOk result (λ found. IsStrips (IsTooNarrow (IsInUnion set.now) d) found.items) }
{
    let whole = strips(alloc, set)?;
    let boxes = opening(alloc, whole.as_slice(), d)?;
    difference(alloc, whole.as_slice(), boxes.as_slice())
}

/// The strips of the squares outside a set that lie in no box of d by d squares outside it.
///
/// The rectangles may overlap, and each has a square. No bound is past 2^27 in absolute value, and d is 1 to 64, in lambda. Want of memory
/// alone refuses.
pub fn tight(alloc: Global, set: &[Rect], d: i64) -> Result<Vec<Rect>, AllocError>
    requires proper { All IsProper set.now }
    requires bounded { All (IsBounded SET_EDGE) set.now }
    requires d { (pos 1 ≤ℤ d) × (d ≤ℤ MOST_REACH) }
    ensures { IfOk result (λ found. IsStrips (IsTooTight (IsInUnion set.now) d) found.items) }
{
    let closed = closing(alloc, set, d)?;
    difference(alloc, closed.as_slice(), set)
}

/// The strips of the squares of a first set from which some square of a second differs by at most d in x and by at most d in y.
///
/// The rectangles may overlap, and each of the second list has a square and no bound past 2^27 in absolute value; d is 1 to 64, in lambda.
/// Want of memory alone refuses.
pub fn near(alloc: Global, first: &[Rect], second: &[Rect], d: i64) -> Result<Vec<Rect>, AllocError>
    requires proper { All IsProper second.now }
    requires bounded { All (IsBounded SET_EDGE) second.now }
    requires d { (pos 1 ≤ℤ d) × (d ≤ℤ MOST_REACH) }
    ensures { IfOk result (λ found. IsStrips (IsTooNear (IsInUnion first.now) (IsInUnion second.now) d) found.items) }
{
    let grown = dilated(alloc, second, d, d)?;
    let around = strips(alloc, grown.as_slice())?;
    common(alloc, first, around.as_slice())
}

/// The strips of the squares that lie in boxes of d inside a set, which is given as its strips.
fn opening(alloc: Global, whole: &[Rect], d: i64) -> Result<Vec<Rect>, AllocError>
    requires strips { IsStrips (IsInUnion whole.now) whole.now }
    requires bounded { All (IsBounded SET_EDGE) whole.now }
    requires d { (pos 1 ≤ℤ d) × (d ≤ℤ MOST_REACH) }
    ensures { IfOk result (λ found. IsStrips (LiesInBox (IsInUnion whole.now) d) found.items) }
{
    let corners = eroded(alloc, whole, 0, d - 1)?;
    let boxes = dilated(alloc, corners.as_slice(), 0, d - 1)?;
    strips(alloc, boxes.as_slice())
}

/// The strips of the squares that lie in no box of d outside a set.
fn closing(alloc: Global, set: &[Rect], d: i64) -> Result<Vec<Rect>, AllocError>
    requires proper { All IsProper set.now }
    requires bounded { All (IsBounded SET_EDGE) set.now }
    requires d { (pos 1 ≤ℤ d) × (d ≤ℤ MOST_REACH) }
    ensures { IfOk result (λ found. IsStrips (LiesInNoBox (IsOutside (IsInUnion set.now)) d) found.items) }
{
    let corners = dilated(alloc, set, d - 1, 0)?;
    let whole = strips(alloc, corners.as_slice())?;
    let rest = eroded(alloc, whole.as_slice(), d - 1, 0)?;
    strips(alloc, rest.as_slice())
}
