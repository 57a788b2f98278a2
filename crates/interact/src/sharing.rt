//! The areas in which boxes are near each other.
ghost use Rattle.std.specs.Prelude.{◌≡◌, IfOk, All, map};
ghost use Rattle.geo_core.specs.declared.squares.Rect.{Rect as OneRect};
ghost use Rattle.geo_core.specs.Areas.{widened, LiesWithin};
ghost use Rattle.geo_core.specs.Strips.{IsStrips};
ghost use Rattle.interact.specs.NearBoxes.{IsNearBox, IsShared};

use crate::sweep::shared_runs;
use geo_core::Rect;
use geo_strips::strips_of_runs;
use std::alloc::{AllocError, Global};

/// The strips of the squares that lie in two of the boxes, each grown by one on every side. Two equal boxes are two.
///
/// The bounds of a box are below 2^28 in absolute value, and it may be without a square, as the hull of a point is. No area goes past what goes
/// round all the boxes so grown. Want of memory alone refuses.
pub fn areas(alloc: Global, boxes: &[Rect]) -> Result<Vec<Rect>, AllocError>
    requires { All IsNearBox boxes.now }
    ensures strips { IfOk result (λ areas. IsStrips (IsShared boxes.now) areas.items) }
    ensures within { IfOk result (λ areas. (around : OneRect) → All (λ area. LiesWithin (widened area) around) boxes.now
        → All (λ area. LiesWithin area around) areas.items) }
{
    let widened = widened_boxes(alloc, boxes)?;
    let runs = shared_runs(alloc, widened.as_slice())?;
    strips_of_runs(alloc, runs)
}

/// The boxes, each grown by one on every side.
fn widened_boxes(alloc: Global, boxes: &[Rect]) -> Result<Vec<Rect>, AllocError>
    requires { All IsNearBox boxes.now }
    ensures { IfOk result (λ found. found.items ≡ map widened boxes.now) }
{
    let mut found = Vec::with_capacity(alloc, boxes.len())?;
    for area in boxes {
        found.push(area.widened())?;
    }
    Ok(found)
}
