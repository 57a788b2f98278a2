//! Sets of squares that are grown and shrunk.
ghost use Rattle.std.specs.Prelude.{◌≡◌, All, IfOk, filter, map};
ghost use Rattle.geo_core.specs.Areas.{has_square};
ghost use Rattle.geo_core.specs.Covering.{IsProper};
ghost use Rattle.geo_core.specs.Strips.{IsInUnion, IsStrips};
ghost use Rattle.square_sets.specs.Reaches.{grown, upright_core, AreSameSquares, IsBounded, IsDilated, IsEroded, IsReach};

use crate::limits::SET_EDGE;
use geo_core::{PLANE_EDGE, Rect};
use geo_strips::strips;
use std::alloc::{AllocError, Global};

/// The rectangle of what its squares reach.
fn grown(area: &Rect, low: i64, high: i64) -> Rect
    requires proper { IsProper area.now }
    requires bounded { IsBounded SET_EDGE area.now }
    requires low { IsReach low }
    requires high { IsReach high }
    ensures { result ≡ grown low high area.now }
{
    Rect {
        xlo: area.xlo - low,
        ylo: area.ylo - low,
        xhi: area.xhi + high,
        yhi: area.yhi + high,
    }
}

/// Rectangles that cover what the squares of these reach: so far to the left and below, and so far to the right and above.
pub fn dilated(alloc: Global, rects: &[Rect], low: i64, high: i64) -> Result<Vec<Rect>, AllocError>
    requires proper { All IsProper rects.now }
    requires bounded { All (IsBounded SET_EDGE) rects.now }
    requires low { IsReach low }
    requires high { IsReach high }
    ensures cover { IfOk result (λ found. AreSameSquares (IsInUnion found.items) (IsDilated low high (IsInUnion rects.now))) }
    ensures proper { IfOk result (λ found. All IsProper found.items) }
    ensures bounded { IfOk result (λ found. All (IsBounded PLANE_EDGE) found.items) }
{
    let mut found = Vec::with_capacity(alloc, rects.len())?;
    for area in rects {
        found.push(grown(area, low, high))?;
    }
    Ok(found)
}

/// The rectangle less so many columns on the left and on the right, with rows for columns.
fn upright_core(area: &Rect, low: i64, high: i64) -> Rect
    requires proper { IsProper area.now }
    requires bounded { IsBounded PLANE_EDGE area.now }
    requires low { IsReach low }
    requires high { IsReach high }
    ensures { result ≡ upright_core low high area.now }
{
    Rect {
        xlo: area.ylo,
        ylo: area.xlo + low,
        xhi: area.yhi,
        yhi: area.xhi - high,
    }
}

/// The rectangles so made, of those that keep a column.
fn upright_cores(
    alloc: Global,
    rects: &[Rect],
    low: i64,
    high: i64,
) -> Result<Vec<Rect>, AllocError>
    requires proper { All IsProper rects.now }
    requires bounded { All (IsBounded PLANE_EDGE) rects.now }
    requires low { IsReach low }
    requires high { IsReach high }
    ensures { IfOk result (λ found. found.items ≡ filter has_square (map (upright_core low high) rects.now)) }
{
    let mut found = Vec::new(alloc);
    for area in rects {
        let core = upright_core(area, low, high);
        if core.has_square() {
            found.push(core)?;
        }
    }
    Ok(found)
}

/// Rectangles that cover the squares that reach squares of a set alone: so far to the left and below, and so far to the right and above.
/// The set is given as its strips.
pub fn eroded(alloc: Global, whole: &[Rect], low: i64, high: i64) -> Result<Vec<Rect>, AllocError>
    requires strips { IsStrips (IsInUnion whole.now) whole.now }
    requires bounded { All (IsBounded PLANE_EDGE) whole.now }
    requires low { IsReach low }
    requires high { IsReach high }
    ensures cover { IfOk result (λ found. AreSameSquares (IsInUnion found.items) (IsEroded low high (IsInUnion whole.now))) }
    ensures proper { IfOk result (λ found. All IsProper found.items) }
{
    let rows = upright_cores(alloc, whole, low, high)?;
    let columns = strips(alloc, rows.as_slice())?;
    upright_cores(alloc, columns.as_slice(), low, high)
}
