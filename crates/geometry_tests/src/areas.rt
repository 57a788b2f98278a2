//! Rectangles and pieces of tables, and tests of what the calls ask of them.
ghost use Rattle.std.specs.Prelude.{◌≡◌, ◌⊎◌, ◌≤ℤ◌, IfOk, IsTrue, All, AllPairs, map};
ghost use Rattle.geo_core.specs.Covering.{IsProper};
ghost use Rattle.geo_core.specs.Areas.{AreDisjoint, IsNear};

use geo_core::{PLANE_EDGE, Piece, Rect};
use std::alloc::{AllocError, Global};

/// The bounds `xlo ylo xhi yhi` of a rectangle in a table.
pub type Bounds = [i64; 4];

pub fn rect(bounds: Bounds) -> Rect {
    let [xlo, ylo, xhi, yhi] = bounds;
    Rect { xlo, ylo, xhi, yhi }
}

pub fn rects(alloc: Global, table: &[Bounds]) -> Result<Vec<Rect>, AllocError> {
    let mut found = Vec::with_capacity(alloc, table.len())?;
    for bounds in table {
        found.push(rect(*bounds))?;
    }
    Ok(found)
}

pub fn pieces(alloc: Global, table: &[(Bounds, u8)]) -> Result<Vec<Piece>, AllocError> {
    let mut found = Vec::with_capacity(alloc, table.len())?;
    for (bounds, value) in table {
        found.push(Piece {
            area: rect(*bounds),
            value: *value,
        })?;
    }
    Ok(found)
}

/// Whether a rectangle has a square and lies between the edges of planes.
pub fn is_sound(area: &Rect) -> bool
    ensures proper { IsTrue result → IsProper area.now }
    ensures near { IsTrue result → IsNear area.now }
{
    area.xlo < area.xhi
        && area.ylo < area.yhi
        && -PLANE_EDGE < area.xlo
        && -PLANE_EDGE < area.ylo
        && area.xhi < PLANE_EDGE
        && area.yhi < PLANE_EDGE
}

pub fn are_sound(rects: &[Rect]) -> bool
    ensures proper { IsTrue result → All IsProper rects.now }
    ensures near { IsTrue result → All IsNear rects.now }
{
    for area in rects {
        if !is_sound(area) {
            return false;
        }
    }
    true
}

fn are_apart(a: &Rect, b: &Rect) -> bool
    ensures { IsTrue result → AreDisjoint a.now b.now }
{
    a.xhi <= b.xlo || b.xhi <= a.xlo || a.yhi <= b.ylo || b.yhi <= a.ylo
}

/// Whether no two of a few rectangles have a square in common.
fn are_all_apart(rects: &[Rect]) -> bool
    ensures { IsTrue result → AllPairs AreDisjoint rects.now }
{
    for later in 0..rects.len() {
        for earlier in 0..later {
            if !are_apart(&rects[earlier], &rects[later]) {
                return false;
            }
        }
    }
    true
}

/// Whether a rectangle lies below another, or in the same rows and to the left of it.
fn goes_on(a: &Rect, b: &Rect) -> bool
    ensures { IsTrue result → (a.now.yhi ≤ℤ b.now.ylo) ⊎ ((a.now.ylo ≡ b.now.ylo) × (a.now.yhi ≡ b.now.yhi) × (a.now.xhi ≤ℤ b.now.xlo)) }
{
    a.yhi <= b.ylo || a.ylo == b.ylo && a.yhi == b.yhi && a.xhi <= b.xlo
}

/// Whether rectangles stand in rows, so that no two of them have a square in common.
fn stand_in_rows(rects: &[Rect]) -> bool
    requires { All IsProper rects.now }
    ensures { IsTrue result → AllPairs AreDisjoint rects.now }
{
    for place in 1..rects.len() {
        if !goes_on(&rects[place - 1], &rects[place]) {
            return false;
        }
    }
    true
}

/// Whether no two of the rectangles have a square in common. Many must stand in rows.
fn lie_apart(rects: &[Rect]) -> bool
    requires { All IsProper rects.now }
    ensures { IsTrue result → AllPairs AreDisjoint rects.now }
{
    if rects.len() < 100 {
        are_all_apart(rects)
    } else {
        stand_in_rows(rects)
    }
}

/// Whether rectangles are as calls on several ask: sound, and with no square in common.
pub fn are_several(rects: &[Rect]) -> bool
    ensures proper { IsTrue result → All IsProper rects.now }
    ensures near { IsTrue result → All IsNear rects.now }
    ensures apart { IsTrue result → AllPairs AreDisjoint rects.now }
{
    if !are_sound(rects) {
        return false;
    }
    lie_apart(rects)
}

/// The rectangles of pieces, in their order.
fn rects_of(alloc: Global, pieces: &[Piece]) -> Result<Vec<Rect>, AllocError>
    ensures { IfOk result (λ areas. areas.items ≡ map (λ piece. piece.area) pieces.now) }
{
    pieces.iter().map(|piece| piece.area).collect(alloc)
}

/// Whether pieces can be set on a plane at once.
pub fn are_settable(alloc: Global, pieces: &[Piece]) -> Result<bool, AllocError>
    ensures proper { IfOk result (λ fit. IsTrue fit → All (λ piece. IsProper piece.area) pieces.now) }
    ensures near { IfOk result (λ fit. IsTrue fit → All (λ piece. IsNear piece.area) pieces.now) }
    ensures apart { IfOk result (λ fit. IsTrue fit → AllPairs (λ a b. AreDisjoint a.area b.area) pieces.now) }
{
    let rects = rects_of(alloc, pieces)?;
    Ok(are_several(rects.as_slice()))
}
