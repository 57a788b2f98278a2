//! Boxes as they are said: by length and width, and by the centre.
ghost use Rattle.std.specs.Prelude.{◌≡◌, ◌≤◌, ◌≤ℤ◌, ◌^◌, pos, true, unsigned_abs};
ghost use Rattle.cif_reading.specs.declared.limits.TheConstants.{MOST_FACTOR, MOST_SCALED};
ghost use Rattle.cif_reading.specs.Boxes.{area_is_in_range, area_is_whole, area_said, edges_are_whole, halved, has_short_side, high_edge};
ghost use Rattle.cif_reading.specs.Boxes.{is_in_range, low_edge};
ghost use Rattle.cif_reading.specs.Scales.{IsScale};

use crate::scales::{Scale, is_whole, scaled};
use cif_forms::{HIGHEST, LOWEST};
use geo_core::Rect;

/// Whether the number has 32 bits with sign.
pub fn is_in_range(z: i64) -> bool
    ensures value { result ≡ is_in_range z }
    ensures near { result ≡ true → unsigned_abs z ≤ 2 ^ 31 }
{
    LOWEST < z && z < HIGHEST
}

fn halved(scale: Scale) -> Scale
    requires { IsScale scale }
    ensures value { result ≡ halved scale }
    ensures up { unsigned_abs result.up ≤ MOST_FACTOR }
    ensures down { pos 1 ≤ℤ result.down }
{
    Scale {
        down: scale.down + scale.down,
        ..scale
    }
}

fn low_edge(centre: i64, size: i64) -> i64
    requires centre { unsigned_abs centre ≤ 2 ^ 31 }
    requires size { unsigned_abs size ≤ 2 ^ 31 }
    ensures value { result ≡ low_edge centre size }
    ensures near { unsigned_abs result ≤ MOST_SCALED }
{
    centre + centre - size
}

fn high_edge(centre: i64, size: i64) -> i64
    requires centre { unsigned_abs centre ≤ 2 ^ 31 }
    requires size { unsigned_abs size ≤ 2 ^ 31 }
    ensures value { result ≡ high_edge centre size }
    ensures near { unsigned_abs result ≤ MOST_SCALED }
{
    centre + centre + size
}

fn edges_are_whole(scale: Scale, centre: i64, size: i64) -> bool
    requires scale { IsScale scale }
    requires centre { unsigned_abs centre ≤ 2 ^ 31 }
    requires size { unsigned_abs size ≤ 2 ^ 31 }
    ensures { result ≡ edges_are_whole scale centre size }
{
    let half = halved(scale);
    is_whole(half, low_edge(centre, size)) && is_whole(half, high_edge(centre, size))
}

/// Whether a side is below 1.
#[tactic(auto, unfolding(crate::specs::Boxes::has_short_side))]
pub fn has_short_side(l: i64, w: i64) -> bool
    ensures { result ≡ has_short_side l w }
{
    l < 1 || w < 1
}

/// Whether all numbers of a box have 32 bits.
#[tactic(auto, unfolding(crate::specs::Boxes::area_is_in_range))]
pub fn area_is_in_range(l: i64, w: i64, x: i64, y: i64) -> bool
    ensures value { result ≡ area_is_in_range l w x y }
    ensures l { result ≡ true → unsigned_abs l ≤ 2 ^ 31 }
    ensures w { result ≡ true → unsigned_abs w ≤ 2 ^ 31 }
    ensures x { result ≡ true → unsigned_abs x ≤ 2 ^ 31 }
    ensures y { result ≡ true → unsigned_abs y ≤ 2 ^ 31 }
{
    is_in_range(l) && is_in_range(w) && is_in_range(x) && is_in_range(y)
}

/// Whether all edges of a box are whole when they are scaled.
#[tactic(auto, unfolding(crate::specs::Boxes::area_is_whole))]
pub fn area_is_whole(scale: Scale, l: i64, w: i64, x: i64, y: i64) -> bool
    requires scale { IsScale scale }
    requires l { unsigned_abs l ≤ 2 ^ 31 }
    requires w { unsigned_abs w ≤ 2 ^ 31 }
    requires x { unsigned_abs x ≤ 2 ^ 31 }
    requires y { unsigned_abs y ≤ 2 ^ 31 }
    ensures { result ≡ area_is_whole scale l w x y }
{
    edges_are_whole(scale, x, l) && edges_are_whole(scale, y, w)
}

/// The box, its edges scaled.
pub fn area_said(scale: Scale, l: i64, w: i64, x: i64, y: i64) -> Rect
    requires scale { IsScale scale }
    requires l { unsigned_abs l ≤ 2 ^ 31 }
    requires w { unsigned_abs w ≤ 2 ^ 31 }
    requires x { unsigned_abs x ≤ 2 ^ 31 }
    requires y { unsigned_abs y ≤ 2 ^ 31 }
    ensures { result ≡ area_said scale l w x y }
{
    let half = halved(scale);
    Rect {
        xlo: scaled(half, low_edge(x, l)),
        ylo: scaled(half, low_edge(y, w)),
        xhi: scaled(half, high_edge(x, l)),
        yhi: scaled(half, high_edge(y, w)),
    }
}
