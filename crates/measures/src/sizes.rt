//! What tiles and contacts count in a class.
ghost use Rattle.std.specs.Prelude.{◌≡◌, ◌<◌, ◌^◌, pos, ◌≤ℤ◌, ◌<ℤ◌};
ghost use Rattle.geo_core.specs.Areas.{IsNear};
ghost use Rattle.geo_core.specs.Covering.{IsProper};
ghost use Rattle.flood_nodes.specs.RectContacts.Squares.{area_of, perimeter_of};
ghost use Rattle.layout_model.specs.Technologies.{class_of};
ghost use Rattle.measures.specs.steps.Sizes.{area_in, perimeter_in, shared_in};

use geo_core::Rect;
use layout_model::RegionTile;
use tech_model::{ClassRec, TypeId};

/// How many squares the rectangle has. It has one, and each bound is below 2^28 in absolute value.
pub fn area_of(rect: &Rect) -> i64
    requires proper { IsProper rect.now }
    requires near { IsNear rect.now }
    ensures { result ≡ area_of rect.now }
{
    (rect.xhi - rect.xlo) * (rect.yhi - rect.ylo)
}

/// How many edges lead out of the rectangle, which has a square and such bounds.
pub fn perimeter_of(rect: &Rect) -> i64
    requires proper { IsProper rect.now }
    requires near { IsNear rect.now }
    ensures { result ≡ perimeter_of rect.now }
{
    2 * ((rect.xhi - rect.xlo) + (rect.yhi - rect.ylo))
}

/// Whether the type is of the class.
fn is_of(class: &ClassRec, kind: TypeId) -> bool
    ensures { result ≡ (class_of class.now).contains kind.0 }
{
    class.types.items().iter().any(|member| member.0 == kind.0)
}

/// The area that the tile counts in the class.
pub fn area_in(class: &ClassRec, tile: &RegionTile) -> i64
    requires proper { IsProper tile.now.area }
    requires near { IsNear tile.now.area }
    ensures { result ≡ area_in (class_of class.now).contains tile.now }
{
    if is_of(class, tile.kind) {
        area_of(&tile.area)
    } else {
        0
    }
}

/// The perimeter that the tile counts in the class, by itself.
pub fn perimeter_in(class: &ClassRec, tile: &RegionTile) -> i64
    requires proper { IsProper tile.now.area }
    requires near { IsNear tile.now.area }
    ensures { result ≡ perimeter_in (class_of class.now).contains tile.now }
{
    if is_of(class, tile.kind) {
        perimeter_of(&tile.area)
    } else {
        0
    }
}

/// What two tiles that share an edge of this length take off the perimeter of each.
pub fn shared_in(class: &ClassRec, first: &RegionTile, second: &RegionTile, length: i64) -> i64
    requires { pos 0 <ℤ length }
    ensures { result ≡ shared_in (class_of class.now).contains first.now second.now length }
{
    if is_of(class, first.kind) && is_of(class, second.kind) {
        -length
    } else {
        0
    }
}
