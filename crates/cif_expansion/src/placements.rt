//! Where an instance of a symbol stands.
ghost use Rattle.std.specs.Prelude.{◌≡◌, ◌↔◌, ◌^◌, pos, All, IsTrue, SomeIff, if◌then◌else◌};
ghost use Rattle.geo_core.specs.Images.{composed, identity, point_x, point_y, rect_image};
ghost use Rattle.cif_model.specs.Cifs.{IsLawfulMove};
ghost use Rattle.cif_model.specs.Meanings.{moved, transform_of, turned};
ghost use Rattle.cif_expansion.specs.steps.WideRects.{area_of};
ghost use Rattle.cif_expansion.specs.Reach.{IsAtMost, IsPaintable, LiesInRange, MovesWithin, call_reach, chain_reach};

use cif_model::CifMove;
use geo_core::{Orient, PAINT_EDGE, Rect};
use std::marker::Model;

/// Takes a symbol's coordinates to those of the top level: by the orientation, and then by `dx` to the right and `dy` upward, in CIF units.
/// The steps of a call may lead far out and back, so a move has 128 bits. Contracts see it as the transform.
#[derive(Debug, Drop)]
pub struct Placement {
    orient: Orient,
    dx: i128,
    dy: i128,
}

/// A rectangle that may lie anywhere.
#[derive(Debug, Drop)]
struct WideRect {
    xlo: i128,
    ylo: i128,
    xhi: i128,
    yhi: i128,
}

impl Model for Placement {
    ghost use Rattle.geo_core.specs.declared.transforms.Transform.{Transform};

    ghost Value = { Transform };

    ghost view = { λ placement. record { orient = placement.orient; dx = placement.dx; dy = placement.dy } };
}

impl Placement {
    /// Leaves everything in its place.
    pub fn identity() -> Placement
        ensures { result ≡ identity }
    {
        Placement::turned(Orient::R0)
    }

    // Turns alone.
    fn turned(orient: Orient) -> Placement
        ensures { result ≡ record { orient = orient; dx = pos 0; dy = pos 0 } }
    {
        Placement {
            orient,
            dx: 0,
            dy: 0,
        }
    }

    // One step of a call.
    fn of_step(step: &CifMove) -> Placement
        requires { IsLawfulMove step.now }
        ensures value { result ≡ transform_of step.now }
        ensures near { MovesWithin (2 ^ 53) result }
    {
        match *step {
            CifMove::Shift(dx, dy) => Placement {
                orient: Orient::R0,
                dx: i128::from(dx),
                dy: i128::from(dy),
            },
            CifMove::MirrorX => Placement::turned(Orient::My),
            CifMove::MirrorY => Placement::turned(Orient::Mx),
            CifMove::Turn(quarters) => Placement::turned(quarter_turns(quarters)),
        }
    }

    /// The steps of a call taken together, from left to right.
    pub fn of_steps(steps: &[CifMove]) -> Placement
        requires { All IsLawfulMove steps.now }
        ensures value { result ≡ moved steps.now }
        ensures near { MovesWithin call_reach result }
    {
        let mut placement = Placement::identity();
        for step in steps {
            placement = placement.then(&Placement::of_step(step));
        }
        placement
    }

    /// First this placement, and then the outer one.
    pub fn then(&self, outer: &Placement) -> Placement
        requires inner_move { MovesWithin chain_reach self.now }
        requires outer_move { MovesWithin chain_reach outer.now }
        ensures { result ≡ composed self.now outer.now }
    {
        let (dx, dy) = outer.point(self.dx, self.dy);
        Placement {
            orient: self.orient.then(outer.orient),
            dx,
            dy,
        }
    }

    /// Where a box comes to lie, if it lies within the range.
    pub fn rect(&self, area: &Rect) -> Option<Rect>
        requires { MovesWithin chain_reach self.now }
        ensures { SomeIff result (LiesInRange (rect_image self.now area.now)) (rect_image self.now area.now) }
    {
        within_range(&self.image(area))
    }

    // Where a box comes to lie.
    fn image(&self, area: &Rect) -> WideRect
        requires { MovesWithin chain_reach self.now }
        ensures { area_of result ≡ rect_image self.now area.now }
    {
        let (left, bottom) = self.corner(area.xlo, area.ylo);
        let (right, top) = self.corner(area.xhi, area.yhi);
        let (xlo, xhi) = ends(self.orient.turns_x(), left, right);
        let (ylo, yhi) = ends(self.orient.turns_y(), bottom, top);
        WideRect { xlo, ylo, xhi, yhi }
    }

    // Where a corner of a box goes.
    fn corner(&self, x: i64, y: i64) -> (i128, i128)
        requires { MovesWithin chain_reach self.now }
        ensures across { result.0 ≡ point_x self.now x y }
        ensures up { result.1 ≡ point_y self.now x y }
    {
        self.point(i128::from(x), i128::from(y))
    }

    // Where a point goes.
    fn point(&self, x: i128, y: i128) -> (i128, i128)
        requires moves { MovesWithin chain_reach self.now }
        requires across { IsAtMost chain_reach x }
        requires up { IsAtMost chain_reach y }
        ensures across { result.0 ≡ point_x self.now x y }
        ensures up { result.1 ≡ point_y self.now x y }
    {
        match self.orient {
            Orient::R0 => (self.dx + x, self.dy + y),
            Orient::R90 => (self.dx - y, self.dy + x),
            Orient::R180 => (self.dx - x, self.dy - y),
            Orient::R270 => (self.dx + y, self.dy - x),
            Orient::Mx => (self.dx + x, self.dy - y),
            Orient::My => (self.dx - x, self.dy + y),
            Orient::Mx90 => (self.dx + y, self.dy + x),
            Orient::My90 => (self.dx - y, self.dy - x),
        }
    }
}

// So many quarter turns.
fn quarter_turns(quarters: u8) -> Orient
    ensures { result ≡ turned quarters }
{
    match quarters {
        0 => Orient::R0,
        1 => Orient::R90,
        2 => Orient::R180,
        _ => Orient::R270,
    }
}

// The ends of a side, exchanged where the side is turned round.
fn ends(turned: bool, low: i128, high: i128) -> (i128, i128)
    ensures low { result.0 ≡ (if turned then high else low) }
    ensures high { result.1 ≡ (if turned then low else high) }
{
    if turned { (high, low) } else { (low, high) }
}

// The rectangle, if it lies within the range of paint.
fn within_range(area: &WideRect) -> Option<Rect>
    ensures { SomeIff result (LiesInRange (area_of area.now)) (area_of area.now) }
{
    if !lies_in_range(area) {
        return None;
    }
    Some(Rect {
        xlo: area.xlo as i64,
        ylo: area.ylo as i64,
        xhi: area.xhi as i64,
        yhi: area.yhi as i64,
    })
}

// Whether the rectangle lies within the range of paint.
fn lies_in_range(area: &WideRect) -> bool
    ensures { IsTrue result ↔ LiesInRange (area_of area.now) }
{
    are_paintable(area.xlo, area.xhi) && are_paintable(area.ylo, area.yhi)
}

// Whether paint may have both coordinates.
fn are_paintable(low: i128, high: i128) -> bool
    ensures { IsTrue result ↔ (IsPaintable low × IsPaintable high) }
{
    is_paintable(low) && is_paintable(high)
}

// Whether paint may have this coordinate.
fn is_paintable(z: i128) -> bool
    ensures { IsTrue result ↔ IsPaintable z }
{
    let edge = i128::from(PAINT_EDGE);
    -edge <= z && z <= edge
}
