//! Where a part of a layout stands in the cell that uses it.
ghost use Rattle.std.specs.Prelude.{◌≡◌, ◌≢◌, ◌↔◌, if◌then◌else◌, IfSome, IfNone, pos, neg_ℤ, ◌≤ℤ◌};
ghost use Rattle.geo_core.specs.declared.transforms.Transform.{Transform as IsTransform};
ghost use Rattle.geo_core.specs.declared.squares.Square.{Square as OneSquare};
ghost use Rattle.geo_core.specs.Covering.{Covers};
ghost use Rattle.geo_core.specs.Images.{point_x, point_y, image, rect_image, composed, inverted, six_of, CentreGoesTo};
ghost use Rattle.geo_core.specs.Neighbours.{AreEdgeNeighbours};
ghost use Rattle.geo_core.specs.Reach.{MovesInReach, LiesInReach, SpansInReach};

use crate::limits::REACH;
use crate::orients::Orient;
use crate::squares::{Rect, Square};

/// Takes a child's coordinates to those of its parent: by the orientation, and then by `dx` to the
/// right and `dy` upward.
#[derive(Clone, Copy, Debug, PartialEq, Eq)]
pub struct Transform {
    pub orient: Orient,
    pub dx: i64,
    pub dy: i64,
}

impl Transform {
    /// The transform with `x' = v[0]*x + v[1]*y + v[2]` and `y' = v[3]*x + v[4]*y + v[5]`. `None` where
    /// no orientation has these factors.
    pub fn of_six(v: [i64; 6]) -> Option<Transform>
        ensures some { IfSome result (λ t. six_of t ≡ v) }
        ensures none { IfNone result ((t : IsTransform) → six_of t ≢ v) }
    {
        let [a, b, dx, d, e, dy] = v;
        match Orient::of_matrix(a, b, d, e) {
            Some(orient) => Some(Transform { orient, dx, dy }),
            None => None,
        }
    }

    /// The six numbers that `of_six` makes this transform of.
    pub fn six(&self) -> [i64; 6]
        ensures { result ≡ six_of self.now }
    {
        let (a, b, d, e) = match self.orient {
            Orient::R0 => (1, 0, 0, 1),
            Orient::R90 => (0, -1, 1, 0),
            Orient::R180 => (-1, 0, 0, -1),
            Orient::R270 => (0, 1, -1, 0),
            Orient::Mx => (1, 0, 0, -1),
            Orient::My => (-1, 0, 0, 1),
            Orient::Mx90 => (0, 1, 1, 0),
            Orient::My90 => (0, -1, -1, 0),
        };
        [a, b, self.dx, d, e, self.dy]
    }

    /// First this transform, and then the outer one.
    pub fn then(&self, outer: &Transform) -> Transform
        requires inner_move { MovesInReach self.now }
        requires outer_move { MovesInReach outer.now }
        ensures value { result ≡ composed self.now outer.now }
        ensures squares { (s : OneSquare) → image result s ≡ image outer.now (image self.now s) }
    {
        let (dx, dy) = outer.point(self.dx, self.dy);
        Transform {
            orient: self.orient.then(outer.orient),
            dx,
            dy,
        }
    }

    /// The transform that undoes this one.
    pub fn inverse(&self) -> Transform
        requires { MovesInReach self.now }
        ensures value { result ≡ inverted self.now }
        ensures back { (s : OneSquare) → image result (image self.now s) ≡ s }
        ensures forth { (s : OneSquare) → image self.now (image result s) ≡ s }
    {
        let turned_back = Transform {
            orient: self.orient.inverse(),
            dx: 0,
            dy: 0,
        };
        let (dx, dy) = turned_back.point(-self.dx, -self.dy);
        Transform {
            orient: turned_back.orient,
            dx,
            dy,
        }
    }

    /// The image of a square.
    pub fn square(&self, s: Square) -> Square
        requires moves { MovesInReach self.now }
        requires lies { LiesInReach s }
        ensures value { result ≡ image self.now s }
        ensures centre { CentreGoesTo self.now s result }
        ensures one_to_one { (q : OneSquare) → image self.now q ≡ result → q ≡ s }
        ensures neighbours { (q : OneSquare) → AreEdgeNeighbours s q ↔ AreEdgeNeighbours result (image self.now q) }
    {
        let (left, bottom) = self.point(s.x, s.y);
        let (right, top) = self.point(s.x + 1, s.y + 1);
        Square {
            x: left.min(right),
            y: bottom.min(top),
        }
    }

    /// The image of a rectangle: the squares of it are the images of the rectangle's.
    pub fn rect(&self, r: Rect) -> Rect
        requires moves { MovesInReach self.now }
        requires spans { SpansInReach r }
        ensures value { result ≡ rect_image self.now r }
        ensures squares { (s : OneSquare) → Covers r s ↔ Covers result (image self.now s) }
    {
        let (left, bottom) = self.point(r.xlo, r.ylo);
        let (right, top) = self.point(r.xhi, r.yhi);
        let (xlo, xhi) = ends(self.orient.turns_x(), left, right);
        let (ylo, yhi) = ends(self.orient.turns_y(), bottom, top);
        Rect { xlo, ylo, xhi, yhi }
    }

    /// Where a point goes.
    fn point(&self, x: i64, y: i64) -> (i64, i64)
        requires moves { MovesInReach self.now }
        requires x_low { neg_ℤ REACH ≤ℤ x }
        requires x_high { x ≤ℤ REACH }
        requires y_low { neg_ℤ REACH ≤ℤ y }
        requires y_high { y ≤ℤ REACH }
        ensures across { result.0 ≡ point_x self.now x y }
        ensures up { result.1 ≡ point_y self.now x y }
    {
        match self.orient {
            Orient::R0 => (self.dx + x, self.dy + y),
            Orient::R90 => (self.dx - y, self.dy + x),
            Orient::R180 => (self.dx - x, self.dy - y),
            Orient::R270 => (self.dx + y, self.dy - x),
            Orient::Mx => (self.dx + x, self.dy - y),
            Orient::My => (self.dx - x, self.dy + y),
            Orient::Mx90 => (self.dx + y, self.dy + x),
            Orient::My90 => (self.dx - y, self.dy - x),
        }
    }
}

/// The ends of a side, exchanged where the side is turned round.
fn ends(turned: bool, low: i64, high: i64) -> (i64, i64)
    ensures low { result.0 ≡ (if turned then high else low) }
    ensures high { result.1 ≡ (if turned then low else high) }
{
    if turned { (high, low) } else { (low, high) }
}
