//! Squares of the grid, rectangles of squares, and rectangles that carry a value.
ghost use Rattle.std.specs.Prelude.{◌≡◌};
ghost use Rattle.geo_core.specs.Areas.{common_rect, corner_of, has_square, joined_rect, widened, IsNear};

/// One square of the grid, named by its lower left corner. All lengths are in lambda.
#[derive(Clone, Copy, Debug, PartialEq, Eq)]
pub struct Square {
    pub x: i64,
    pub y: i64,
}

/// The squares from `xlo` on and below `xhi`, in the rows from `ylo` on and below `yhi`.
/// It has no square unless `xlo < xhi` and `ylo < yhi`.
#[derive(Clone, Copy, Debug, PartialEq, Eq)]
pub struct Rect {
    pub xlo: i64,
    pub ylo: i64,
    pub xhi: i64,
    pub yhi: i64,
}

impl Rect {
    /// Whether the rectangle has a square.
    pub fn has_square(&self) -> bool
        ensures { result ≡ has_square self.now }
    {
        self.xlo < self.xhi && self.ylo < self.yhi
    }

    /// The rectangle of the squares that two rectangles have in common. It has none if they have none.
    pub fn common(&self, other: &Rect) -> Rect
        ensures { result ≡ common_rect self.now other.now }
    {
        Rect {
            xlo: self.xlo.max(other.xlo),
            ylo: self.ylo.max(other.ylo),
            xhi: self.xhi.min(other.xhi),
            yhi: self.yhi.min(other.yhi),
        }
    }

    /// The smallest rectangle that goes round both.
    pub fn joined(&self, other: &Rect) -> Rect
        ensures { result ≡ joined_rect self.now other.now }
    {
        Rect {
            xlo: self.xlo.min(other.xlo),
            ylo: self.ylo.min(other.ylo),
            xhi: self.xhi.max(other.xhi),
            yhi: self.yhi.max(other.yhi),
        }
    }

    /// The rectangle, grown by one on every side. Its bounds are below 2^28 in absolute value.
    pub fn widened(&self) -> Rect
        requires { IsNear self.now }
        ensures { result ≡ widened self.now }
    {
        Rect {
            xlo: self.xlo - 1,
            ylo: self.ylo - 1,
            xhi: self.xhi + 1,
            yhi: self.yhi + 1,
        }
    }

    /// Its lower left square, where it has one.
    pub fn corner(&self) -> Square
        ensures { result ≡ corner_of self.now }
    {
        Square {
            x: self.xlo,
            y: self.ylo,
        }
    }
}

/// A rectangle whose squares all have one value.
#[derive(Clone, Copy, Debug, PartialEq, Eq)]
pub struct Piece {
    pub area: Rect,
    pub value: u8,
}
