//! The eight orientations in which a part of a layout may stand.
ghost use Rattle.std.specs.Prelude.{◌≡◌};
ghost use Rattle.std.specs.Option.{is_some};
ghost use Rattle.geo_core.specs.Images.{turns_x, turns_y};
ghost use Rattle.geo_core.specs.Orientation.{matrix, orient_of, is_orientation, product, after_turn, after_mirror, orient_then, orient_inverse};

/// One of the eight orientations that keep squares squares. `R0` leaves everything as it is, and
/// `R90`, `R180` and `R270` turn counterclockwise. `Mx` mirrors at the x axis, so y turns round, and
/// `My` at the y axis; `Mx90` and `My90` mirror so and then turn by a quarter.
#[derive(Clone, Copy, Debug, PartialEq, Eq)]
pub enum Orient {
    R0,
    R90,
    R180,
    R270,
    Mx,
    My,
    Mx90,
    My90,
}

impl Orient {
    /// The orientation that takes (x, y) to (a*x + b*y, d*x + e*y). `None` where none has these factors.
    #[tactic(auto, unfolding(crate::specs::Orientation::is_orientation))]
    pub fn of_matrix(a: i64, b: i64, d: i64, e: i64) -> Option<Orient>
        ensures found { result ≡ orient_of a b d e }
        ensures told { is_some result ≡ is_orientation a b d e }
    {
        match (a, b, d, e) {
            (1, 0, 0, 1) => Some(Orient::R0),
            (0, -1, 1, 0) => Some(Orient::R90),
            (-1, 0, 0, -1) => Some(Orient::R180),
            (0, 1, -1, 0) => Some(Orient::R270),
            (1, 0, 0, -1) => Some(Orient::Mx),
            (-1, 0, 0, 1) => Some(Orient::My),
            (0, 1, 1, 0) => Some(Orient::Mx90),
            (0, -1, -1, 0) => Some(Orient::My90),
            _ => None,
        }
    }

    /// A quarter turn, and then this orientation.
    fn after_turn(self) -> Orient
        ensures { result ≡ after_turn self }
    {
        match self {
            Orient::R0 => Orient::R90,
            Orient::R90 => Orient::R180,
            Orient::R180 => Orient::R270,
            Orient::R270 => Orient::R0,
            Orient::Mx => Orient::My90,
            Orient::My => Orient::Mx90,
            Orient::Mx90 => Orient::Mx,
            Orient::My90 => Orient::My,
        }
    }

    /// The y axis turned round, and then this orientation.
    fn after_mirror(self) -> Orient
        ensures { result ≡ after_mirror self }
    {
        match self {
            Orient::R0 => Orient::Mx,
            Orient::R90 => Orient::Mx90,
            Orient::R180 => Orient::My,
            Orient::R270 => Orient::My90,
            Orient::Mx => Orient::R0,
            Orient::My => Orient::R180,
            Orient::Mx90 => Orient::R90,
            Orient::My90 => Orient::R270,
        }
    }

    /// This orientation, and then the other.
    pub fn then(self, outer: Orient) -> Orient
        ensures value { result ≡ orient_then self outer }
        ensures matrices { matrix result ≡ product (matrix outer) (matrix self) }
    {
        match self {
            Orient::R0 => outer,
            Orient::R90 => outer.after_turn(),
            Orient::R180 => outer.after_turn().after_turn(),
            Orient::R270 => outer.after_turn().after_turn().after_turn(),
            Orient::Mx => outer.after_mirror(),
            Orient::My => outer.after_turn().after_turn().after_mirror(),
            Orient::Mx90 => outer.after_turn().after_mirror(),
            Orient::My90 => outer.after_turn().after_turn().after_turn().after_mirror(),
        }
    }

    /// The orientation that undoes this one.
    pub fn inverse(self) -> Orient
        ensures { result ≡ orient_inverse self }
    {
        match self {
            Orient::R90 => Orient::R270,
            Orient::R270 => Orient::R90,
            own_inverse => own_inverse,
        }
    }

    /// Whether the image's x axis is turned round.
    pub fn turns_x(self) -> bool
        ensures { result ≡ turns_x self }
    {
        matches!(self, Orient::R90 | Orient::R180 | Orient::My | Orient::My90)
    }

    /// Whether the image's y axis is turned round.
    pub fn turns_y(self) -> bool
        ensures { result ≡ turns_y self }
    {
        matches!(
            self,
            Orient::R180 | Orient::R270 | Orient::Mx | Orient::My90
        )
    }
}
