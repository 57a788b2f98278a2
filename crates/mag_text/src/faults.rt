//! Why a mag text is refused.

use std::alloc::AllocError;
use text_form::At;
use thiserror::Error;

/// Why a mag text is not read.
#[derive(Clone, Copy, Debug, PartialEq, Eq, Error)]
pub enum MagFault {
    /// The first line isn't `magic`, or there is none.
    #[error("no magic")]
    Magic,
    /// A line of no form, or one that stands where it can't.
    #[error("bad line")]
    BadLine,
    /// A name that no layer of the technology has.
    #[error("no such layer")]
    NoLayer,
    /// A rectangle without a square, or a label's whose edges are exchanged.
    #[error("empty rectangle")]
    EmptyRect,
    /// A number that is out of its range, or an array of too many elements.
    #[error("out of range")]
    Range,
    /// A transform that is not one of the eight orientations.
    #[error("not an orientation")]
    Transform,
    /// The id of an earlier use.
    #[error("a use's id stands twice")]
    UseTwice,
    /// The last line was read and was not `<< end >>`.
    #[error("no end")]
    NoEnd,
    /// A line of a kind that is left out: `tri`, `flabel` or `port`.
    #[error("not here")]
    NotHere,
    #[error("out of memory")]
    Memory,
}

/// Where in a mag text its first fault stands, and which fault it is.
pub type MagAt = At<MagFault>;

impl From<AllocError> for MagFault {
    ghost use Rattle.std.specs.Prelude.{◌≡◌};
    ghost use Rattle.mag_text.specs.declared.faults.MagFault.TheVariants.{Memory};

    ghost from_gives = { λ _ fault. fault ≡ Memory };

    fn from(_error: AllocError) -> MagFault {
        MagFault::Memory
    }
}
