//! Why a file of rules is refused.

use std::alloc::AllocError;
use text_form::At;
use thiserror::Error;

/// Why a line of a file of rules is refused.
#[derive(Clone, Copy, Debug, PartialEq, Eq, Error)]
pub enum DrcFault {
    /// A line of no form.
    #[error("G1")]
    Form,
    /// An entry that means no type.
    #[error("G2")]
    NoLayer,
    /// A list of types of two planes.
    #[error("G3")]
    TwoPlanes,
    /// A distance that is too small or too large.
    #[error("G4")]
    Distance,
    /// A type in both lists of a separation.
    #[error("G5")]
    InBoth,
    /// One rule more than there may be.
    #[error("G6")]
    TooManyRules,
    #[error("out of memory")]
    Memory,
}

/// Where in a file of rules its first fault stands, and which fault it is.
pub type DrcAt = At<DrcFault>;

impl From<AllocError> for DrcFault {
    ghost use Rattle.std.specs.Prelude.{◌≡◌};
    ghost use Rattle.drc_rules.specs.declared.faults.DrcFault.TheVariants.{Memory};

    ghost from_gives = { λ _ fault. fault ≡ Memory };

    fn from(_error: AllocError) -> DrcFault {
        DrcFault::Memory
    }
}
