//! Why a text is not expanded.

use crate::limits::CifLimit;
use std::alloc::{AllocError, AllocFailed};
use thiserror::Error;

/// What is wrong with the expansion of a text.
#[derive(Clone, Copy, Debug, PartialEq, Eq, Error)]
pub enum ExpansionFault {
    /// The text stands for too many of these. Depth comes before elements, and elements before boxes.
    #[error("too many")]
    TooMany(CifLimit),
    /// A box that the top level leads to has a coordinate that is more than `PAINT_EDGE` in absolute value, and no limit is passed.
    #[error("out of range")]
    OutOfRange,
    /// There was not enough memory.
    #[error("out of memory")]
    Memory,
}

impl From<AllocError> for ExpansionFault {
    ghost use Rattle.std.specs.Prelude.{◌≡◌};
    ghost use Rattle.cif_expansion.specs.declared.faults.ExpansionFault.TheVariants.{Memory};

    ghost from_gives = { λ _ fault. fault ≡ Memory };

    fn from(_error: AllocError) -> ExpansionFault {
        ExpansionFault::Memory
    }
}

impl<T: Drop> From<AllocFailed<T>> for ExpansionFault {
    ghost use Rattle.std.specs.Prelude.{◌≡◌};
    ghost use Rattle.cif_expansion.specs.declared.faults.ExpansionFault.TheVariants.{Memory};

    ghost from_gives = { λ _ fault. fault ≡ Memory };

    fn from(_error: AllocFailed<T>) -> ExpansionFault {
        ExpansionFault::Memory
    }
}
