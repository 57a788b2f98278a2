//! Why a cell is not written.

use std::alloc::AllocError;
use thiserror::Error;

/// Why a cell is not written.
#[derive(Clone, Copy, Debug, PartialEq, Eq, Error)]
pub enum CifWriteFault {
    /// The text would have too many bytes.
    #[error("too long")]
    TooLong,
    #[error("out of memory")]
    Memory,
}

impl From<AllocError> for CifWriteFault {
    ghost use Rattle.std.specs.Prelude.{◌≡◌};
    ghost use Rattle.cif_writing.specs.declared.faults.CifWriteFault.TheVariants.{Memory};

    ghost from_gives = { λ _ fault. fault ≡ Memory };

    fn from(_error: AllocError) -> CifWriteFault {
        CifWriteFault::Memory
    }
}
