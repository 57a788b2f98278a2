//! Why a network is not graded.

use std::alloc::AllocError;
use thiserror::Error;

/// Why the vectors of a network are not graded.
#[derive(Debug, Drop, Error)]
pub enum GradeFault {
    /// The network has more faults than may be graded.
    #[error("too many faults")]
    TooManyFaults,
    #[error("out of memory")]
    Memory,
}

impl From<AllocError> for GradeFault {
    ghost use Rattle.std.specs.Prelude.{◌≡◌};
    ghost use Rattle.fault_grade.specs.declared.faults.GradeFault.TheVariants.{Memory};

    ghost from_gives = { λ _ fault. fault ≡ Memory };

    fn from(_error: AllocError) -> GradeFault {
        GradeFault::Memory
    }
}
