//! Why a circuit file is refused.

use std::alloc::AllocError;
use thiserror::Error;

/// Why a circuit file is not written.
#[derive(Clone, Copy, Debug, PartialEq, Eq, Error)]
pub enum ExtFault {
    /// The text would have too many bytes.
    #[error("too long")]
    TooLong,
    #[error("out of memory")]
    Memory,
}

impl From<AllocError> for ExtFault {
    ghost use Rattle.std.specs.Prelude.{◌≡◌};
    ghost use Rattle.ext_text.specs.declared.faults.ExtFault.TheVariants.{Memory};

    ghost from_gives = { λ _ fault. fault ≡ Memory };

    fn from(_error: AllocError) -> ExtFault {
        ExtFault::Memory
    }
}
