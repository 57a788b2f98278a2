//! Why a vector file is refused.

use names_lists::Name;
use std::alloc::AllocError;
use text_form::At;
use thiserror::Error;

/// Why a line of a vector file is refused.
#[derive(Debug, Drop, Error)]
pub enum VecFault {
    /// A line of no form, or one that would change power or ground.
    #[error("no vector line")]
    Vector,
    /// The network has no node of this name.
    #[error("no such node")]
    NoNode(Name),
    #[error("out of memory")]
    Memory,
}

/// Where in a vector file its first fault stands, and which fault it is.
pub type VecAt = At<VecFault>;

impl From<AllocError> for VecFault {
    ghost use Rattle.std.specs.Prelude.{◌≡◌};
    ghost use Rattle.vector_files.specs.declared.faults.VecFault.TheVariants.{Memory};

    ghost from_gives = { λ _ fault. fault ≡ Memory };

    fn from(_error: AllocError) -> VecFault {
        VecFault::Memory
    }
}
