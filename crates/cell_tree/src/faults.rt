//! Why a call of this crate is refused.

use crate::sizes::Dimension;
use std::alloc::AllocError;
use thiserror::Error;

/// Why an edit is refused.
#[derive(Clone, Copy, Debug, PartialEq, Eq, Error)]
pub enum TreeFault {
    /// The cell at this position would be its own descendant.
    #[error("a cell would be its own descendant")]
    Cycle(usize),
    /// Some cell would have too many uses.
    #[error("too many uses")]
    TooManyUses,
    /// Some cell would pass the limit of this dimension.
    #[error("passes a limit")]
    Passed(Dimension),
    /// There was not enough memory.
    #[error("out of memory")]
    Memory,
}

impl From<AllocError> for TreeFault {
    ghost use Rattle.std.specs.Prelude.{◌≡◌};
    ghost use Rattle.cell_tree.specs.declared.faults.TreeFault.TheVariants.{Memory};

    ghost from_gives = { λ _ fault. fault ≡ Memory };

    fn from(_error: AllocError) -> TreeFault {
        TreeFault::Memory
    }
}
