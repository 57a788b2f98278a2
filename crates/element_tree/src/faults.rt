//! Why a walk ends early.

use std::alloc::{AllocError, AllocFailed};
use thiserror::Error;

/// A use, by the number of its cell and its place there.
#[derive(Clone, Copy, Debug, PartialEq, Eq)]
pub struct UsePlace {
    pub cell: usize,
    pub at: usize,
}

/// Why a walk ends early.
#[derive(Clone, Copy, Debug, PartialEq, Eq, Error)]
pub enum WalkFault {
    /// The use leads to no cell.
    #[error("no cell")]
    NoCell(UsePlace),
    /// The use leads to a cell that it is itself at or below.
    #[error("cycle")]
    Cycle(UsePlace),
    /// There was not enough memory.
    #[error("out of memory")]
    Memory,
}

impl From<AllocError> for WalkFault {
    ghost use Rattle.std.specs.Prelude.{◌≡◌};
    ghost use Rattle.element_tree.specs.declared.faults.WalkFault.TheVariants.{Memory};

    ghost from_gives = { λ _ fault. fault ≡ Memory };

    fn from(_error: AllocError) -> WalkFault {
        WalkFault::Memory
    }
}

impl<T: Drop> From<AllocFailed<T>> for WalkFault {
    ghost use Rattle.std.specs.Prelude.{◌≡◌};
    ghost use Rattle.element_tree.specs.declared.faults.WalkFault.TheVariants.{Memory};

    ghost from_gives = { λ _ fault. fault ≡ Memory };

    fn from(_error: AllocFailed<T>) -> WalkFault {
        WalkFault::Memory
    }
}
