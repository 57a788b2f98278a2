//! Why records mean no circuit.

use crate::limits::CircuitLimit;
use names_lists::Name;
use std::alloc::{AllocError, AllocFailed};
use thiserror::Error;

/// Why records mean no circuit at their root, or why it was not made.
#[derive(Debug, Drop, Error)]
pub enum FlatFault {
    /// A use leads to this cell, which has no record.
    #[error("no cell")]
    NoCell(Name),
    /// A use leads to this cell, which it is itself at or below.
    #[error("cycle")]
    Cycle(Name),
    /// A number is past its limit.
    #[error("too many")]
    TooMany(CircuitLimit),
    /// The record of this cell has another number of classes than the root's.
    #[error("classes")]
    Classes(Name),
    /// In the record of the first, a cell, a merge has the second for a path, which leads to no node.
    #[error("no path")]
    NoPath(Name, Name),
    /// There was not enough memory.
    #[error("out of memory")]
    Memory,
}

impl From<AllocError> for FlatFault {
    ghost use Rattle.std.specs.Prelude.{◌≡◌};
    ghost use Rattle.circuit_model.specs.declared.faults.FlatFault.TheVariants.{Memory};

    ghost from_gives = { λ _ fault. fault ≡ Memory };

    fn from(_error: AllocError) -> FlatFault {
        FlatFault::Memory
    }
}

impl<T: Drop> From<AllocFailed<T>> for FlatFault {
    ghost use Rattle.std.specs.Prelude.{◌≡◌};
    ghost use Rattle.circuit_model.specs.declared.faults.FlatFault.TheVariants.{Memory};

    ghost from_gives = { λ _ fault. fault ≡ Memory };

    fn from(_error: AllocFailed<T>) -> FlatFault {
        FlatFault::Memory
    }
}
