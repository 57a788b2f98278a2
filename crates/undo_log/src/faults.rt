//! Why an edit is not taken back or given again.

use std::alloc::AllocError;
use thiserror::Error;

/// Why an edit is not taken back or given again.
#[derive(Clone, Copy, Debug, PartialEq, Eq, Error)]
pub enum UndoFault {
    /// No edit is left to undo.
    #[error("nothing to undo")]
    NothingToUndo,
    /// No edit is left to redo.
    #[error("nothing to redo")]
    NothingToRedo,
    /// There were all the edits that there may be.
    #[error("too many edits")]
    Edits,
    /// There was not enough memory.
    #[error("out of memory")]
    Memory,
}

impl From<AllocError> for UndoFault {
    ghost use Rattle.std.specs.Prelude.{◌≡◌};
    ghost use Rattle.undo_log.specs.declared.faults.UndoFault.TheVariants.{Memory};

    ghost from_gives = { λ _ fault. fault ≡ Memory };

    fn from(_error: AllocError) -> UndoFault {
        UndoFault::Memory
    }
}
