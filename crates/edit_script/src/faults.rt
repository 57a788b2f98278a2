//! Why a command that edits is refused.

use cell_library::LibraryLimit;
use names_lists::Name;
use std::alloc::AllocError;
use thiserror::Error;

/// Why a command that edits is refused, with the word that is told of.
#[derive(Debug, Drop, PartialEq, Eq, Error)]
pub enum EditFault {
    /// There is no current cell.
    #[error("no current cell")]
    NoCurrent,
    /// There is no cell of this name.
    #[error("no cell")]
    NoCell(Name),
    /// There is a cell of this name.
    #[error("cell exists")]
    CellExists(Name),
    /// No layer has this name.
    #[error("no layer")]
    NoLayer(Name),
    /// The area has no square, or the rectangle of a label ends before it begins.
    #[error("empty rectangle")]
    EmptyRect,
    /// A coordinate, a displacement or a separation is too far, or some cell's hull would be.
    #[error("out of range")]
    OutOfRange,
    /// The six numbers are not those of an orientation.
    #[error("not an orientation")]
    BadTransform,
    /// The current cell has no use of this id.
    #[error("no use")]
    NoUse(Name),
    /// The current cell has a use of this id.
    #[error("use exists")]
    UseExists(Name),
    /// The cell of this name would stand below itself.
    #[error("cycle")]
    Cycle(Name),
    /// The current cell has no label of this text.
    #[error("no label")]
    NoLabel(Name),
    /// There would be too many of these.
    #[error("too many")]
    TooMany(LibraryLimit),
    /// There was not enough memory.
    #[error("out of memory")]
    Memory,
}

impl From<AllocError> for EditFault {
    ghost use Rattle.std.specs.Prelude.{◌≡◌};
    ghost use Rattle.edit_script.specs.declared.faults.EditFault.TheVariants.{Memory};

    ghost from_gives = { λ _ fault. fault ≡ Memory };

    fn from(_error: AllocError) -> EditFault {
        EditFault::Memory
    }
}
