//! Why a call of this crate is refused.

use crate::limits::LibraryLimit;
use cell_bodies::cell_paint::PaintFault;
use names_lists::Name;
use std::alloc::AllocError;
use thiserror::Error;

/// Why a change of a library is refused.
#[derive(Debug, Drop, PartialEq, Eq, Error)]
pub enum LibFault {
    /// There is a cell of this name.
    #[error("cell exists")]
    CellExists,
    /// The area has no square, or the rectangle of a label ends before it begins.
    #[error("empty rectangle")]
    EmptyRect,
    /// A coordinate, a displacement or a separation is too far, or some cell's hull would be.
    #[error("out of range")]
    OutOfRange,
    /// The six numbers are not those of an orientation.
    #[error("not an orientation")]
    BadTransform,
    /// The cell has no use of this id.
    #[error("no use")]
    NoUse,
    /// The cell has a use of this id.
    #[error("use exists")]
    UseExists,
    /// The cell of this name would stand below itself.
    #[error("cycle")]
    Cycle(Name),
    /// The cell has no label of this text.
    #[error("no label")]
    NoLabel,
    /// There would be too many of these.
    #[error("too many")]
    TooMany(LibraryLimit),
    /// There was not enough memory.
    #[error("out of memory")]
    Memory,
}

/// What refuses paint refuses a change of a library.
impl From<PaintFault> for LibFault {
    ghost use Rattle.std.specs.Prelude.{◌≡◌};
    ghost use Rattle.cell_library.specs.Faults.{of_paint};

    ghost from_gives = { λ refused fault. fault ≡ of_paint refused };

    fn from(refused: PaintFault) -> LibFault {
        match refused {
            PaintFault::EmptyRect => LibFault::EmptyRect,
            PaintFault::OutOfRange => LibFault::OutOfRange,
            PaintFault::TooManyTiles => LibFault::TooMany(LibraryLimit::Tiles),
            PaintFault::Memory => LibFault::Memory,
        }
    }
}

impl From<AllocError> for LibFault {
    ghost use Rattle.std.specs.Prelude.{◌≡◌};
    ghost use Rattle.cell_library.specs.declared.faults.LibFault.TheVariants.{Memory};

    ghost from_gives = { λ _ fault. fault ≡ Memory };

    fn from(_error: AllocError) -> LibFault {
        LibFault::Memory
    }
}
