//! Why a call of this crate is refused.

use geo_core::PlaneFault;
use std::alloc::AllocError;
use thiserror::Error;

/// Why paint is refused.
#[derive(Clone, Copy, Debug, PartialEq, Eq, Error)]
pub enum PaintFault {
    /// The area has no square.
    #[error("empty rectangle")]
    EmptyRect,
    /// A coordinate of the area is more than `PAINT_EDGE` in absolute value.
    #[error("out of range")]
    OutOfRange,
    /// A plane has no room for its tiles. The planes of today run out of memory before, so no call answers it.
    #[error("too many tiles")]
    TooManyTiles,
    /// There was not enough memory.
    #[error("out of memory")]
    Memory,
}

/// What refuses a call of a plane refuses paint.
impl From<PlaneFault> for PaintFault {
    ghost use Rattle.std.specs.Prelude.{◌≡◌};
    ghost use Rattle.cell_paint.specs.Faults.{of_plane};

    ghost from_gives = { λ refused fault. fault ≡ of_plane refused };

    fn from(refused: PlaneFault) -> PaintFault {
        match refused {
            PlaneFault::Full => PaintFault::TooManyTiles,
            PlaneFault::Memory => PaintFault::Memory,
        }
    }
}

impl From<AllocError> for PaintFault {
    ghost use Rattle.std.specs.Prelude.{◌≡◌};
    ghost use Rattle.cell_paint.specs.declared.faults.PaintFault.TheVariants.{Memory};

    ghost from_gives = { λ _ fault. fault ≡ Memory };

    fn from(_error: AllocError) -> PaintFault {
        PaintFault::Memory
    }
}
