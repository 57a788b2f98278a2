//! Why an extraction is refused.

use ext_model::CellKey;
use geo_core::Rect;
use names_lists::List;
use std::alloc::AllocError;
use thiserror::Error;

/// A cell that is not clean, and the strips of its squares that offend, by plane.
#[derive(Debug, Drop)]
pub struct Unclean {
    pub cell: CellKey,
    pub squares: List<(u8, Rect)>,
}

/// An extraction is refused for want of memory, or because a cell is not clean.
#[derive(Debug, Drop, Error)]
pub enum ExtractFault {
    #[error("out of memory")]
    Memory,
    #[error("a cell is not clean")]
    Unclean(Unclean),
}

impl From<AllocError> for ExtractFault {
    ghost use Rattle.std.specs.Prelude.{◌≡◌};
    ghost use Rattle.ext_cache.specs.declared.faults.ExtractFault.TheVariants.{Memory};

    ghost from_gives = { λ _ fault. fault ≡ Memory };

    fn from(_error: AllocError) -> ExtractFault {
        ExtractFault::Memory
    }
}
