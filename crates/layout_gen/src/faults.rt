//! Why nothing is made.

use cell_library::LibraryLimit;
use names_lists::Name;
use std::alloc::AllocError;
use thiserror::Error;

/// Why cells are not made from a number, with the word that is told of.
#[derive(Debug, Drop, PartialEq, Eq, Error)]
pub enum GenerateFault {
    /// There is a cell of this name.
    #[error("cell exists")]
    CellExists(Name),
    /// No layer has this name.
    #[error("no layer")]
    NoLayer(Name),
    /// There would be too many of these.
    #[error("too many")]
    TooMany(LibraryLimit),
    /// There was not enough memory.
    #[error("out of memory")]
    Memory,
}

impl From<AllocError> for GenerateFault {
    ghost use Rattle.std.specs.Prelude.{◌≡◌};
    ghost use Rattle.layout_gen.specs.declared.faults.GenerateFault.TheVariants.{Memory};

    ghost from_gives = { λ _ fault. fault ≡ Memory };

    fn from(_error: AllocError) -> GenerateFault {
        GenerateFault::Memory
    }
}
