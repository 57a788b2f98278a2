//! Why an arena refuses to grow.

use std::alloc::AllocError;
use thiserror::Error;

/// Why there is no room for more values.
#[derive(Clone, Copy, Debug, PartialEq, Eq, Error)]
pub enum ArenaFault {
    #[error("more than 2147483648 values")]
    Full,
    #[error("out of memory")]
    Memory,
}

impl From<AllocError> for ArenaFault {
    ghost use Rattle.std.specs.Prelude.{◌≡◌};
    ghost use Rattle.tile_arena.specs.declared.faults.ArenaFault.TheVariants.{Memory};

    ghost from_gives = { λ _ fault. fault ≡ Memory };

    fn from(_error: AllocError) -> ArenaFault {
        ArenaFault::Memory
    }
}
