//! How a call of the outside is refused. Want of memory comes from this program, all else from outside.

use std::alloc::{AllocError, AllocFailed};
use thiserror::Error;

/// A call failed outside. What the system says of the reason is not kept.
#[derive(Clone, Copy, Debug, PartialEq, Eq, Error)]
#[error("failed")]
pub struct Failed;

/// Why bytes were not put somewhere.
#[derive(Clone, Copy, Debug, PartialEq, Eq, Error)]
pub enum PutFault {
    #[error("failed")]
    Failed,
    #[error("out of memory")]
    Memory,
}

/// Why a file was not fetched.
#[derive(Clone, Copy, Debug, PartialEq, Eq, Error)]
pub enum ShelfFault {
    /// There is no file of this name.
    #[error("no such file")]
    Absent,
    /// The file has more bytes than `LONGEST_FILE`.
    #[error("file too long")]
    TooLong,
    #[error("failed")]
    Failed,
    #[error("out of memory")]
    Memory,
}

/// Why a source was not read to its end.
#[derive(Clone, Copy, Debug, PartialEq, Eq, Error)]
pub enum ReadAllFault {
    /// It has more bytes than were asked for.
    #[error("too long")]
    TooLong,
    #[error("failed")]
    Failed,
    #[error("out of memory")]
    Memory,
}

impl From<AllocError> for PutFault {
    ghost use Rattle.std.specs.Prelude.{◌≡◌};
    ghost use Rattle.outside_io.specs.declared.faults.PutFault.TheVariants.{Memory};

    ghost from_gives = { λ _ fault. fault ≡ Memory };

    fn from(_error: AllocError) -> PutFault {
        PutFault::Memory
    }
}

impl<T: Drop> From<AllocFailed<T>> for PutFault {
    ghost use Rattle.std.specs.Prelude.{◌≡◌};
    ghost use Rattle.outside_io.specs.declared.faults.PutFault.TheVariants.{Memory};

    ghost from_gives = { λ _ fault. fault ≡ Memory };

    fn from(_failed: AllocFailed<T>) -> PutFault {
        PutFault::Memory
    }
}

impl From<AllocError> for ShelfFault {
    ghost use Rattle.std.specs.Prelude.{◌≡◌};
    ghost use Rattle.outside_io.specs.declared.faults.ShelfFault.TheVariants.{Memory};

    ghost from_gives = { λ _ fault. fault ≡ Memory };

    fn from(_error: AllocError) -> ShelfFault {
        ShelfFault::Memory
    }
}

impl From<AllocError> for ReadAllFault {
    ghost use Rattle.std.specs.Prelude.{◌≡◌};
    ghost use Rattle.outside_io.specs.declared.faults.ReadAllFault.TheVariants.{Memory};

    ghost from_gives = { λ _ fault. fault ≡ Memory };

    fn from(_error: AllocError) -> ReadAllFault {
        ReadAllFault::Memory
    }
}

impl From<Failed> for ReadAllFault {
    ghost use Rattle.std.specs.Prelude.{◌≡◌};
    ghost use Rattle.outside_io.specs.declared.faults.ReadAllFault.TheVariants.{Failed as IsFailed};

    ghost from_gives = { λ _ fault. fault ≡ IsFailed };

    fn from(_fault: Failed) -> ReadAllFault {
        ReadAllFault::Failed
    }
}

impl From<ReadAllFault> for ShelfFault {
    ghost use Rattle.std.specs.Prelude.{◌≡◌};
    ghost use Rattle.outside_io.specs.Refusals.{fetch_fault_of};

    ghost from_gives = { λ given fault. fault ≡ fetch_fault_of given };

    fn from(fault: ReadAllFault) -> ShelfFault {
        match fault {
            ReadAllFault::TooLong => ShelfFault::TooLong,
            ReadAllFault::Failed => ShelfFault::Failed,
            ReadAllFault::Memory => ShelfFault::Memory,
        }
    }
}
