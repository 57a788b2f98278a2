//! What ends a reading of files before all of them are read.

use crate::answer::Halt;
use std::alloc::{AllocError, AllocFailed};

/// Why no more files are read.
#[derive(Debug, Drop)]
pub enum Stop<Fault> {
    /// What is read is refused.
    Refused(Fault),
    /// The run ends.
    Halted(Halt),
}

impl<Fault> From<AllocError> for Stop<Fault> {
    ghost use Rattle.std.specs.Prelude.{◌≡◌};
    ghost use Rattle.session_model.specs.declared.answer.Halt.TheVariants.{Memory};
    ghost use Rattle.session_model.specs.declared.stops.Stop.TheVariants.{Halted};

    ghost from_gives = { λ _ stop. stop ≡ Halted Memory };

    fn from(_error: AllocError) -> Stop<Fault> {
        Stop::Halted(Halt::Memory)
    }
}

impl<Fault, T: Drop> From<AllocFailed<T>> for Stop<Fault> {
    ghost use Rattle.std.specs.Prelude.{◌≡◌};
    ghost use Rattle.session_model.specs.declared.answer.Halt.TheVariants.{Memory};
    ghost use Rattle.session_model.specs.declared.stops.Stop.TheVariants.{Halted};

    ghost from_gives = { λ _ stop. stop ≡ Halted Memory };

    fn from(_failed: AllocFailed<T>) -> Stop<Fault> {
        Stop::Halted(Halt::Memory)
    }
}
