//! Why a line of a script is refused.

use std::alloc::AllocError;
use thiserror::Error;

/// Why a line of a script is no command. A line with several faults has the one that stands first here.
#[derive(Clone, Copy, Debug, PartialEq, Eq, Error)]
pub enum LineFault {
    /// Its first word is that of no command.
    #[error("bad word")]
    BadWord,
    /// It has too few or too many words, or one that is not of its form.
    #[error("bad form")]
    BadForm,
    /// One of its numbers is out of its range.
    #[error("number out of range")]
    NumberRange,
    #[error("out of memory")]
    Memory,
}

impl From<AllocError> for LineFault {
    ghost use Rattle.std.specs.Prelude.{◌≡◌};
    ghost use Rattle.script_lines.specs.declared.faults.LineFault.TheVariants.{Memory};

    ghost from_gives = { λ _ fault. fault ≡ Memory };

    fn from(_error: AllocError) -> LineFault {
        LineFault::Memory
    }
}
