//! Why a sim text is refused.

use crate::limits::SimLimit;
use std::alloc::AllocError;
use text_form::At;
use thiserror::Error;

/// Why a sim text is neither read nor written, or sim records or their network are not made.
#[derive(Clone, Copy, Debug, PartialEq, Eq, Error)]
pub enum SimFault {
    /// The first line isn't of its form, or there is none.
    #[error("no header")]
    Header,
    /// A line of no form.
    #[error("bad line")]
    BadLine,
    /// The first word of a transistor line is none of e, n, p and d.
    #[error("no letter of a transistor")]
    Letter,
    /// A number that is out of its range.
    #[error("number out of range")]
    Range,
    /// A word that should be a name and isn't one.
    #[error("bad name")]
    Name,
    /// The text would have too many bytes: only the writer says so.
    #[error("too long")]
    TooLong,
    /// There would be too many of these: only what makes sim records, or a network of them, says so.
    #[error("too many")]
    TooMany(SimLimit),
    #[error("out of memory")]
    Memory,
}

/// Where in a sim text its first fault stands, and which fault it is.
pub type SimAt = At<SimFault>;

impl From<AllocError> for SimFault {
    ghost use Rattle.std.specs.Prelude.{◌≡◌};
    ghost use Rattle.sim_text.specs.declared.faults.SimFault.TheVariants.{Memory};

    ghost from_gives = { λ _ fault. fault ≡ Memory };

    fn from(_error: AllocError) -> SimFault {
        SimFault::Memory
    }
}
