//! Why a CIF text is refused.

use std::alloc::AllocError;
use text_form::At;
use thiserror::Error;

/// Why a command refuses a CIF text, or its end. A command that has several faults is told by the first in the order K2, K1, K6, K4, K3, K8, K5.
#[derive(Clone, Copy, Debug, PartialEq, Eq, Error)]
pub enum CifFault {
    /// Another form; a command other than `E` without its semicolon; a `DS` or an `E` inside a symbol, or a `DF` outside; a length or width
    /// below 1; or a scale one of whose numbers isn't from 1 to 1,000,000.
    #[error("K1")]
    Form,
    /// A polygon, a wire, a round flash or a symbol taken back; a box with a direction; or a turn of a call that isn't along an axis.
    #[error("K2")]
    LeftOut,
    /// A call of a symbol that isn't defined before.
    #[error("K3")]
    NoSymbol,
    /// A symbol with the number of an earlier one.
    #[error("K4")]
    SymbolTwice,
    /// An edge of a box or a shift of a call that isn't whole when it is scaled.
    #[error("K5")]
    NotWhole,
    /// A number outside 32 bits with sign.
    #[error("K6")]
    Range,
    /// A text without `E`. It is told at the last line, which is line 1 in an empty text.
    #[error("K7")]
    NoEnd,
    /// A box where no layer is chosen. None is at the start of a text and at the start of a symbol; behind a symbol it is again the one before.
    #[error("K8")]
    NoLayer,
    #[error("out of memory")]
    Memory,
}

/// Where in a CIF text its first fault stands, and which fault it is: the line of the first byte of the faulty command.
pub type CifAt = At<CifFault>;

impl From<AllocError> for CifFault {
    ghost use Rattle.std.specs.Prelude.{◌≡◌};
    ghost use Rattle.cif_reading.specs.declared.faults.CifFault.TheVariants.{Memory};

    ghost from_gives = { λ _ fault. fault ≡ Memory };

    fn from(_error: AllocError) -> CifFault {
        CifFault::Memory
    }
}
