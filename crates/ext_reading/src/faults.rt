//! Why a circuit file is not read.

use std::alloc::AllocError;
use text_form::At;
use thiserror::Error;

/// Why a circuit file is not read. Of the faults of one line the first of these counts.
#[derive(Clone, Copy, Debug, PartialEq, Eq, Error)]
pub enum ExtReadFault {
    /// A line of no form, a line of the header behind its end, a number of measures other than two for each class, or an array in version 1.
    #[error("bad line")]
    BadLine,
    /// The header ends, and the technology, the version or the classes are missing.
    #[error("no header")]
    NoHeader,
    /// The version is neither 1 nor 2.
    #[error("another version")]
    Version,
    /// A name of a node, or a line of the header, stands a second time.
    #[error("name twice")]
    NameTwice,
    /// A number that is out of its range, or more classes, uses or elements of an array than a file may have.
    #[error("out of range")]
    Range,
    /// The numbers of a use are not those of one of the eight orientations.
    #[error("not an orientation")]
    Transform,
    /// A use gives an element a name that another one has.
    #[error("use twice")]
    UseTwice,
    /// A name that no node has so far, or a path that begins with the name of no element of the file's uses.
    #[error("no such name")]
    NoName,
    #[error("out of memory")]
    Memory,
}

/// Where in a circuit file its first fault stands, and which fault it is.
pub type ExtAt = At<ExtReadFault>;

impl From<AllocError> for ExtReadFault {
    ghost use Rattle.std.specs.Prelude.{◌≡◌};
    ghost use Rattle.ext_reading.specs.declared.faults.ExtReadFault.TheVariants.{Memory};

    ghost from_gives = { λ _ fault. fault ≡ Memory };

    fn from(_error: AllocError) -> ExtReadFault {
        ExtReadFault::Memory
    }
}
