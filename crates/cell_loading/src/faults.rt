//! Why a load is refused.

use mag_text::MagAt;
use mag_text::cell_library::LibraryLimit;
use names_lists::Name;
use session_model::FetchFault;
use thiserror::Error;

/// Why a load is refused, with the file or the cell that is told of.
#[derive(Debug, Drop, Error)]
pub enum LoadFault {
    /// There is a cell of this name.
    #[error("cell exists")]
    CellExists(Name),
    /// There is no file of this name, or it is too long.
    #[error("no text")]
    File(Name, FetchFault),
    /// The text of this file has a fault.
    #[error("bad text")]
    Mag(Name, MagAt),
    /// The scale of this file, which this line of it says, is not that of the library.
    #[error("another scale")]
    Scale(Name, usize),
    /// The cell of this name would stand below itself.
    #[error("cycle")]
    Cycle(Name),
    /// The hull of some cell would be too far.
    #[error("out of range")]
    OutOfRange,
    /// There would be too many of these.
    #[error("too many")]
    TooMany(LibraryLimit),
    /// There was not enough memory.
    #[error("out of memory")]
    Memory,
}
