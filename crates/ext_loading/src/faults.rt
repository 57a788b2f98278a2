//! Why a tree of circuit files is refused.

use ext_reading::ExtAt;
use names_lists::Name;
use session_model::FetchFault;
use thiserror::Error;

/// Why a tree of circuit files is refused, with the file or the cell that is told of.
#[derive(Debug, Drop, Error)]
pub enum ExtLoadFault {
    /// There is no file of this name, or it is too long.
    #[error("no text")]
    File(Name, FetchFault),
    /// The text of this file has a fault.
    #[error("bad text")]
    Ext(Name, ExtAt),
    /// There would be too many cells in the tree.
    #[error("too many cells")]
    TooManyCells,
    /// The cell of this name stands below itself.
    #[error("cycle")]
    Cycle(Name),
}
