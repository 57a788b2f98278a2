//! The outside: where a program's bytes come from, where they go, and where its files lie.
//!
//! Each of the three traits says what its calls do to content that may be told or not, and counts what went wrong
//! outside. A program that is written over them is proved for all of their implementations at once:
//!
//! | Trait | In memory, its n-th call can be made to fail | Never fails | Over the system |
//! |---|---|---|---|
//! | `Source` | `MemorySource` | `FaultlessSource` | `ReaderSource` |
//! | `Sink` | `MemorySink` | `FaultlessSink` | `WriterSink` |
//! | `Shelf` | `MemoryShelf` | `FaultlessShelf` | `FolderShelf` |
//!
//! Those in memory tell their content, those over the system do not. The first column's tell which of their calls fail too:
//! those whose numbers are listed, and no others.
#![tactic(auto)]

mod calls;
mod faultless;
mod faults;
mod limits;
mod memory;
mod outside;
mod system;
mod whole;

pub use faultless::{FaultlessShelf, FaultlessSink, FaultlessSource};
pub use faults::{Failed, PutFault, ReadAllFault, ShelfFault};
pub use limits::{LAST_COUNT, LONGEST_FILE};
pub use memory::{MemoryShelf, MemorySink, MemorySource};
pub use outside::{Shelf, Sink, Source};
pub use system::{FolderShelf, ReaderSource, WriterSink};
pub use whole::{read_all, write_all};
