//! The files that commands ask for.
ghost use Rattle.std.specs.Prelude.{◌≡◌, Some, IfOk};
ghost use Rattle.outside_io.specs.CallPlans.{told_after_call};
ghost use Rattle.outside_io.specs.Files.{Files};
ghost use Rattle.session_model.specs.Causes.{HasCauses};
ghost use Rattle.session_model.specs.Fetches.{FetchMeans, IsShort, kinds_of_fetched};

use crate::answer::Halt;
use names_lists::Name;
use outside_io::{Shelf, ShelfFault};
use std::alloc::Global;

/// Why there is no text of a file.
#[derive(Clone, Copy, Debug, PartialEq, Eq)]
pub enum FetchFault {
    /// There is no file of the name.
    Absent,
    /// The file has more than `LONGEST_FILE` bytes.
    TooLong,
}

/// The text of a file, or why there is none.
#[derive(Debug, Drop)]
pub enum Fetched {
    Text(Vec<u8>),
    Refused(FetchFault),
}

/// Asks the shelf for a file.
#[tactic(auto, unfolding(crate::specs::Fetches::text_in))]
pub fn fetch_text<F: Shelf>(alloc: Global, shelf: &mut F, file: &Name) -> Result<Fetched, Halt>
    ensures effect { (files : Files) → F.files shelf.old ≡ Some files → IfOk result (FetchMeans files file.now) }
    ensures fits { IfOk result IsShort }
    ensures files { F.files shelf.new ≡ F.files shelf.old }
    ensures asked { F.fetch_plan shelf.new ≡ told_after_call (F.fetch_plan shelf.old) }
    ensures causes { HasCauses F.Shelf shelf.old shelf.new kinds_of_fetched result }
{
    match shelf.fetch(alloc, file) {
        Ok(text) => Ok(Fetched::Text(text)),
        Err(ShelfFault::Absent) => Ok(Fetched::Refused(FetchFault::Absent)),
        Err(ShelfFault::TooLong) => Ok(Fetched::Refused(FetchFault::TooLong)),
        Err(ShelfFault::Failed) => Err(Halt::ReadFault),
        Err(ShelfFault::Memory) => Err(Halt::Memory),
    }
}
