//! A clean cell of a library has one record, with its arrays and its rows of merges. The function here does nothing; its contract is the law.
//!
//! # How the proof goes
//!
//! The named tree of a clean cell is clean, and so two records of the cell say the same with each element and each merge by itself
//! (`records`). The uses are those of the cell, and merges have their rows in one way (`merge_rows`).

ghost use Rattle.std.specs.Prelude.{◌<◌, length};
ghost use Rattle.uniqueness.specs.LibraryRecords.{RecordIsUnique};

use edit_script::cell_library::Reader;
use ext_model::CellKey;

/// The cell has one record where it is clean. It does nothing.
pub fn record_is_unique(library: &Reader<'_>, cell: CellKey)
    requires { cell.0 < length library.now.contents }
    ensures { RecordIsUnique library.now cell.0 }
{
    library.lawful();
    library.typed(cell);
}
