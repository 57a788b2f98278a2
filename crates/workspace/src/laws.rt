//! The law of the circuit files that are stored of cells. The function here does nothing; its contract is the law.
ghost use Rattle.workspace.specs.ReadBack.{RecordsAreReadBack};

use ext_cache::cell_library::Reader;
use ext_reading::written_records_are_read_back;

/// Each circuit file that is stored of a cell can be read, and gives the record back as it was.
pub fn records_are_read_back(library: &Reader<'_>)
    ensures { RecordsAreReadBack library.now }
{
    library.lawful();
    written_records_are_read_back();
}
