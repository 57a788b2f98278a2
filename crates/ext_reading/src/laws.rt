//! Laws of circuit files.
ghost use Rattle.ext_reading.specs.ReadBack.{WrittenRecordsAreReadBack};

/// A lawful record within the limits of files that are read is read back from its written text as the same.
pub fn written_records_are_read_back()
    ensures { WrittenRecordsAreReadBack }
{}
