//! How far records are counted. Clauses read the limit by its name.

/// The last serial of a record, at which the count stands still.
pub const LAST_SERIAL: u64 = u64::MAX;
