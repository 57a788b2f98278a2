//! How much is recorded of a run.

/// The most changes of nodes that are recorded, where the end of a phase counts as a change of each node. Past it, runs go on without a record.
pub const MOST_CHANGES: usize = 1 << 22;
