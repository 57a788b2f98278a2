//! How much a text may stand for. Clauses read the limits by their names.

/// What a text may stand for too many of.
#[derive(Clone, Copy, Debug, PartialEq, Eq)]
pub enum CifLimit {
    /// Symbols in a chain of calls.
    Depth,
    /// Instances of symbols.
    Elements,
    /// Boxes of all instances.
    Boxes,
}

/// How many symbols a chain of calls from the top level may have.
pub const LONGEST_CHAIN: u32 = 64;

/// How many instances of symbols there may be at and below the top level.
pub const MOST_INSTANCES: u32 = 1_000_000;

/// How many boxes all instances and the top level may have together.
pub const MOST_BOXES: u32 = 1 << 22;
